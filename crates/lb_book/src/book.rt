//! `Book`: the journal of one balancer, and the calls that add to it.

ghost use Rattle.std.specs.Prelude.{◌≡◌, ◌+◌, ◌<◌, ◌≤◌, ◌↔◌, true, length, IfOk, IfErr, OnOk, OnErr, IsOk};

mod adding;
mod admin;
mod cut;
mod maintain;

use crate::beginning::{opening_present, opening_tables};
use crate::book::adding::{add, take_room};
use crate::opened::start_rows;
use crate::present::Present;
use crate::shown::shown_rows;
use jk_io::NoMemory;
use lb_model::{
    Answer, Ask, Call, Entry, FullMark, LbConfig, MOST_NUMBERS, Opening, Outcome, RoomError,
    RowList, Stray, TicketList, View,
};
use lb_rules::{Rules, locate, note_return};
use std::alloc::Global;
use std::marker::Model;

/// One balancer: the state that its journal begins with, the kept entries, and what they leave.
#[derive(Drop)]
pub struct Book {
    rules: Rules,
    opening: Opening,
    entries: Vec<Entry>,
    present: Present,
    /// Beside each kept entry: the number of the entry that returned its ticket.
    returned: Vec<Option<u64>>,
    /// The same beside each ticket of the opening.
    early: Vec<Option<u64>>,
    /// How many entries were ever added.
    added: u64,
}

impl Model for Book {
    ghost use Rattle.std.specs.Prelude.{vec_capacity};
    ghost use Rattle.lb_book.specs.Journal.{Journal};
    ghost use Rattle.lb_rules.specs.RuleNumbers.{rules_number};
    ghost use Rattle.lb_book.specs.Kept.{IsKept};

    ghost Value = { Journal };

    ghost view = { λ b. record { rules = rules_number b.rules; opening = b.opening; entries = b.entries.items; added = b.added } };

    ghost invariant = { λ b. IsKept (rules_number b.rules) b.opening b.entries.items b.present b.returned.items b.early.items b.added
        (vec_capacity b.entries) (vec_capacity b.returned) };
}

/// A ticket that a Select made, with its member. It must be spent by `Book::give_back` or `into_ticket`.
pub struct Lease {
    member: u32,
    ticket: u64,
}

impl Lease {
    ghost use Rattle.std.specs.Prelude.{◌≡◌};
    ghost use Rattle.lb_book.specs.Leases.{IsLeaseOf};

    // The lease of an answer.
    fn of(answer: Answer) -> Option<Lease>
        ensures { IsLeaseOf answer result }
    {
        match answer {
            Answer::Chosen { member, ticket, .. } => Some(Lease { member, ticket }),
            Answer::NoMember | Answer::Forced | Answer::Done => None,
        }
    }

    /// The member that was chosen.
    pub fn member(&self) -> u32
        ensures { result ≡ self.now.member }
    {
        self.member
    }

    /// The ticket's number.
    pub fn ticket(&self) -> u64
        ensures { result ≡ self.now.ticket }
    {
        self.ticket
    }

    /// Spends the lease and gives its ticket, for callers that name tickets by number.
    pub fn into_ticket(self) -> u64
        ensures { result ≡ self.ticket }
    {
        let Lease { member: _, ticket } = self;
        ticket
    }
}

/// What a Select answered. The lease is there exactly where a member was chosen.
pub struct Picked {
    pub entry: Entry,
    pub lease: Option<Lease>,
}

impl Book {
    ghost use Rattle.std.specs.Prelude.{◌≡◌, ◌+◌, ◌<◌, ◌≤◌, ◌↔◌, true, [], length, IfOk, IfErr, OnOk, OnErr, IsOk};
    ghost use Rattle.lb_model.specs.Choice.{IsPick};
    ghost use Rattle.lb_model.specs.Legal.{IsNext, KnowsTerms};
    ghost use Rattle.lb_model.specs.Present.{IsPresent};
    ghost use Rattle.lb_model.specs.Tickets.{is_out};
    ghost use Rattle.lb_model.specs.Segments.{AreRules};
    ghost use Rattle.lb_model.specs.Validity.{IsOpening};
    ghost use Rattle.lb_rules.specs.RuleNumbers.{rules_number};
    ghost use Rattle.lb_book.specs.Journal.{
      AddsEntry,
      IsFullUnless,
      IsSound,
      IsStart,
      next_number,
      past_of,
      tickets_out,
    };
    ghost use Rattle.lb_rules.specs.Returns.{IsReturnedAt};
    ghost use Rattle.lb_book.specs.Leases.{IsLeaseOf};
    ghost use Rattle.lb_book.specs.Bounds.{ChoseWell, IsBounded};
    ghost use Rattle.lb_book.specs.Weights.{AreLevel, IsEvenEpoch};
    ghost use Rattle.lb_model.specs.declared.journal.TheConstants.{MOST_BYTES};

    /// A balancer that starts at moment `at`: every member Ok, nothing loaded, no ticket out. `first` is the number
    /// of its first entry.
    pub fn start(alloc: Global, config: LbConfig, at: u64, first: u64) -> Result<Book, NoMemory>
        requires { first ≤ MOST_NUMBERS }
        ensures start { IfOk result (λ book. IsStart book config at first) }
        ensures sound { IfOk result IsSound }
    {
        let rows = start_rows(alloc, config.members.as_slice())?;
        let opening = Opening {
            config,
            rows: RowList::from_vec(rows),
            out: TicketList::new(alloc),
            next: first,
            at,
            maintained: at,
            chosen: None,
        };
        Book::open(alloc, opening, Rules::Two)
    }

    /// A balancer that goes on from an opening, by rules 1 or 2.
    pub fn resume(opening: Opening, rules: u8) -> Result<Book, NoMemory>
        requires valid { IsOpening opening }
        requires versions { AreRules rules }
        ensures resumed { IfOk result (λ book. book ≡ record { rules = rules; opening = opening; entries = []; added = 0 }) }
        ensures sound { IfOk result IsSound }
    {
        let alloc = opening.config.members.allocator();
        Book::open(alloc, opening, Rules::of(rules))
    }

    // A Book with this opening and no entry, and the room for the Returns of its tickets.
    fn open(alloc: Global, opening: Opening, rules: Rules) -> Result<Book, NoMemory>
        requires { IsOpening opening }
        ensures opened { IfOk result (λ book. book ≡ record { rules = rules_number rules; opening = opening; entries = []; added = 0 }) }
    {
        let present = opening_present(alloc, &opening)?;
        let tables = opening_tables(alloc, &opening, present)?;
        Ok(Book {
            rules,
            opening,
            entries: tables.entries,
            present: tables.present,
            returned: tables.returned,
            early: tables.early,
            added: 0,
        })
    }

    /// How many entries are kept.
    pub fn kept(&self) -> u64
        ensures value { result ≡ length self.now.entries }
        ensures sound { IsSound self.now }
    {
        self.entries.len() as u64
    }

    /// The number of the entry that comes next.
    pub fn next(&self) -> u64
        ensures value { result ≡ next_number self.now }
        ensures sound { IsSound self.now }
    {
        self.opening.next + self.entries.len() as u64
    }

    /// How many entries the Book added since it was started or resumed, cut ones among them.
    pub fn added(&self) -> u64
        ensures { result ≡ self.now.added }
    {
        self.added
    }

    /// Answers an ask of a session at a moment. It takes the room for the Return of the ticket, too.
    pub fn select(
        &mut self,
        session: u32,
        at: u64,
        ask: &Ask,
    ) -> Result<Picked, RoomError<FullMark>>
        requires { KnowsTerms self.old.rules ask.now }
        ensures ok { IfOk result (λ picked. AddsEntry self.old self.new session at (Call.Select ask.now) picked.entry) }
        ensures pick { IfOk result (λ picked. IsPick self.old.rules self.old.opening (past_of self.old) ask.now picked.entry.answer) }
        ensures lease { IfOk result (λ picked. IsLeaseOf picked.entry.answer picked.lease) }
        ensures next { IfOk result (λ picked. IsNext self.old.rules self.old.opening (past_of self.old) picked.entry) }
        ensures sound { IsSound self.new }

        // Full exactly where two numbers aren't left: the Select's own, and that of its ticket's Return.
        ensures full { IsFullUnless (next_number self.old) (tickets_out self.old) 2 result }
        ensures err { OnErr result (self.new ≡ self.old) }
    {
        let next = self.opening.next + self.entries.len() as u64;
        let out = self.present.out;
        if next + out + 2 > MOST_NUMBERS {
            return Err(RoomError::Full(FullMark { next, out }));
        }
        take_room(&mut self.entries, &mut self.returned, out as usize + 2)?;
        let choice = self.present.pick(&self.opening, self.rules, ask, next);
        let entry = Entry {
            seq: next,
            session,
            at: at.max(self.present.at),
            call: Call::Select(*ask),
            answer: choice.answer,
        };
        self.present
            .select(&self.opening.config, ask, next, entry.at, choice);
        add(&mut self.entries, &mut self.returned, entry);
        self.added += 1;
        Ok(Picked {
            entry,
            lease: Lease::of(choice.answer),
        })
    }

    /// Takes a lease back, with how its exchange ended. The lease is spent also where it is refused.
    pub fn give_back(
        &mut self,
        session: u32,
        at: u64,
        lease: Lease,
        outcome: Outcome,
    ) -> Result<Entry, Stray>
        requires { outcome.bytes ≤ MOST_BYTES }
        ensures found { IsOk result ↔ (is_out self.old.opening (past_of self.old) lease.ticket ≡ true) }
        ensures ok { IfOk result (λ e. AddsEntry self.old self.new session at (Call.Return lease.ticket outcome) e) }
        ensures done { IfOk result (λ e. e.answer ≡ Answer.Done) }
        ensures next { IfOk result (λ e. IsNext self.old.rules self.old.opening (past_of self.old) e) }
        ensures sound { IsSound self.new }

        ensures ticket { IfErr result (λ stray. stray.ticket ≡ lease.ticket) }
        ensures returned { IfErr result (λ stray. IsReturnedAt (past_of self.old) lease.ticket stray.returned_at) }
        ensures err { OnErr result (self.new ≡ self.old) }
    {
        let ticket = lease.into_ticket();
        self.return_ticket(session, at, ticket, outcome)
    }

    /// Takes the ticket of this number back, with how its exchange ended, where it is out.
    pub fn return_ticket(
        &mut self,
        session: u32,
        at: u64,
        ticket: u64,
        outcome: Outcome,
    ) -> Result<Entry, Stray>
        requires { outcome.bytes ≤ MOST_BYTES }
        ensures found { IsOk result ↔ (is_out self.old.opening (past_of self.old) ticket ≡ true) }
        ensures ok { IfOk result (λ e. AddsEntry self.old self.new session at (Call.Return ticket outcome) e) }
        ensures done { IfOk result (λ e. e.answer ≡ Answer.Done) }
        ensures next { IfOk result (λ e. IsNext self.old.rules self.old.opening (past_of self.old) e) }
        ensures sound { IsSound self.new }

        ensures ticket { IfErr result (λ stray. stray.ticket ≡ ticket) }
        ensures returned { IfErr result (λ stray. IsReturnedAt (past_of self.old) ticket stray.returned_at) }
        ensures err { OnErr result (self.new ≡ self.old) }
    {
        let located = locate(
            &self.opening,
            self.entries.as_slice(),
            self.returned.as_slice(),
            self.early.as_slice(),
            ticket,
        );
        let (spot, member) = match located {
            Ok(found) => found,
            Err(stray) => return Err(stray),
        };
        let entry = Entry {
            seq: self.opening.next + self.entries.len() as u64,
            session,
            at: at.max(self.present.at),
            call: Call::Return { ticket, outcome },
            answer: Answer::Done,
        };
        self.present
            .give_back(&self.opening.config, member, ticket, outcome, entry.at);
        note_return(spot, entry.seq, &mut self.returned, &mut self.early);
        add(&mut self.entries, &mut self.returned, entry);
        self.added += 1;
        Ok(entry)
    }

    /// The balancer as it is now.
    pub fn view(&self) -> Result<View, NoMemory>
        ensures present { IfOk result (λ view. IsPresent self.now.rules self.now.opening (past_of self.now) view) }
        ensures sound { IsSound self.now }

        // Bounds of every Book: pools, trials, and the states in which members were chosen.
        ensures bounded { IfOk result (λ view. IsBounded self.now view) }
        ensures choices { ChoseWell self.now }

        // Loads stay level through an epoch by Request that began level, and whose asks all members could have.
        ensures weights { IfOk result (λ view. IsEvenEpoch self.now.rules self.now.opening (past_of self.now) → AreLevel self.now view) }
    {
        let members = self.opening.config.members.as_slice();
        let alloc = self.opening.config.members.allocator();
        let rows = shown_rows(alloc, members, self.present.rows.as_slice())?;
        Ok(View {
            next: self.opening.next + self.entries.len() as u64,
            at: self.present.at,
            rows: RowList::from_vec(rows),
        })
    }
}
