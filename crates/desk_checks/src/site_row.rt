//! A row over a Site. The tickets that its selects made are held here, and come back by their number.

use crate::leases::{OneLease, OneSite, give_all_back, give_up, keep, take};
use check_lines::begin::is_opening_line;
use check_lines::calls::{FitOutcome, asked_call, outcome_of, tell_admin, tell_entry, tell_stray};
use check_lines::judging::Teller;
use check_lines::texts::{first_word, put_number, say};
use jk_io::{Bytes, NoMemory, NumberList};
use lb_model::{AdminError, Ask, Call, Command, Entry, RoomError, View};
use lb_shared::{
    KeptList, MemShelf, SiteLease, SiteMark, SiteName, SitePicked, SiteReceipt, SiteStray,
};
use play_script::put_rows;
use std::alloc::Global;

/// A Site of one Book, with the tickets that are out.
pub struct SiteRow<L: SiteName> {
    over: OneSite<L>,
    leases: Vec<OneLease<L>>,
    shelf: MemShelf,
}

fn tell_receipt<L>(receipt: &SiteReceipt<L>, out: &mut Bytes) -> Result<(), NoMemory> {
    tell_entry(out, &receipt.receipt().entry)
}

/// Puts why there was no room. Want of memory is an error here.
fn tell_refused<L>(error: &RoomError<SiteMark<L>>, out: &mut Bytes) -> Result<(), NoMemory> {
    match error {
        RoomError::Full(_) => out.extend(b"full"),
        RoomError::NoMemory => Err(NoMemory),
    }
}

fn tell_returned<L>(
    back: &Result<SiteReceipt<L>, SiteStray<L>>,
    out: &mut Bytes,
) -> Result<bool, NoMemory> {
    match back {
        Ok(receipt) => tell_receipt(receipt, out)?,
        Err(stray) => tell_stray(out, stray.stray())?,
    }
    Ok(true)
}

fn tell_maintained<L>(
    done: &Result<Option<SiteReceipt<L>>, RoomError<SiteMark<L>>>,
    out: &mut Bytes,
) -> Result<bool, NoMemory> {
    match done {
        Ok(Some(receipt)) => tell_receipt(receipt, out)?,
        Ok(None) => out.extend(b"not due")?,
        Err(error) => tell_refused(error, out)?,
    }
    Ok(true)
}

fn tell_commanded<L>(
    done: &Result<SiteReceipt<L>, AdminError<SiteMark<L>>>,
    out: &mut Bytes,
) -> Result<bool, NoMemory> {
    match done {
        Ok(receipt) => tell_receipt(receipt, out)?,
        Err(error) => tell_admin(out, error)?,
    }
    Ok(true)
}

fn put_view(view: &View, word: &str, out: &mut Bytes) -> Result<bool, NoMemory> {
    match word {
        "show" => put_rows(out, view.rows.as_slice())?,
        "next" => put_number(out, "", view.next)?,
        _ => return Ok(false),
    }
    Ok(true)
}

/// Puts the last segment of a shelf: its balancer, its entries, and the number of the first.
fn put_last(shelf: &MemShelf, out: &mut Bytes) -> Result<bool, NoMemory> {
    let Some((lb, kept)) = shelf.kept().last() else {
        return Ok(false);
    };
    put_number(out, "of ", u64::from(*lb))?;
    put_number(out, ", ", kept.entries.len() as u64)?;
    put_number(out, " from ", kept.opening.next)?;
    Ok(true)
}

impl<L: SiteName> SiteRow<L> {
    ghost use Rattle.std.specs.Prelude.{◌≡◌, IfSome};
    ghost use Rattle.lb_book.specs.ToldBooks.{IsNoneDue};
    ghost use Rattle.lb_shared.specs.Sites.{At};

    pub fn new(alloc: Global, over: OneSite<L>) -> SiteRow<L> {
        SiteRow {
            over,
            leases: Vec::new(alloc),
            shelf: MemShelf::new(KeptList::new(alloc), NumberList::new(alloc)),
        }
    }

    /// Gives the tickets back that are out.
    pub fn end(self) {
        let SiteRow {
            mut over,
            leases,
            shelf: _,
        } = self;
        give_all_back(&mut over, leases);
    }

    fn keep(&mut self, lease: OneLease<L>) -> Result<(), NoMemory> {
        match keep(&mut self.leases, lease) {
            Ok(()) => Ok(()),
            Err(lease) => {
                give_up(&mut self.over, lease);
                Err(NoMemory)
            }
        }
    }

    /// Keeps a ticket that a select made.
    fn hold(&mut self, lease: Option<SiteLease<L>>) -> Result<(), NoMemory>
        requires { IfSome lease (λ l. l.lb ≡ 0) }
    {
        match lease {
            Some(lease) => self.keep(OneLease { lease }),
            None => Ok(()),
        }
    }

    #[tactic(auto, using(crate::proofs::SiteFacts::adds_same))]
    fn select(
        &mut self,
        session: u32,
        at: u64,
        ask: &Ask,
        out: &mut Bytes,
    ) -> Result<bool, NoMemory>
        requires { At self.old.over.site 0 (λ b. IsNoneDue b at) }
    {
        match self
            .over
            .site
            .select(0, session, at, ask, &mut self.over.share)
        {
            Ok(SitePicked { receipt, lease }) => {
                self.hold(lease)?;
                tell_receipt(&receipt, out)?;
            }
            Err(error) => tell_refused(&error, out)?,
        }
        Ok(true)
    }

    #[tactic(auto, using(crate::proofs::SiteFacts::adds_same))]
    fn command(
        &mut self,
        session: u32,
        at: u64,
        command: &Command,
        out: &mut Bytes,
    ) -> Result<bool, NoMemory>
        requires { At self.old.over.site 0 (λ b. IsNoneDue b at) }
    {
        let done = self
            .over
            .site
            .admin(0, session, at, command, &mut self.over.share);
        tell_commanded(&done, out)
    }

    #[tactic(auto, using(crate::proofs::SiteFacts::adds_same))]
    fn give_back(
        &mut self,
        asked: &Entry,
        lease: OneLease<L>,
        fit: FitOutcome,
        out: &mut Bytes,
    ) -> Result<bool, NoMemory> {
        let OneLease { lease } = lease;
        let back = self.over.site.give_back(
            asked.session,
            asked.at,
            lease,
            fit.outcome,
            &mut self.over.share,
        );
        tell_returned(&back, out)
    }

    fn return_ticket(
        &mut self,
        asked: &Entry,
        ticket: u64,
        fit: FitOutcome,
        out: &mut Bytes,
    ) -> Result<bool, NoMemory> {
        match take(&mut self.leases, ticket) {
            Some(lease) => self.give_back(asked, lease, fit, out),
            None => Ok(false),
        }
    }

    fn returned(&mut self, asked: &Entry, ticket: u64, out: &mut Bytes) -> Result<bool, NoMemory> {
        match outcome_of(asked) {
            Some(fit) => self.return_ticket(asked, ticket, fit, out),
            None => Ok(false),
        }
    }

    /// Does a maintenance if due.
    #[tactic(auto, using(crate::proofs::SiteFacts::adds_same))]
    fn maintain(&mut self, session: u32, at: u64, out: &mut Bytes) -> Result<bool, NoMemory> {
        let done = self
            .over
            .site
            .maintain_if_due(0, session, at, &mut self.over.share);
        tell_maintained(&done, out)
    }

    /// Asks for a choice or a command where no maintenance is due.
    fn call_at_once(&mut self, asked: &Entry, out: &mut Bytes) -> Result<bool, NoMemory>
        requires { At self.old.over.site 0 (λ b. IsNoneDue b asked.now.at) }
    {
        match &asked.call {
            Call::Select(ask) => self.select(asked.session, asked.at, ask, out),
            Call::Admin(command) => self.command(asked.session, asked.at, command, out),
            Call::Return { .. } | Call::Maintain => Ok(false),
        }
    }

    /// A choice or a command: no maintenance may be due before it.
    #[tactic(auto, using(crate::proofs::SiteFacts::adds_same))]
    fn hold_for(&mut self, asked: &Entry, out: &mut Bytes) -> Result<bool, NoMemory> {
        let due = self
            .over
            .site
            .maintain_if_due(0, asked.session, asked.at, &mut self.over.share);
        match due {
            Ok(None) => self.call_at_once(asked, out),
            Ok(Some(_)) => Ok(false),
            Err(error) => {
                tell_refused(&error, out)?;
                Ok(true)
            }
        }
    }

    fn call(&mut self, asked: &Entry, out: &mut Bytes) -> Result<bool, NoMemory> {
        match asked.call {
            Call::Return { ticket, .. } => self.returned(asked, ticket, out),
            Call::Maintain => self.maintain(asked.session, asked.at, out),
            Call::Select(_) | Call::Admin(_) => self.hold_for(asked, out),
        }
    }

    fn call_asked(
        &mut self,
        alloc: Global,
        asked: &str,
        out: &mut Bytes,
    ) -> Result<bool, NoMemory> {
        match asked_call(alloc, asked)? {
            Some(entry) => self.call(&entry, out),
            None => Ok(false),
        }
    }

    /// Cuts the journal and puts the segment on the shelf.
    fn shelve(&mut self) -> Result<(), NoMemory> {
        match self.over.site.cut(0)?.keep_in(&mut self.shelf) {
            Ok(()) => Ok(()),
            Err(_) => Err(NoMemory),
        }
    }

    fn cut(&mut self, out: &mut Bytes) -> Result<bool, NoMemory> {
        self.shelve()?;
        put_last(&self.shelf, out)
    }

    fn show(&self, word: &str, out: &mut Bytes) -> Result<bool, NoMemory> {
        put_view(self.over.site.view(0)?.view(), word, out)
    }
}

impl<L: SiteName> Teller for SiteRow<L> {
    fn tell(&mut self, alloc: Global, asked: &str, out: &mut Bytes) -> Result<bool, NoMemory> {
        if is_opening_line(asked) {
            return say(out, asked);
        }
        match first_word(asked) {
            ("e" | "no", _) => self.call_asked(alloc, asked, out),
            ("cut", _) => self.cut(out),
            ("kept", _) => {
                put_number(out, "", self.over.site.kept(0))?;
                Ok(true)
            }
            (word, _) => self.show(word, out),
        }
    }
}
