//! Whether a journal has each request of each thread.
ghost use Rattle.std.specs.Prelude.{◌≡◌, ◌+◌, ◌^◌, ◌<◌, ◌≤◌, ◌++◌, ◌∷◌, [], ◌↔◌, ℕ, List, length, IsTrue, IsFalse, IfSome, IfNone, None, Some};
ghost use Rattle.lb_model.specs.declared.journal.Entry.{Entry};
ghost use Rattle.drill.specs.Drills.{AreAnswered, Chose, GaveBack, IsDrilled, entries_of};
ghost use Rattle.drill.specs.Progress.{IsSoFar};
ghost use Rattle.drill.specs.Requests.{requests_of};

use crate::plan::Plan;
use lb_model::{Answer, Call, Entry, Kind};

/// What a journal has of a thread, as far as it is read: how many requests were answered whole, and the ticket of the one
/// that is under way.
#[derive(Clone, Copy)]
struct Progress {
    whole: u64,
    ticket: Option<u64>,
}

/// The ticket of a Select that chose.
fn ticket_of(entry: Entry) -> Option<u64>
    ensures some { IfSome result (λ ticket. Chose ticket entry) }
    ensures none { IfNone result ((ticket : ℕ) → Chose ticket entry → ⊥) }
{
    match entry.call {
        Call::Select(_) => match entry.answer {
            Answer::Chosen { ticket, .. } => Some(ticket),
            Answer::NoMember | Answer::Forced | Answer::Done => None,
        },
        Call::Return { .. } | Call::Maintain | Call::Admin(_) => None,
    }
}

/// Whether an entry is the Return Done of a ticket.
fn gives_back(entry: Entry, ticket: u64) -> bool
    ensures { IsTrue result ↔ GaveBack ticket entry }
{
    match entry.call {
        Call::Return {
            ticket: returned,
            outcome,
        } => returned == ticket && outcome.kind == Kind::Done,
        Call::Select(_) | Call::Maintain | Call::Admin(_) => false,
    }
}

impl Progress {
    /// The progress after the thread's next entry. None: no request that is answered whole has that entry there.
    fn after(self, entry: Entry) -> Option<Progress>
        requires few { self.whole < 2 ^ 63 }
        ensures some { IfSome result (λ p. (xs : List Entry) → IsSoFar xs self.whole self.ticket
            → IsSoFar (xs ++ entry ∷ []) p.whole p.ticket) }
        ensures none { IfNone result ((xs ys : List Entry) (n : ℕ) → IsSoFar xs self.whole self.ticket
            → AreAnswered n (xs ++ entry ∷ ys) → ⊥) }
        ensures count { IfSome result (λ p. p.whole ≤ self.whole + 1) }
    {
        match self.ticket {
            None => self.begun(entry),
            Some(ticket) => self.ended(ticket, entry),
        }
    }

    // As `after`, where no request is under way.
    fn begun(self, entry: Entry) -> Option<Progress>
        ensures some { IfSome result (λ p. (xs : List Entry) → IsSoFar xs self.whole None
            → IsSoFar (xs ++ entry ∷ []) p.whole p.ticket) }
        ensures none { IfNone result ((xs ys : List Entry) (n : ℕ) → IsSoFar xs self.whole None
            → AreAnswered n (xs ++ entry ∷ ys) → ⊥) }
        ensures count { IfSome result (λ p. p.whole ≤ self.whole) }
    {
        match ticket_of(entry) {
            Some(ticket) => Some(Progress {
                whole: self.whole,
                ticket: Some(ticket),
            }),
            None => None,
        }
    }

    // As `after`, where this ticket is out.
    fn ended(self, ticket: u64, entry: Entry) -> Option<Progress>
        requires few { self.whole < 2 ^ 63 }
        ensures some { IfSome result (λ p. (xs : List Entry) → IsSoFar xs self.whole (Some ticket)
            → IsSoFar (xs ++ entry ∷ []) p.whole p.ticket) }
        ensures none { IfNone result ((xs ys : List Entry) (n : ℕ) → IsSoFar xs self.whole (Some ticket)
            → AreAnswered n (xs ++ entry ∷ ys) → ⊥) }
        ensures count { IfSome result (λ p. p.whole ≤ self.whole + 1) }
    {
        if gives_back(entry, ticket) {
            Some(Progress {
                whole: self.whole + 1,
                ticket: None,
            })
        } else {
            None
        }
    }

    /// The progress after the next entry of a journal, in which other threads have entries too.
    fn seen(self, thread: u32, entry: Entry) -> Option<Progress>
        requires few { self.whole < 2 ^ 63 }
        ensures some { IfSome result (λ p. (xs : List Entry) → IsSoFar (entries_of thread xs) self.whole self.ticket
            → IsSoFar (entries_of thread (xs ++ entry ∷ [])) p.whole p.ticket) }
        ensures none { IfNone result ((xs ys : List Entry) (n : ℕ) → IsSoFar (entries_of thread xs) self.whole self.ticket
            → AreAnswered n (entries_of thread (xs ++ entry ∷ ys)) → ⊥) }
        ensures count { IfSome result (λ p. p.whole ≤ self.whole + 1) }
    {
        if entry.session == thread {
            self.after(entry)
        } else {
            Some(self)
        }
    }

    /// Whether exactly `requests` requests were answered whole, and none is under way.
    fn is_done(self, requests: u32) -> bool
        ensures yes { IsTrue result → (xs : List Entry) → IsSoFar xs self.whole self.ticket → AreAnswered requests xs }
        ensures no { IsFalse result → (xs : List Entry) → IsSoFar xs self.whole self.ticket → AreAnswered requests xs → ⊥ }
    {
        match self.ticket {
            Some(_) => false,
            None => self.whole == u64::from(requests),
        }
    }
}

/// Whether the entries of a thread are those of `requests` requests, each answered whole.
fn is_answered(entries: &[Entry], thread: u32, requests: u32) -> bool
    ensures { IsTrue result ↔ AreAnswered requests (entries_of thread entries.now) }
{
    let mut progress = Progress {
        whole: 0,
        ticket: None,
    };
    for entry in entries {
        let Some(next) = progress.seen(thread, *entry) else {
            return false;
        };
        progress = next;
    }
    progress.is_done(requests)
}

/// How many requests a thread makes.
fn share_of(plan: Plan, thread: u32) -> u32
    requires within { thread < plan.threads }
    ensures { result ≡ length (requests_of plan.threads plan.requests thread) }
{
    let each = plan.requests / plan.threads;
    if thread < plan.requests % plan.threads {
        each + 1
    } else {
        each
    }
}

/// Whether the entries of each thread are, in order, those of its requests, each answered whole.
pub(crate) fn are_answered(plan: Plan, entries: &[Entry]) -> bool
    ensures { IsTrue result ↔ IsDrilled plan.threads plan.requests entries.now }
{
    for thread in 0..plan.threads {
        if !is_answered(entries, thread, share_of(plan, thread)) {
            return false;
        }
    }
    true
}
