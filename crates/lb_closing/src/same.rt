//! Whether two entries are the same in each part.
ghost use Rattle.std.specs.Prelude.{◌≡◌, ◌↔◌, true};

use crate::compare::Noted;
use lb_model::{Activation, Answer, Ask, Call, Change, Command, Entry, Outcome, Redirect};

/// A value of a journal that is compared in each of its parts.
pub(crate) trait Same: Copy {
    ghost use Rattle.std.specs.Prelude.{◌≡◌, ◌↔◌, true};

    /// Whether two values are the same.
    fn is_same(self, other: Self) -> bool
        ensures { (result ≡ true) ↔ (self ≡ other) };
}

impl Same for Noted {
    fn is_same(self, other: Noted) -> bool {
        self.0 == other.0 && self.1.is_same(other.1)
    }
}

impl Same for Entry {
    fn is_same(self, other: Entry) -> bool {
        same_numbers(self, other)
            && self.call.is_same(other.call)
            && self.answer.is_same(other.answer)
    }
}

impl Same for Call {
    fn is_same(self, other: Call) -> bool {
        match (self, other) {
            (Call::Select(a), Call::Select(b)) => a.is_same(b),
            (
                Call::Return { ticket, outcome },
                Call::Return {
                    ticket: other,
                    outcome: end,
                },
            ) => ticket == other && outcome.is_same(end),
            (Call::Maintain, Call::Maintain) => true,
            (Call::Admin(a), Call::Admin(b)) => a.is_same(b),
            _ => false,
        }
    }
}

impl Same for Command {
    fn is_same(self, other: Command) -> bool {
        match (self, other) {
            (
                Command::Update { member, change },
                Command::Update {
                    member: other,
                    change: next,
                },
            ) => member == other && change.is_same(next),
            (Command::Reset { member }, Command::Reset { member: other }) => member == other,
            (Command::Recover { member }, Command::Recover { member: other }) => member == other,
            _ => false,
        }
    }
}

impl Same for Change {
    fn is_same(self, other: Change) -> bool {
        self.activation.is_same(other.activation)
            && self.factor.is_same(other.factor)
            && self.distance.is_same(other.distance)
            && self.redirect.is_same(other.redirect)
    }
}

impl Same for Ask {
    fn is_same(self, other: Ask) -> bool {
        self == other
    }
}

impl Same for Outcome {
    fn is_same(self, other: Outcome) -> bool {
        self == other
    }
}

impl Same for Option<Activation> {
    fn is_same(self, other: Option<Activation>) -> bool {
        self == other
    }
}

impl Same for Option<u32> {
    fn is_same(self, other: Option<u32>) -> bool {
        self == other
    }
}

impl Same for Redirect {
    fn is_same(self, other: Redirect) -> bool {
        self == other
    }
}

impl Same for Answer {
    fn is_same(self, other: Answer) -> bool {
        self == other
    }
}

// Whether two entries have the same numbers.
fn same_numbers(x: Entry, y: Entry) -> bool
    ensures { (result ≡ true) ↔ ((x.seq ≡ y.seq) × (x.session ≡ y.session) × (x.at ≡ y.at)) }
{
    x.seq == y.seq && x.session == y.session && x.at == y.at
}
