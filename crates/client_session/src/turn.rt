//! The turn of a session that one request is: how it was answered, and whether a next one follows.
ghost use Rattle.std.specs.Prelude.{◌≡◌, None};
ghost use Rattle.client_session.specs.declared.turn.Answered.TheVariants as answered_is;

use crate::ending::SessionStop;
use lb_model::Served;

/// What the client has of a request's answer.
#[derive(Clone, Copy, PartialEq, Eq)]
pub enum Answered {
    /// A complete reply or page.
    Whole,
    /// Something else, after which the session ends.
    Not(SessionStop),
}

/// How a request was answered, and the row that it adds, if any.
#[derive(Drop)]
pub struct Settled {
    pub answered: Answered,
    pub row: Option<Served>,
}

/// What follows a request.
#[derive(Clone, Copy, PartialEq, Eq)]
pub enum SessionTurn {
    /// The next request is read.
    Next,
    /// The session ends after this request, which had a complete reply or page.
    EndsAfter(SessionStop),
    /// The session ends, and this request had none.
    EndsAt(SessionStop),
}

/// Nothing whole was written, so there is no row.
pub(crate) fn stopped(stop: SessionStop) -> Settled
    ensures { result ≡ record { answered = answered_is.Not stop; row = None } }
{
    Settled {
        answered: Answered::Not(stop),
        row: None,
    }
}
