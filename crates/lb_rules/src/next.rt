//! The next state of a member after it was touched.
ghost use Rattle.std.specs.Prelude.{◌≡◌};
ghost use Rattle.lb_model.specs.StateRows.{left_state, returned_state, maintained_state};
ghost use Rattle.lb_rules.specs.Touched.{touched_state};

use crate::touch::Touch;
use lb_model::{Kind, MemberState};

/// A member's state after `touch`. `direct`: its balancer stands for one worker mounted without one, which is
/// never put into Error.
pub fn next_state(state: MemberState, touch: &Touch, direct: bool) -> MemberState
    ensures value { result ≡ touched_state direct touch.now state }
{
    match *touch {
        Touch::Chosen { ticket } => match state {
            MemberState::Error { at: _ } | MemberState::Recover => MemberState::Probe { ticket },
            other => other,
        },
        Touch::Returned { ticket, kind, at } => after_return(state, ticket, kind, at, direct),
        Touch::Maintained { at, recover } => after_maintain(state, at, recover),
        Touch::Recover | Touch::Revived => match state {
            MemberState::Error { at: _ } => MemberState::Recover,
            other => other,
        },
        Touch::Reset => MemberState::Ok,
    }
}

fn after_return(state: MemberState, ticket: u64, kind: Kind, at: u64, direct: bool) -> MemberState
    ensures { result ≡ returned_state direct ticket kind at state }
{
    match kind {
        Kind::Done => MemberState::Ok,
        Kind::Failed if direct => MemberState::Ok,
        Kind::Failed => MemberState::Error { at },
        Kind::Gone => after_leaving(state, ticket),
    }
}

// After a client left: a trial is undone only if it was this very ticket's.
fn after_leaving(state: MemberState, ticket: u64) -> MemberState
    ensures { result ≡ left_state ticket state }
{
    match state {
        MemberState::Probe { ticket: trial } if trial == ticket => MemberState::Recover,
        other => other,
    }
}

fn after_maintain(state: MemberState, at: u64, recover: u64) -> MemberState
    ensures { result ≡ maintained_state at recover state }
{
    match state {
        MemberState::Error { at: since } if since <= at && recover <= at - since =>
            MemberState::Recover,
        other => other,
    }
}
