//! The tests of a member, on its row.

ghost use Rattle.std.specs.Prelude.{◌≡◌, ◌<◌};
ghost use Rattle.lb_model.specs.Free.{is_in, is_ready, is_error, has_room};
ghost use Rattle.lb_rules.specs.Standings.{counted_row, passes, serves_row};
ghost use Rattle.lb_model.specs.declared.config.TheConstants.{MAX_MEMBERS};

use crate::standing::Standing;
use lb_model::{Activation, Ask, MemberState};

/// Among which members the least one is taken.
#[derive(Clone, Copy, PartialEq, Eq)]
pub enum Among {
    Usable,
    Revivable,
}

// Whether `member` is in a set of members.
pub(crate) fn is_in(set: u64, member: usize) -> bool
    requires { member < MAX_MEMBERS }
    ensures { result ≡ is_in set member }
{
    set >> member & 1 == 1
}

fn is_ready(state: MemberState) -> bool
    ensures { result ≡ is_ready state }
{
    matches!(state, MemberState::Ok | MemberState::Recover)
}

fn is_error(state: MemberState) -> bool
    ensures { result ≡ is_error state }
{
    matches!(state, MemberState::Error { at: _ })
}

// The member's activation, which the ask's mount may lower.
fn counted(row: &Standing, ask: &Ask, member: usize) -> Activation
    requires { member < MAX_MEMBERS }
    ensures { result ≡ counted_row ask.now member row.now }
{
    let disabled = is_in(ask.disabled, member);
    let stopped = is_in(ask.stopped, member);
    match row.activation {
        Activation::Stopped => Activation::Stopped,
        Activation::Disabled if stopped => Activation::Stopped,
        Activation::Disabled => Activation::Disabled,
        Activation::Active if stopped => Activation::Stopped,
        Activation::Active if disabled => Activation::Disabled,
        Activation::Active => Activation::Active,
    }
}

// Not tried before, and a place in its pool is left.
fn has_room(row: &Standing, ask: &Ask, member: usize) -> bool
    requires { member < MAX_MEMBERS }
    ensures { result ≡ has_room (is_in ask.now.tried member) row.now.busy row.now.pool }
{
    !is_in(ask.tried, member) && row.busy < row.pool
}

pub(crate) fn serves(row: &Standing, ask: &Ask, member: usize) -> bool
    requires { member < MAX_MEMBERS }
    ensures { result ≡ serves_row ask.now member row.now }
{
    let activation = counted(row, ask, member);
    (is_ready(row.state) && has_room(row, ask, member)) && activation != Activation::Stopped
}

pub fn passes(among: Among, row: &Standing, ask: &Ask, member: usize) -> bool
    requires { member < MAX_MEMBERS }
    ensures { result ≡ passes among ask.now member row.now }
{
    let right = match among {
        Among::Usable => is_ready(row.state),
        Among::Revivable => is_error(row.state),
    };
    let activation = counted(row, ask, member);
    (right && has_room(row, ask, member)) && activation == Activation::Active
}
