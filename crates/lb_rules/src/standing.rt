//! A member as the journal leaves it.

ghost use Rattle.std.specs.Prelude.{◌≡◌};
ghost use Rattle.lb_rules.specs.Opened.{opening_row};

use lb_model::{Activation, MemberConfig, MemberRow, MemberState};

/// A member as the journal leaves it.
#[derive(Clone, Copy, PartialEq, Eq)]
pub struct Standing {
    pub state: MemberState,
    /// In units of the balancer's method.
    pub load: u128,
    /// How many tickets are out on it.
    pub busy: u32,
    /// How many tickets may be out on it at once.
    pub pool: u32,
    /// What one request weighs on it.
    pub unit: u32,
    pub activation: Activation,
    pub factor: u32,
    pub distance: u32,
    /// The member that takes its sessions where it doesn't serve.
    pub redirect: Option<u32>,
}

/// A member as an opening shows it, on which one request weighs `unit`.
pub fn opening_row(member: &MemberConfig, row: &MemberRow, unit: u32) -> Standing
    ensures { result ≡ opening_row unit member.now row.now }
{
    Standing {
        state: row.state,
        load: row.load,
        busy: row.busy,
        pool: member.pool,
        unit,
        activation: row.activation,
        factor: row.factor,
        distance: row.distance,
        redirect: row.redirect,
    }
}
