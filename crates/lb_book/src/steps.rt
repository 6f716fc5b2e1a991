//! The step of a member's row at an entry that touches it.

ghost use Rattle.std.specs.Prelude.{◌≡◌, ◌+◌, ◌*◌, ◌<◌, ◌≤◌};
ghost use Rattle.lb_model.specs.Loads.{load_by};
ghost use Rattle.lb_book.specs.Steps.{chosen_row, returned_row, revived_row};
ghost use Rattle.lb_model.specs.declared.journal.TheConstants.{MOST_BYTES};

use lb_model::{Method, Outcome};
use lb_rules::{Standing, Touch, gain_return, gain_select, next_state};

/// Each load is below this, so that with what an entry adds it still fits a u128.
pub(crate) const LOAD_LIMIT: u128 = 1 << 125;

/// The load by the method: what is kept, or by Busyness what runs now.
pub(crate) fn by_method(method: Method, running: u128, kept: u128) -> u128
    ensures { result ≡ load_by method running kept }
{
    match method {
        Method::Busyness => running,
        Method::Request | Method::Session | Method::Traffic => kept,
    }
}

/// The load of a row: the sum of its gains, or by Busyness what runs now.
pub(crate) fn load_by(method: Method, unit: u32, busy: u32, gains: u128) -> u128
    ensures { result ≡ load_by method (busy * unit) gains }
{
    by_method(method, u128::from(busy) * u128::from(unit), gains)
}

/// The row of the member that a Select chose under `ticket`.
pub(crate) fn chosen_row(
    row: &Standing,
    method: Method,
    ticket: u64,
    fresh: bool,
    direct: bool,
) -> Standing
    requires free { row.now.busy < row.now.pool }
    requires light { row.now.load < LOAD_LIMIT }
    ensures { result ≡ chosen_row method ticket fresh row.now }
{
    let busy = row.busy + 1;
    let gains = row.load + gain_select(method, row.unit, fresh);
    Standing {
        state: next_state(row.state, &Touch::Chosen { ticket }, direct),
        load: load_by(method, row.unit, busy, gains),
        busy,
        ..*row
    }
}

/// The row of a member that a Select revived and didn't choose.
pub(crate) fn revived_row(row: &Standing, direct: bool) -> Standing
    ensures { result ≡ revived_row row.now }
{
    Standing {
        state: next_state(row.state, &Touch::Revived, direct),
        ..*row
    }
}

/// The row of a member whose ticket came back.
pub(crate) fn returned_row(
    row: &Standing,
    method: Method,
    ticket: u64,
    outcome: Outcome,
    at: u64,
    direct: bool,
) -> Standing
    requires busy { 0 < row.now.busy }
    requires light { row.now.load < LOAD_LIMIT }
    requires few { outcome.bytes ≤ MOST_BYTES }
    ensures { result ≡ returned_row method direct ticket outcome at row.now }
{
    let touch = Touch::Returned {
        ticket,
        kind: outcome.kind,
        at,
    };
    let busy = row.busy - 1;
    let gains = row.load + gain_return(method, row.unit, outcome.bytes);
    Standing {
        state: next_state(row.state, &touch, direct),
        load: load_by(method, row.unit, busy, gains),
        busy,
        ..*row
    }
}
