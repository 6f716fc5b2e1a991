//! A maintenance: loads are halved, and errors that are over end.

ghost use Rattle.std.specs.Prelude.{◌≡◌, ℕ, ◌+◌, ◌-◌, ◌/◌, ◌<◌, ◌≤◌, ◌↔◌, IsTrue, length, slice_index_or};
ghost use Rattle.lb_model.specs.Loads.{halved};
ghost use Rattle.lb_model.specs.StateRows.{is_over};
ghost use Rattle.lb_book.specs.Maintained.{AreMaintained, greatest_halved, maintained_load, maintained_row};
ghost use Rattle.lb_book.specs.Stepped.{AreStepped};
ghost use Rattle.lb_rules.specs.declared.standing.Standing.{Standing};

use crate::present::Present;
use crate::steps::by_method;
use lb_model::{LbConfig, MemberState, Method, halve};
use lb_rules::{Standing, Touch, halvings, next_state};

// Whether a maintenance at this moment ends the error.
fn is_over(state: MemberState, at: u64, recover: u64) -> bool
    ensures { result ≡ is_over at recover state }
{
    match state {
        MemberState::Error { at: since } => since <= at && recover <= at - since,
        MemberState::Ok | MemberState::Recover | MemberState::Probe { ticket: _ } => false,
    }
}

// The greatest of the loads after `times` halvings.
fn greatest_halved(rows: &[Standing], times: u64) -> u128
    ensures { (d : Standing) → result ≡ greatest_halved rows.now d times }
{
    let mut most = 0u128;
    for i in 0..rows.len() {
        most = most.max(halve(rows[i].load, times));
    }
    most
}

/// A maintenance at a moment, which halves `times` times; `most` is the greatest halved load.
#[derive(Clone, Copy)]
pub(crate) struct Maintenance {
    pub(crate) at: u64,
    pub(crate) recover: u64,
    pub(crate) most: u128,
    pub(crate) times: u64,
}

fn maintained_load(row: &Standing, method: Method, by: &Maintenance) -> u128
    ensures { result ≡ maintained_load method by.now.at by.now.recover by.now.most by.now.times row.now }
{
    let kept = if is_over(row.state, by.at, by.recover) {
        by.most
    } else {
        halve(row.load, by.times)
    };
    by_method(method, row.load, kept)
}

fn maintained_row(row: &Standing, method: Method, by: &Maintenance, direct: bool) -> Standing
    ensures { result ≡ maintained_row method by.now.at by.now.recover by.now.most by.now.times row.now }
{
    let touch = Touch::Maintained {
        at: by.at,
        recover: by.recover,
    };
    Standing {
        state: next_state(row.state, &touch, direct),
        load: maintained_load(row, method, by),
        ..*row
    }
}

fn maintain_rows(rows: &mut Vec<Standing>, method: Method, by: &Maintenance, direct: bool)
    ensures { AreStepped (λ _ row. maintained_row method by.now.at by.now.recover by.now.most by.now.times row)
        (length rows.old.items) rows.old.items rows.new.items }
{
    for i in 0..rows.len() {
        rows[i] = maintained_row(&rows[i], method, by, direct);
    }
}

impl Present {
    /// Whether a maintenance at this moment comes late enough after the last one.
    pub(crate) fn is_due(&self, config: &LbConfig, at: u64) -> bool
        ensures { IsTrue result ↔ (self.now.maintained + config.now.maintain ≤ at) }
    {
        self.maintained <= at && config.maintain <= at - self.maintained
    }

    /// After a maintenance at this moment, which is due.
    pub(crate) fn maintain(&mut self, config: &LbConfig, at: u64)
        requires { self.old.maintained + config.now.maintain ≤ at }
        ensures rows { AreMaintained config.now self.old.maintained at self.old.rows.items self.new.rows.items }
        ensures tickets { self.new.out ≡ self.old.out }
        ensures moment { self.new.at ≡ at }
        ensures maintained { self.new.maintained ≡ at }
        ensures chosen { self.new.chosen ≡ self.old.chosen }
    {
        let times = halvings(self.maintained, at, config.maintain);
        let by = Maintenance {
            at,
            recover: config.recover,
            most: greatest_halved(self.rows.as_slice(), times),
            times,
        };
        maintain_rows(&mut self.rows, config.method, &by, config.direct);
        self.maintained = at;
        self.at = at;
    }
}
