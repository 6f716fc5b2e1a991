//! A command of the status worker: whether it may be done, and what it makes of the rows.

ghost use Rattle.std.specs.Prelude.{◌≡◌, ℕ, ◌+◌, ◌*◌, ◌/◌, ◌%◌, ◌^◌, ◌<◌, ◌≤◌, ◌↔◌, IsTrue, length, take, slice_index_or};
ghost use Rattle.std.specs.Option.{SomeIff};
ghost use Rattle.lb_model.specs.Journal.{each};
ghost use Rattle.lb_model.specs.Legal.{HasValues, IsDistance, IsFactor, LeadsElsewhere, RedirectExists};
ghost use Rattle.lb_model.specs.Settings.{redirect_after, setting_after};
ghost use Rattle.lb_book.specs.Commanded.{
  IsJudgedCommand,
  IsKnown,
  common_commanded,
  commanded_row,
  recovered_row,
  reset_row,
  resettled_row,
  row_setting,
  setting_commanded,
  settled_row,
};
ghost use Rattle.lb_book.specs.Stepped.{AreStepped};
ghost use Rattle.lb_rules.specs.declared.standing.Standing.{Standing};
ghost use Rattle.lb_model.specs.declared.config.TheConstants.{MAX_MEMBERS};

use crate::present::Present;
use crate::steps::{by_method, load_by};
use lb_model::{AdminError, Change, Command, FullMark, LbConfig, Method, Redirect, lcm_of};
use lb_rules::{Standing, Touch, next_state, unit_of};

fn redirect_exists(members: usize, redirect: Redirect) -> bool
    ensures { IsTrue result ↔ RedirectExists members redirect }
{
    match redirect {
        Redirect::Keep | Redirect::None => true,
        Redirect::To(target) => (target as usize) < members,
    }
}

// The members that the command names exist.
fn is_known(members: usize, command: &Command) -> bool
    ensures { IsTrue result ↔ IsKnown members command.now }
{
    match *command {
        Command::Update { member, change } => {
            (member as usize) < members && redirect_exists(members, change.redirect)
        }
        Command::Reset { member } | Command::Recover { member } => (member as usize) < members,
    }
}

fn is_factor(factor: Option<u32>) -> bool
    ensures { IsTrue result ↔ IsFactor factor }
{
    match factor {
        None => true,
        Some(factor) => factor >= 1 && factor <= 65535,
    }
}

fn is_distance(distance: Option<u32>) -> bool
    ensures { IsTrue result ↔ IsDistance distance }
{
    match distance {
        None => true,
        Some(distance) => distance <= 65535,
    }
}

fn leads_elsewhere(member: u32, redirect: Redirect) -> bool
    ensures { IsTrue result ↔ LeadsElsewhere member redirect }
{
    match redirect {
        Redirect::Keep | Redirect::None => true,
        Redirect::To(target) => target != member,
    }
}

// Its values are in their ranges, and a redirect leads to another member.
fn has_values(command: &Command) -> bool
    ensures { IsTrue result ↔ HasValues command.now }
{
    match *command {
        Command::Update { member, change } => {
            is_factor(change.factor)
                && is_distance(change.distance)
                && leads_elsewhere(member, change.redirect)
        }
        Command::Reset { member: _ } | Command::Recover { member: _ } => true,
    }
}

// The factor of row `i` after the command.
fn factor_commanded(row: &Standing, i: usize, command: &Command) -> u32
    ensures { result ≡ (setting_commanded command.now i row.now).factor }
{
    match *command {
        Command::Update { member, change } if member as usize == i => {
            change.factor.unwrap_or(row.factor)
        }
        _ => row.factor,
    }
}

// The rows' factors after the command go to the front of the table.
fn put_factors(rows: &[Standing], command: &Command, table: &mut [u32])
    requires { length rows.now ≤ length table.old }
    ensures front { (d : Standing) → take (length rows.now) table.new
        ≡ each (length rows.now) (λ m. (setting_commanded command.now m (slice_index_or rows.now m d)).factor) }
{
    for i in 0..rows.len() {
        table[i] = factor_commanded(&rows[i], i, command);
    }
}

// The least common multiple of the factors after the command, where it isn't above 4,294,967,295.
fn common_commanded(rows: &[Standing], command: &Command) -> Option<u32>
    requires few { length rows.now ≤ MAX_MEMBERS }
    requires some { (m : ℕ) (d : Standing) → m < length rows.now → 0 < (setting_commanded command.now m (slice_index_or rows.now m d)).factor }
    ensures { (d : Standing) → SomeIff result (common_commanded command.now rows.now d < 2 ^ 32) (common_commanded command.now rows.now d) }
{
    let mut table = [0u32; 64];
    put_factors(rows, command, &mut table);
    lcm_of(&table[..rows.len()])
}

/// Whether a command may be done, by the rows; the least common multiple of the factors that it leaves.
pub(crate) fn judge(
    rows: &[Standing],
    command: &Command,
    mark: FullMark,
) -> Result<u32, AdminError<FullMark>>
    requires few { length rows.now ≤ MAX_MEMBERS }
    requires some { (m : ℕ) (d : Standing) → m < length rows.now → 0 < (slice_index_or rows.now m d).factor }
    ensures { (d : Standing) → IsJudgedCommand (length rows.now) rows.now d command.now mark result }
{
    if !is_known(rows.len(), command) {
        return Err(AdminError::UnknownMember);
    }
    if !has_values(command) {
        return Err(AdminError::BadValue);
    }
    match common_commanded(rows, command) {
        Some(common) => Ok(common),
        None => Err(AdminError::TooWide(mark)),
    }
}

fn redirect_after(redirect: Redirect, former: Option<u32>) -> Option<u32>
    ensures { result ≡ redirect_after redirect former }
{
    match redirect {
        Redirect::Keep => former,
        Redirect::None => None,
        Redirect::To(target) => Some(target),
    }
}

// The row with its new setting, but its former unit and load.
fn changed_row(row: &Standing, change: &Change) -> Standing
    ensures { result ≡ settled_row (setting_after change.now (row_setting row.now)) row.now }
{
    Standing {
        activation: change.activation.unwrap_or(row.activation),
        factor: change.factor.unwrap_or(row.factor),
        distance: change.distance.unwrap_or(row.distance),
        redirect: redirect_after(change.redirect, row.redirect),
        ..*row
    }
}

// The row with its unit under this common multiple of the factors.
fn weighed_row(row: &Standing, method: Method, common: u32) -> Standing
    requires some { 0 < row.now.factor }
    requires divides { common % row.now.factor ≡ 0 }
    ensures { result ≡ resettled_row method common (row_setting row.now) row.now }
{
    let unit = unit_of(row.factor, common);
    Standing {
        unit,
        load: load_by(method, unit, row.busy, row.load),
        ..*row
    }
}

// Row `i` after an update of the row of `member`.
fn updated_row(
    row: &Standing,
    i: usize,
    member: u32,
    change: &Change,
    method: Method,
    common: u32,
) -> Standing
    requires some { 0 < (setting_commanded (Command.Update member change.now) i row.now).factor }
    requires divides { common % (setting_commanded (Command.Update member change.now) i row.now).factor ≡ 0 }
    ensures { result ≡ commanded_row method common (Command.Update member change.now) i row.now }
{
    if member as usize == i {
        weighed_row(&changed_row(row, change), method, common)
    } else {
        weighed_row(row, method, common)
    }
}

fn reset_row(row: &Standing, method: Method, direct: bool) -> Standing
    ensures { result ≡ reset_row method row.now }
{
    Standing {
        state: next_state(row.state, &Touch::Reset, direct),
        load: by_method(method, row.load, 0),
        ..*row
    }
}

fn recovered_row(row: &Standing, direct: bool) -> Standing
    ensures { result ≡ recovered_row row.now }
{
    Standing {
        state: next_state(row.state, &Touch::Recover, direct),
        ..*row
    }
}

// Row `i` after a command that leaves this common multiple of the factors.
fn commanded_row(
    row: &Standing,
    i: usize,
    command: &Command,
    config: &LbConfig,
    common: u32,
) -> Standing
    requires some { 0 < (setting_commanded command.now i row.now).factor }
    requires divides { common % (setting_commanded command.now i row.now).factor ≡ 0 }
    ensures { result ≡ commanded_row config.now.method common command.now i row.now }
{
    match *command {
        Command::Update { member, change } => {
            updated_row(row, i, member, &change, config.method, common)
        }
        Command::Reset { member } if member as usize == i => {
            reset_row(row, config.method, config.direct)
        }
        Command::Recover { member } if member as usize == i => recovered_row(row, config.direct),
        Command::Reset { member: _ } | Command::Recover { member: _ } => *row,
    }
}

fn command_rows(rows: &mut Vec<Standing>, command: &Command, config: &LbConfig, common: u32)
    requires some { (m : ℕ) (d : Standing) → m < length rows.old.items
        → 0 < (setting_commanded command.now m (slice_index_or rows.old.items m d)).factor }
    requires divides { (m : ℕ) (d : Standing) → m < length rows.old.items
        → common % (setting_commanded command.now m (slice_index_or rows.old.items m d)).factor ≡ 0 }
    ensures { AreStepped (λ m row. commanded_row config.now.method common command.now m row)
        (length rows.old.items) rows.old.items rows.new.items }
{
    for i in 0..rows.len() {
        rows[i] = commanded_row(&rows[i], i, command, config, common);
    }
}

impl Present {
    /// After a command at this moment, which leaves this common multiple of the factors.
    pub(crate) fn command(&mut self, config: &LbConfig, command: &Command, common: u32, at: u64)
        requires some { (m : ℕ) (d : Standing) → m < length self.old.rows.items
            → 0 < (setting_commanded command.now m (slice_index_or self.old.rows.items m d)).factor }
        requires divides { (m : ℕ) (d : Standing) → m < length self.old.rows.items
            → common % (setting_commanded command.now m (slice_index_or self.old.rows.items m d)).factor ≡ 0 }
        ensures rows { AreStepped (λ m row. commanded_row config.now.method common command.now m row)
            (length self.old.rows.items) self.old.rows.items self.new.rows.items }
        ensures tickets { self.new.out ≡ self.old.out }
        ensures moment { self.new.at ≡ at }
        ensures maintained { self.new.maintained ≡ self.old.maintained }
        ensures chosen { self.new.chosen ≡ self.old.chosen }
    {
        command_rows(&mut self.rows, command, config, common);
        self.at = at;
    }
}
