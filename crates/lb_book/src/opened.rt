//! The rows of an opening, and the opening of a start.

ghost use Rattle.std.specs.Prelude.{◌≡◌, ℕ, ◌<◌, ◌/◌, ◌%◌, ◌^◌, List, length, map, replicate, All, IfOk, slice_index_or};
ghost use Rattle.lb_model.specs.declared.view.MemberRow.{MemberRow};
ghost use Rattle.lb_model.specs.Multiple.{multiple_of};
ghost use Rattle.lb_model.specs.Ranges.{factors_in};
ghost use Rattle.lb_book.specs.Journal.{start_row};
ghost use Rattle.lb_book.specs.Shown.{AreOpened};
ghost use Rattle.lb_rules.specs.Opened.{opening_row};

use jk_io::NoMemory;
use lb_model::{MemberConfig, MemberRow, MemberState, lcm_of};
use lb_rules::{Standing, opening_row, unit_of};
use std::alloc::Global;

fn start_row(member: &MemberConfig) -> Result<MemberRow, NoMemory>
    ensures { IfOk result (λ row. row ≡ start_row member.now) }
{
    Ok(MemberRow {
        name: member.name.copy()?,
        state: MemberState::Ok,
        load: 0,
        busy: 0,
        activation: member.activation,
        factor: member.factor,
        distance: member.distance,
        redirect: member.redirect,
    })
}

/// The members' rows at a start.
pub(crate) fn start_rows(
    alloc: Global,
    members: &[MemberConfig],
) -> Result<Vec<MemberRow>, NoMemory>
    ensures { IfOk result (λ rows. rows.items ≡ map start_row members.now) }
{
    let mut rows = Vec::with_capacity(alloc, members.len())?;
    for member in members {
        rows.push(start_row(member)?)?;
    }
    Ok(rows)
}

fn factors_in(alloc: Global, members: &[MemberConfig]) -> Result<Vec<u32>, NoMemory>
    ensures { IfOk result (λ factors. factors.items ≡ factors_in members.now) }
{
    Ok(members.iter().map(|member| member.factor).collect(alloc)?)
}

/// The least common multiple of the members' factors.
pub(crate) fn common_of(alloc: Global, members: &[MemberConfig]) -> Result<u32, NoMemory>
    requires some { All (λ f. 0 < f) (factors_in members.now) }
    requires narrow { multiple_of (factors_in members.now) < 2 ^ 32 }
    ensures { IfOk result (λ common. common ≡ multiple_of (factors_in members.now)) }
{
    let factors = factors_in(alloc, members)?;
    Ok(lcm_of(factors.as_slice()).unwrap())
}

fn opened_row(member: &MemberConfig, row: &MemberRow, common: u32) -> Standing
    requires some { 0 < row.now.factor }
    requires divides { common % row.now.factor ≡ 0 }
    ensures { result ≡ opening_row (common / row.now.factor) member.now row.now }
{
    opening_row(member, row, unit_of(row.factor, common))
}

/// The rows that an opening leaves.
pub(crate) fn opening_rows(
    alloc: Global,
    members: &[MemberConfig],
    rows: &[MemberRow],
    common: u32,
) -> Result<Vec<Standing>, NoMemory>
    requires whole { length rows.now ≡ length members.now }
    requires some { (m : ℕ) (d : MemberRow) → m < length rows.now → 0 < (slice_index_or rows.now m d).factor }
    requires divides { (m : ℕ) (d : MemberRow) → m < length rows.now → common % (slice_index_or rows.now m d).factor ≡ 0 }
    ensures { IfOk result (λ opened. AreOpened common members.now rows.now (length members.now) opened.items) }
{
    let mut opened = Vec::with_capacity(alloc, rows.len())?;
    for i in 0..rows.len() {
        opened.push(opened_row(&members[i], &rows[i], common))?;
    }
    Ok(opened)
}

/// For each ticket of an opening: it didn't come back yet.
pub(crate) fn none_returned(alloc: Global, count: usize) -> Result<Vec<Option<u64>>, NoMemory>
    ensures { IfOk result (λ table. table.items ≡ replicate count None) }
{
    let mut table = Vec::with_capacity(alloc, count)?;
    for _ in 0..count {
        table.push(None)?;
    }
    Ok(table)
}
