//! The test whether a journal may begin with an opening.
ghost use Rattle.std.specs.Prelude.{◌≡◌, ℕ, ◌+◌, ◌*◌, ◌/◌, ◌^◌, ◌≤◌, ◌<◌, ◌==◌, ◌&&◌, ◌↔◌, length, reverse, count_by, IsTrue, Bool};
ghost use Rattle.std.specs.List.{list_any};
ghost use Rattle.lb_model.specs.Limits.{most_numbers};
ghost use Rattle.lb_model.specs.Multiple.{multiple_of};
ghost use Rattle.lb_model.specs.Ranges.{factors_in};
ghost use Rattle.lb_model.specs.Validity.{AreOpeningRows, AreTickets, IsOpeningRow, IsOpeningState, IsRunning, IsWithin, ShowsMember};

use crate::config::common_multiple;
use crate::member::{MemberConfig, Method};
use crate::opening::Opening;
use crate::state::MemberState;
use crate::view::MemberRow;

/// The most numbers of a journal: those of its entries, with one for each ticket that is out.
pub const MOST_NUMBERS: u64 = 1 << 48;

pub(crate) fn has_room(next: u64, out: usize) -> bool
    ensures value { IsTrue result ↔ (next + out ≤ most_numbers) }
{
    next <= MOST_NUMBERS && out as u64 <= MOST_NUMBERS - next
}

pub(crate) fn is_within(members: usize, chosen: Option<u32>) -> bool
    ensures value { IsTrue result ↔ IsWithin members chosen }
{
    match chosen {
        None => true,
        Some(member) => (member as usize) < members,
    }
}

// Each ticket, oldest first, is at least `from`: one more than the ticket before it.
pub(crate) fn are_tickets(members: usize, next: u64, out: &[(u64, u32)]) -> bool
    ensures value { IsTrue result ↔ AreTickets members next (reverse out.now) }
{
    let mut from = 0u64;
    for (ticket, member) in out {
        if *ticket < from || *ticket >= next || *member as usize >= members {
            return false;
        }
        from = *ticket + 1;
    }
    true
}

fn shows_member(member: &MemberConfig, row: &MemberRow) -> bool
    ensures value { IsTrue result ↔ ShowsMember member.now row.now }
{
    let named = row.name.as_slice() == member.name.as_slice();
    let weighs = row.factor == member.factor && row.distance == member.distance;
    named && weighs && row.activation == member.activation && row.redirect == member.redirect
}

fn count_on(out: &[(u64, u32)], member: u32) -> usize
    ensures value { result ≡ count_by (λ x. x.1 == member) out.now }
{
    out.iter().filter(|x| x.1 == member).count()
}

fn is_out_on(out: &[(u64, u32)], ticket: u64, member: u32) -> bool
    ensures value { result ≡ list_any (λ x. (x.0 == ticket) && (x.1 == member)) out.now }
{
    out.iter().any(|x| x.0 == ticket && x.1 == member)
}

fn is_opening_state(opening: &Opening, member: u32, state: MemberState) -> bool
    ensures value { IsTrue result ↔ IsOpeningState opening.now member state }
{
    match state {
        MemberState::Ok => true,
        MemberState::Error { at } => at <= opening.at,
        MemberState::Recover => true,
        MemberState::Probe { ticket } => is_out_on(opening.out.as_slice(), ticket, member),
    }
}

fn is_running(method: Method, running: u64, load: u128) -> bool
    ensures value { IsTrue result ↔ IsRunning method running load }
{
    match method {
        Method::Request | Method::Session | Method::Traffic => true,
        Method::Busyness => load == u128::from(running),
    }
}

fn is_busy(opening: &Opening, index: u32, busy: u32, pool: u32) -> bool
    ensures value { IsTrue result ↔ ((busy ≡ count_by (λ x. x.1 == index) opening.now.out) × (busy ≤ pool)) }
{
    busy as usize == count_on(opening.out.as_slice(), index) && busy <= pool
}

// `running` is the load of the tickets that are out.
fn is_load(opening: &Opening, running: u64, load: u128) -> bool
    requires room { opening.now.next ≤ most_numbers }
    ensures value { IsTrue result ↔ ((load ≤ opening.now.next * 2 ^ 76) × IsRunning opening.now.config.method running load) }
{
    load <= u128::from(opening.next) << 76 && is_running(opening.config.method, running, load)
}

fn is_opening_row(
    opening: &Opening,
    index: u32,
    member: &MemberConfig,
    row: &MemberRow,
    common: u32,
) -> bool
    requires factor { 1 ≤ member.now.factor }
    requires common { common ≡ multiple_of (factors_in opening.now.config.members) }
    requires room { opening.now.next ≤ most_numbers }
    ensures value { IsTrue result ↔ IsOpeningRow opening.now index member.now row.now }
{
    let running = u64::from(row.busy) * u64::from(common / member.factor);
    shows_member(member, row)
        && is_busy(opening, index, row.busy, member.pool)
        && is_opening_state(opening, index, row.state)
        && is_load(opening, running, row.load)
}

pub(crate) fn are_opening_rows(opening: &Opening) -> bool
    requires room { opening.now.next ≤ most_numbers }
    ensures value { IsTrue result ↔ AreOpeningRows opening.now }
{
    let members = opening.config.members.as_slice();
    let rows = opening.rows.as_slice();
    if rows.len() != members.len() {
        return false;
    }
    let common = common_multiple(members).unwrap();
    for (i, row) in rows.iter().enumerate() {
        if !is_opening_row(opening, i as u32, &members[i], row, common) {
            return false;
        }
    }
    true
}
