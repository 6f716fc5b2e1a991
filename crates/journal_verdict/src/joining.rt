//! Openings, line by line: whether a later one is where the former segment ended.
ghost use Rattle.std.specs.Prelude.{◌≡◌, ℕ, ◌+◌, ◌<◌, ◌++◌, [], Some, length, slice_get, IfOk, IfSome, IfNone, OnOk, IsTrue, ◌↔◌};
ghost use Rattle.lb_model.specs.Validity.{IsOpening};
ghost use Rattle.journal_text.specs.Lines.{line_text};
ghost use Rattle.journal_text.specs.SegmentText.{member_line};
ghost use Rattle.journal_verdict.specs.Verdicts.{IsDifference, opening_texts};

use crate::ruling::{Ruling, Wrong};
use jk_io::{Bytes, NoMemory};
use journal_text::{
    balancer_values, beginning, member_values, put_balancer, put_beginning, put_lease, put_member,
};
use lb_model::{MemberConfig, MemberRow, Opening};
use std::alloc::Global;

/// How many lines an opening has: one for the balancer, for each member, for each ticket that is out, and the last.
pub fn count_lines(opening: &Opening) -> usize
    requires { IsOpening opening.now }
    ensures { result ≡ length opening.now.config.members + length opening.now.out + 2 }
{
    opening.config.members.len() + opening.out.len() + 2
}

fn put_member_line(out: &mut Bytes, member: &MemberConfig, row: &MemberRow) -> Result<(), NoMemory>
    ensures { (v : ℕ) → OnOk result (out.new ≡ out.old ++ line_text v (member_line member.now row.now)) }
{
    let values = member_values(member, row);
    put_member(
        out,
        member.name.as_slice(),
        member.route.as_slice(),
        &values,
    )
}

// Adds a line of an opening under a name: the one at this place, from 0, and the last one past all others.
fn put_line_at(
    out: &mut Bytes,
    name: &[u8],
    opening: &Opening,
    place: usize,
) -> Result<(), NoMemory>
    requires empty { out.old ≡ [] }
    requires valid { IsOpening opening.now }
    requires within { place < length opening.now.config.members + length opening.now.out + 2 }
    ensures { (v : ℕ) → OnOk result (slice_get (opening_texts v name.now opening.now) place ≡ Some out.new) }
{
    if place == 0 {
        return put_balancer(out, name, &balancer_values(&opening.config));
    }
    let members = opening.config.members.as_slice();
    if place <= members.len() {
        let at = place - 1;
        return put_member_line(out, &members[at], &opening.rows.as_slice()[at]);
    }
    let tickets = opening.out.as_slice();
    let at = place - 1 - members.len();
    if at < tickets.len() {
        return put_lease(out, tickets[at].0, tickets[at].1);
    }
    put_beginning(out, &beginning(opening))
}

/// A line of an opening under its balancer's name, the one at this place, from 0.
pub fn line_at(
    alloc: Global,
    name: &[u8],
    opening: &Opening,
    place: usize,
) -> Result<Bytes, NoMemory>
    requires valid { IsOpening opening.now }
    requires within { place < length opening.now.config.members + length opening.now.out + 2 }
    ensures { (v : ℕ) → IfOk result (λ line. slice_get (opening_texts v name.now opening.now) place ≡ Some line) }
{
    let mut line = Bytes::new(alloc);
    put_line_at(&mut line, name, opening, place)?;
    Ok(line)
}

fn are_same(kept: &[u8], ruled: &[u8]) -> bool
    ensures { IsTrue result ↔ (kept.now ≡ ruled.now) }
{
    kept == ruled
}

/// The first line of an opening that differs from the lines of another one, each under its balancer's name.
pub(crate) fn first_difference(
    alloc: Global,
    name: &[u8],
    opening: &Opening,
    former: &[u8],
    ending: &Opening,
) -> Result<Option<Wrong>, NoMemory>
    requires valid { IsOpening opening.now }
    requires former { IsOpening ending.now }
    ensures same { (v : ℕ) → IfOk result (λ found. IfNone found
        (opening_texts v name.now opening.now ≡ opening_texts v former.now ending.now)) }
    ensures wrong { (v : ℕ) → IfOk result (λ found. IfSome found
        (IsDifference (opening_texts v name.now opening.now) (opening_texts v former.now ending.now))) }
{
    for at in 0..count_lines(opening).min(count_lines(ending)) {
        let kept = line_at(alloc, name, opening, at)?;
        let ruled = line_at(alloc, former, ending, at)?;
        if !are_same(kept.as_slice(), ruled.as_slice()) {
            return Ok(Some(Wrong {
                at,
                kept: Ruling::Line(kept),
                ruled: Ruling::Line(ruled),
            }));
        }
    }
    Ok(None)
}
