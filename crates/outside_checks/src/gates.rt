//! Two links that take turns by a gate.

use crate::lists::{length_read, link_of};
use check_rows::row::BlockRow;
use check_rows::telling::put_shown;
use jk_io::{Gate, GateLink, MemLink, NoMemory, Sink, Turn};
use std::alloc::Global;
use std::rt::Clock;
use std::sync::Wait;

/// The place of the gate.
const PLACE: u32 = 3;

/// A link with the bytes of the first field raises a place of a gate, and one with those of the second waits for it.
pub fn tell<R: Wait + Clock>(
    rt: &R,
    alloc: Global,
    row: BlockRow<'_>,
    out: &mut String,
) -> Result<(), NoMemory> {
    let gate = Gate::new(rt);
    tell_raising(&gate, link_of(alloc, row.word("first").as_bytes())?, out)?;
    tell_waiting(&gate, link_of(alloc, row.word("second").as_bytes())?, out)
}

fn tell_raising<R: Wait + Clock>(
    gate: &Gate<'_, R>,
    link: MemLink,
    out: &mut String,
) -> Result<(), NoMemory> {
    tell_turn(
        gate,
        &mut GateLink::new(link, gate, PLACE, Turn::Raises),
        out,
    )
}

/// A read, a write and a read, and whether the place is raised before and after them.
fn tell_turn<R: Wait + Clock>(
    gate: &Gate<'_, R>,
    raising: &mut GateLink<'_, '_, MemLink, R>,
    out: &mut String,
) -> Result<(), NoMemory> {
    put_shown(out, &length_read(raising))?;
    put_shown(out, &gate.is_raised(PLACE))?;
    put_shown(out, &raising.write(b"x"))?;
    put_shown(out, &length_read(raising))?;
    put_shown(out, &gate.is_raised(PLACE))
}

fn tell_waiting<R: Wait + Clock>(
    gate: &Gate<'_, R>,
    link: MemLink,
    out: &mut String,
) -> Result<(), NoMemory> {
    let length = length_read(&mut GateLink::new(link, gate, PLACE, Turn::Waits));
    put_shown(out, &length)
}
