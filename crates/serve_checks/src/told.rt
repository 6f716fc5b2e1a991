//! The outcome of a world after a command, as words.
use gear_worlds::{MemGear, MemWorld};
use jk_io::{Bytes, MemLink, NoMemory, Talk, put_decimal};
use journal_text::write_segment;
use lb_model::Segment;

fn put_number(out: &mut Bytes, word: &[u8], number: u64) -> Result<(), NoMemory> {
    out.extend(word)?;
    put_decimal(out, u128::from(number))
}

/// Adds what was sent on a link that was left.
fn put_left(link: &MemLink, out: &mut Bytes) -> Result<(), NoMemory> {
    out.extend(b"left\n")?;
    out.extend(link.sent())?;
    out.extend(b"\n")
}

/// Adds a talk: with which member, whether its link was kept, and what was sent.
fn put_talk(talk: &Talk, out: &mut Bytes) -> Result<(), NoMemory> {
    put_number(out, b"to ", u64::from(talk.lb))?;
    put_number(out, b".", u64::from(talk.member))?;
    if talk.keep {
        out.extend(b" kept")?;
    }
    out.extend(b"\n")?;
    out.extend(talk.sent.as_slice())?;
    out.extend(b"\n")
}

fn put_segment(lb: u32, segment: &Segment, out: &mut Bytes) -> Result<(), NoMemory> {
    put_number(out, b"segment of ", u64::from(lb))?;
    out.extend(b"\n")?;
    let text = write_segment(b"lb", segment)?;
    out.extend(text.as_slice())
}

/// Adds what was written of a log.
fn put_log(log: &MemLink, out: &mut Bytes) -> Result<(), NoMemory> {
    out.extend(b"log\n")?;
    out.extend(log.sent())?;
    out.extend(b"\n")
}

fn put_gear(gear: &MemGear<MemLink>, out: &mut Bytes) -> Result<(), NoMemory> {
    out.extend(b"back\n")?;
    for link in gear.door.left() {
        put_left(link, out)?;
    }
    for talk in gear.tape.talks() {
        put_talk(talk, out)?;
    }
    for (lb, segment) in gear.shelf.kept() {
        put_segment(*lb, segment, out)?;
    }
    if let Some(log) = &gear.log {
        put_log(log, out)?;
    }
    Ok(())
}

/// Adds how often the world failed, and each gear that came back.
pub fn put_world(world: &MemWorld<MemLink>, out: &mut Bytes) -> Result<(), NoMemory> {
    put_number(out, b"faults ", world.faults())?;
    out.extend(b"\n")?;
    for gear in world.back() {
        put_gear(gear, out)?;
    }
    Ok(())
}
