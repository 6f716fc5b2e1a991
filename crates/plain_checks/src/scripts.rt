//! Lines of a script, by the calls below `play`.
use crate::row_text::RowText;
use jk_io::{Bytes, NoMemory};
use lb_model::{Activation, LbConfig, MemberConfig, MemberRow, MemberState};
use play_script::{BegunScript, NameList, Parts, Step, begin, put_rows, step_of};
use std::alloc::Global;

fn names_of(alloc: Global) -> Result<NameList, NoMemory> {
    let mut names = NameList::new(alloc);
    names.push(Bytes::from_slice(alloc, b"a")?)?;
    names.push(Bytes::from_slice(alloc, b"b")?)?;
    Ok(names)
}

fn put_step(alloc: Global, out: &mut RowText, step: Option<Step>) -> Result<(), NoMemory> {
    let text = format!(in alloc; "{step:?}")?;
    out.put(text.as_bytes());
    Ok(())
}

/// What a line says where the members are a and b.
pub fn tell_step(alloc: Global, line: &[u8], out: &mut RowText) -> Result<(), NoMemory> {
    let step = step_of(&names_of(alloc)?, line);
    put_step(alloc, out, step)
}

fn put_truth(out: &mut RowText, name: &[u8], truth: bool) {
    out.number(name, if truth { 1 } else { 0 });
}

fn letter_of(activation: Activation) -> &'static [u8] {
    match activation {
        Activation::Active => b"A",
        Activation::Disabled => b"D",
        Activation::Stopped => b"S",
    }
}

fn put_redirect(out: &mut RowText, redirect: Option<u32>) {
    match redirect {
        None => out.put(b" redirect -"),
        Some(member) => out.number(b" redirect ", u64::from(member)),
    }
}

fn put_member(out: &mut RowText, member: &MemberConfig) {
    out.put(b"member ");
    out.put(member.name.as_slice());
    out.put(b" route ");
    out.put(member.route.as_slice());
    out.number(b" factor ", u64::from(member.factor));
    out.number(b" distance ", u64::from(member.distance));
    out.put(b" activation ");
    out.put(letter_of(member.activation));
    put_redirect(out, member.redirect);
    out.number(b" pool ", u64::from(member.pool));
    out.put(b"\n");
}

fn put_method(alloc: Global, out: &mut RowText, config: &LbConfig) -> Result<(), NoMemory> {
    let method = config.method;
    let text = format!(in alloc; "{method:?}")?;
    out.put(text.as_bytes());
    Ok(())
}

fn put_config(alloc: Global, out: &mut RowText, config: &LbConfig) -> Result<(), NoMemory> {
    put_method(alloc, out, config)?;
    put_truth(out, b" sticky ", config.sticky);
    put_truth(out, b" force ", config.force);
    put_truth(out, b" direct ", config.direct);
    out.number(b" maintain ", config.maintain);
    out.number(b" recover ", config.recover);
    out.put(b"\n");
    for member in config.members.as_slice() {
        put_member(out, member);
    }
    Ok(())
}

fn put_draft(alloc: Global, out: &mut RowText, begun: &BegunScript<'_>) -> Result<(), NoMemory> {
    match begun.draft.config() {
        Ok(config) => put_config(alloc, out, &config)?,
        Err(_) => out.put(b"no balancer\n"),
    }
    Ok(())
}

fn put_begun(alloc: Global, out: &mut RowText, begun: &BegunScript<'_>) -> Result<(), NoMemory> {
    out.number(b"at ", begun.at);
    out.number(b" line ", begun.number);
    out.put(b" ");
    out.put(begun.line.unwrap_or(b"-"));
    out.put(b"\n");
    put_draft(alloc, out, begun)
}

/// The balancer that a script begins with, the line at which it starts, and the next one.
pub fn tell_begun(alloc: Global, script: &[u8], out: &mut RowText) -> Result<(), NoMemory> {
    if script.len() > 1_000_000 {
        out.put(b"too long");
        return Ok(());
    }
    let mut lines = Parts::of(b'\n', script);
    put_begun(alloc, out, &begin(alloc, &mut lines)?)?;
    out.put(lines.next().unwrap_or(b"-"));
    Ok(())
}

fn row_of(alloc: Global, load: u128) -> Result<MemberRow, NoMemory> {
    Ok(MemberRow {
        name: Bytes::from_slice(alloc, b"a")?,
        state: MemberState::Error { at: 3 },
        load,
        busy: 6,
        activation: Activation::Active,
        factor: 1,
        distance: 0,
        redirect: None,
    })
}

/// How a member in error with this load is shown.
pub fn tell_load(alloc: Global, digits: &[u8], out: &mut RowText) -> Result<(), NoMemory> {
    match str::from_utf8(digits).unwrap_or("").parse::<u128>() {
        Ok(load) => put_rows(&mut out.text, &[row_of(alloc, load)?])?,
        Err(_) => out.put(b"no load"),
    }
    Ok(())
}
