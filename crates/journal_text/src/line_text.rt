//! A line of a journal's text, read.
ghost use Rattle.std.specs.Prelude.{◌≡◌, IfOk, IfSome};
ghost use Rattle.journal_text.specs.Lines.{line_text};
ghost use Rattle.journal_text.specs.Readings.{balancer_line, line_by, line_of, member_line, said};
ghost use Rattle.journal_text.specs.Ranges.{IsKeptLine};

use crate::line::Line;
use crate::line_reading::is;
use crate::line_writing::put_line;
use crate::names::name_of;
use crate::parsing::{balancer_of, member_of, plain_line};
use jk_io::{Bytes, NoMemory};
use play_script::Parts;
use std::alloc::Global;

fn balancer_line(alloc: Global, words: &mut Parts) -> Result<Option<Line>, NoMemory>
    ensures value { IfOk result (λ found. found ≡ balancer_line words.old) }
{
    let Some(name) = words.next() else {
        return Ok(None);
    };
    let Some(values) = balancer_of(words) else {
        return Ok(None);
    };
    let name = name_of(alloc, name)?;
    Ok(Some(Line::Balancer { name, values }))
}

fn member_line(alloc: Global, words: &mut Parts) -> Result<Option<Line>, NoMemory>
    ensures value { IfOk result (λ found. found ≡ member_line words.old) }
{
    let Some(name) = words.next() else {
        return Ok(None);
    };
    let Some(route) = words.next() else {
        return Ok(None);
    };
    let Some(values) = member_of(words) else {
        return Ok(None);
    };
    let name = name_of(alloc, name)?;
    let route = name_of(alloc, route)?;
    Ok(Some(Line::Member {
        name,
        route,
        values,
    }))
}

fn line_by(
    alloc: Global,
    rules: u8,
    verb: &[u8],
    words: &mut Parts,
) -> Result<Option<Line>, NoMemory>
    ensures value { IfOk result (λ found. found ≡ line_by rules verb.now words.old) }
{
    if is(verb, b"member") {
        member_line(alloc, words)
    } else if is(verb, b"lb") {
        balancer_line(alloc, words)
    } else {
        Ok(plain_line(rules, verb, words))
    }
}

#[tactic(auto, unfolding(crate::specs::Readings::said))]
fn said(alloc: Global, rules: u8, words: &mut Parts) -> Result<Option<Line>, NoMemory>
    ensures value { IfOk result (λ found. found ≡ said rules words.old) }
{
    match words.next() {
        None => Ok(None),
        Some(verb) => line_by(alloc, rules, verb, words),
    }
}

/// What a line says, in a segment of these rules, where it is of the form of one. No LF belongs to it.
#[tactic(auto, unfolding(crate::specs::Readings::line_of))]
pub fn read_line(alloc: Global, rules: u8, text: &[u8]) -> Result<Option<Line>, NoMemory>
    ensures value { IfOk result (λ found. found ≡ line_of rules text.now) }
    ensures spelled { IfOk result (λ found. IfSome found (λ line. text.now ≡ line_text rules line)) }
    ensures kept { IfOk result (λ found. IfSome found (IsKeptLine rules)) }
{
    let mut words = Parts::of(b' ', text);
    let Some(line) = said(alloc, rules, &mut words)? else {
        return Ok(None);
    };
    let mut again = Bytes::new(alloc);
    put_line(&mut again, rules, &line)?;
    if is(again.as_slice(), text) {
        Ok(Some(line))
    } else {
        Ok(None)
    }
}
