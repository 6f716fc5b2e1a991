//! Rows of single calls: common multiples, halvings, units, gains, states and configurations.
ghost use Rattle.std.specs.Prelude.{◌<◌, All, IfOk, IfSome};

use crate::configs::{tell_config, tell_copies};
use crate::states::tell_state;
use check_lines::judging::{Teller, judge_lines};
use check_lines::texts::{long, put_number, short, words_of};
use jk_io::{Bytes, NoMemory, put_decimal};
use lb_model::{Method, halve, lcm_of};
use lb_rules::{gain_return, gain_select, unit_of};
use std::alloc::Global;

fn method_of(word: &str) -> Option<Method> {
    match word {
        "R" => Some(Method::Request),
        "S" => Some(Method::Session),
        "T" => Some(Method::Traffic),
        "B" => Some(Method::Busyness),
        _ => None,
    }
}

fn factors_of(alloc: Global, words: &[&str]) -> Result<Option<Vec<u32>>, NoMemory>
    ensures { IfOk result (λ found. IfSome found (λ factors. All (λ f. 0 < f) factors.items)) }
{
    let mut factors = Vec::new(alloc);
    for word in words {
        match short(word) {
            Some(factor) if factor > 0 => factors.push(factor)?,
            _ => return Ok(None),
        }
    }
    Ok(Some(factors))
}

fn put_lcm(factors: &[u32], out: &mut Bytes) -> Result<bool, NoMemory>
    requires { All (λ f. 0 < f) factors.now }
{
    match lcm_of(factors) {
        Some(common) => put_number(out, "", u64::from(common))?,
        None => out.extend(b"none")?,
    }
    Ok(true)
}

fn tell_lcm(alloc: Global, words: &[&str], out: &mut Bytes) -> Result<bool, NoMemory> {
    match factors_of(alloc, words)? {
        Some(factors) => put_lcm(factors.as_slice(), out),
        None => Ok(false),
    }
}

/// A load, as a number or as `2^N`.
fn load_of(word: &str) -> Option<u128> {
    match word.strip_prefix("2^") {
        Some(power) => 1u128.checked_shl(short(power)?),
        None => Some(u128::from(long(word)?)),
    }
}

fn halved(load: &str, times: &str) -> Option<u128> {
    Some(halve(load_of(load)?, long(times)?))
}

/// The unit of a factor that divides the multiple.
fn unit(factor: u32, lcm: u32) -> Option<u128> {
    if factor == 0 || lcm % factor != 0 {
        return None;
    }
    Some(u128::from(unit_of(factor, lcm)))
}

fn chosen(method: &str, unit: &str, session: &str) -> Option<u128> {
    Some(gain_select(method_of(method)?, short(unit)?, session == "fresh"))
}

fn returned(method: &str, unit: &str, bytes: &str) -> Option<u128> {
    Some(gain_return(method_of(method)?, short(unit)?, long(bytes)?))
}

/// What a call gives; none where the words are no call.
fn value_of(words: &[&str]) -> Option<u128> {
    match words {
        ["halve", load, times] => halved(load, times),
        ["unit", factor, lcm] => unit(short(factor)?, short(lcm)?),
        ["chosen", method, unit, session] => chosen(method, unit, session),
        ["returned", method, unit, bytes] => returned(method, unit, bytes),
        _ => None,
    }
}

fn tell_value(words: &[&str], out: &mut Bytes) -> Result<bool, NoMemory> {
    match value_of(words) {
        Some(value) => {
            put_decimal(out, value)?;
            Ok(true)
        }
        None => Ok(false),
    }
}

fn tell_words(alloc: Global, words: &[&str], out: &mut Bytes) -> Result<bool, NoMemory> {
    match words {
        ["lcm"] => tell_lcm(alloc, &[], out),
        ["lcm", factors @ ..] => tell_lcm(alloc, factors, out),
        ["state", state, touch @ ..] => tell_state(false, state, touch, out),
        ["direct", state, touch @ ..] => tell_state(true, state, touch, out),
        ["config", values @ ..] => tell_config(alloc, values, out),
        _ => tell_value(words, out),
    }
}

/// Rows of values need nothing of the lines before.
#[derive(Drop)]
struct ValueRow;

impl Teller for ValueRow {
    fn tell(&mut self, alloc: Global, asked: &str, out: &mut Bytes) -> Result<bool, NoMemory> {
        if asked == "copies" {
            return tell_copies(alloc, out);
        }
        tell_words(alloc, words_of(alloc, asked)?.as_slice(), out)
    }
}

pub fn judge(alloc: Global, row: &str, shown: &mut String) -> Result<u64, NoMemory> {
    judge_lines(alloc, &mut ValueRow, row, shown)
}
