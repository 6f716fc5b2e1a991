//! Rows of an index: weights are put and halved, and the least of a set is asked for.

use check_lines::judging::{Teller, judge_lines};
use check_lines::texts::{given, long, put_given, say, short, words_of};
use jk_io::{Bytes, NoMemory};
use lb_rules::Index;
use std::alloc::Global;

/// The most members that an index may have.
const MOST: u32 = 64;

/// A row of an index as far as it is taken.
#[derive(Drop)]
struct IndexRow {
    index: Option<Index>,
}

/// Makes the index. False where there can't be one of so many members.
fn begin(
    alloc: Global,
    index: &mut Option<Index>,
    count: &str,
    out: &mut Bytes,
) -> Result<bool, NoMemory> {
    match short(count) {
        Some(count) if count <= MOST => {
            *index = Some(Index::new(alloc, count)?);
            say(out, "index")
        }
        _ => Ok(false),
    }
}

/// A load: a number, or the power of two with this exponent after `2^`.
fn load_of(word: &str) -> Option<u128> {
    match word.strip_prefix("2^") {
        Some(power) => 1u128.checked_shl(short(power)?),
        None => Some(u128::from(long(word)?)),
    }
}

/// Puts a weight. None where the words name none, or no member.
fn put(index: &mut Index, member: &str, distance: &str, load: &str) -> Option<()> {
    let member = short(member)?;
    if (member as usize) < index.len() {
        index.put(member, short(distance)?, load_of(load)?);
        Some(())
    } else {
        None
    }
}

fn halve_all(index: &mut Index, times: &str) -> Option<()> {
    index.halve_all(long(times)?);
    Some(())
}

/// Changes the index. None where the words say nothing.
fn change(index: &mut Index, words: &[&str]) -> Option<()> {
    match words {
        ["put", member, distance, load] => put(index, member, distance, load),
        ["halve_all", times] => halve_all(index, times),
        _ => None,
    }
}

/// The least of a set after a member; none where the words are no question.
fn least(index: &Index, set: &str, after: &str) -> Option<Option<u32>> {
    Some(index.least(long(set)?, given(after)?))
}

fn tell_least(index: &Index, set: &str, after: &str, out: &mut Bytes) -> Result<bool, NoMemory> {
    match least(index, set, after) {
        Some(found) => {
            put_given(out, "", found.map(|member| u64::from(member)))?;
            Ok(true)
        }
        None => Ok(false),
    }
}

fn tell_of(index: &mut Index, words: &[&str], out: &mut Bytes) -> Result<bool, NoMemory> {
    match words {
        ["least", set, after] => tell_least(index, set, after, out),
        [first, ..] => {
            out.extend(first.as_bytes())?;
            Ok(change(index, words).is_some())
        }
        [] => Ok(false),
    }
}

impl IndexRow {
    fn tell_words(
        &mut self,
        alloc: Global,
        words: &[&str],
        out: &mut Bytes,
    ) -> Result<bool, NoMemory> {
        match (words, &mut self.index) {
            (["index", count], index) => begin(alloc, index, count, out),
            (words, Some(index)) => tell_of(index, words, out),
            (_, None) => Ok(false),
        }
    }
}

impl Teller for IndexRow {
    fn tell(&mut self, alloc: Global, asked: &str, out: &mut Bytes) -> Result<bool, NoMemory> {
        self.tell_words(alloc, words_of(alloc, asked)?.as_slice(), out)
    }
}

pub fn judge(alloc: Global, row: &str, shown: &mut String) -> Result<u64, NoMemory> {
    judge_lines(alloc, &mut IndexRow { index: None }, row, shown)
}
