//! How the bytes of a row come and go: the words of its line `ways`.
//!
//! Without such a line a link gives all bytes in one read, and nothing fails. `whole` says so too. `bytes`: no read goes
//! across any place. `each`: the row is done once for each place, and no read goes across that one. `ends`: once with the
//! last byte apart, once with the last two. `stop`: a read fails after the last byte, so that one read more is a fault.
//! `read@K`: a read fails after K bytes, `read@K..M`: once for each place from K to before M, `reads`: once for each place
//! within the bytes. `write@K` and `write@K..M` are of writes.

use crate::texts::number;
use jk_io::{Bytes, MemLink, NoMemory, NumberList};
use std::alloc::Global;

/// Places that no read goes across, from `first` to before `end`, and where a read or a write fails once.
#[derive(Clone, Copy)]
pub struct Way {
    first: usize,
    end: usize,
    read: Option<u64>,
    write: Option<u64>,
}

const WHOLE: Way = Way {
    first: 0,
    end: 0,
    read: None,
    write: None,
};

/// The first place of `K..M` or `K`, and the place after the last.
fn range_of(text: &str) -> (u64, u64) {
    match text.split_once("..") {
        Some((first, end)) => (number(first), number(end)),
        None => (number(text), number(text).saturating_add(1)),
    }
}

/// How many places a way's word speaks of, for `len` bytes.
pub(crate) fn count(word: &str, len: usize) -> usize {
    match word.split_once('@') {
        Some((_, range)) => {
            let (first, end) = range_of(range);
            end.saturating_sub(first) as usize
        }
        None => count_of(word, len),
    }
}

fn count_of(word: &str, len: usize) -> usize {
    match word {
        "each" => len.saturating_add(1),
        "reads" => len,
        "ends" => 2,
        "whole" | "bytes" | "stop" => 1,
        _ => 0,
    }
}

/// The way of this word at one of its places.
pub(crate) fn way_of(word: &str, len: usize, place: usize) -> Way {
    match word.split_once('@') {
        Some((what, range)) => failing(what, range_of(range).0.saturating_add(place as u64)),
        None => cut(word, len, place),
    }
}

fn failing(what: &str, at: u64) -> Way {
    match what {
        "read" => Way {
            read: Some(at),
            ..WHOLE
        },
        _ => writing(Some(at)),
    }
}

/// One write fails after this many bytes, if they are given.
pub fn writing(write: Option<u64>) -> Way {
    Way { write, ..WHOLE }
}

fn cut(word: &str, len: usize, place: usize) -> Way {
    match word {
        "bytes" => across(0, len),
        "each" => across(place, place.saturating_add(1)),
        "ends" => across(len.saturating_sub(place).saturating_sub(1), len),
        "stop" => failing("read", len as u64),
        "reads" => failing("read", place as u64),
        _ => WHOLE,
    }
}

fn across(first: usize, end: usize) -> Way {
    Way {
        first,
        end,
        ..WHOLE
    }
}

fn one_number(alloc: Global, number: Option<u64>) -> Result<NumberList, NoMemory> {
    let mut numbers = NumberList::new(alloc);
    if let Some(number) = number {
        numbers.push(number)?;
    }
    Ok(numbers)
}

fn places(alloc: Global, first: usize, end: usize) -> Result<NumberList, NoMemory> {
    let mut places = NumberList::new(alloc);
    for place in first..end {
        places.push(place as u64)?;
    }
    Ok(places)
}

/// A link that has these bytes to come.
pub fn link_of(alloc: Global, bytes: &[u8], way: Way) -> Result<MemLink, NoMemory> {
    if way.first < way.end {
        return in_pieces(alloc, bytes, places(alloc, way.first, way.end)?);
    }
    let reads = one_number(alloc, way.read)?;
    failing_at(alloc, bytes, reads, way.write)
}

fn in_pieces(alloc: Global, bytes: &[u8], cuts: NumberList) -> Result<MemLink, NoMemory> {
    let incoming = Bytes::from_slice(alloc, bytes)?;
    Ok(MemLink::in_pieces(alloc, incoming, cuts))
}

fn failing_at(
    alloc: Global,
    bytes: &[u8],
    reads: NumberList,
    write: Option<u64>,
) -> Result<MemLink, NoMemory> {
    let writes = one_number(alloc, write)?;
    MemLink::failing_at(alloc, Bytes::from_slice(alloc, bytes)?, reads, writes)
}
