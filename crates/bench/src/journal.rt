//! How many entries a second of a journal's text are checked.
//!
//! The text is that of N exchanges in a Book of two members, cut where a server cuts it. It has to be whole in memory; the
//! check itself holds one segment.

use crate::book::{MeasuredBook, book_of, exchange};
use crate::done::Done;
use jk_io::{Bytes, MAX_INPUT_BYTES};
use journal_text::write_segment;
use journal_verdict::{Verdict, check_journal};
use lb_model::Segment;
use std::alloc::Global;

/// Kept entries at which a journal is cut.
const CUT_AT: u64 = 65_536;

fn put_lines(text: &mut Bytes, segment: &Segment) -> bool {
    match write_segment(b"lb", segment) {
        Ok(lines) => text.extend(lines.as_slice()).is_ok(),
        Err(_) => false,
    }
}

/// Cuts the journal, and puts the text of what was kept.
fn put_segment(text: &mut Bytes, measured: &mut MeasuredBook) -> bool {
    match measured.book.cut() {
        Ok(segment) => put_lines(text, &segment),
        Err(_) => false,
    }
}

fn put_exchange(text: &mut Bytes, measured: &mut MeasuredBook) -> bool {
    exchange(measured, 0);
    measured.book.kept() < CUT_AT || put_segment(text, measured)
}

fn put_exchanges(text: &mut Bytes, measured: &mut MeasuredBook, exchanges: u32) -> bool {
    for _ in 0..exchanges {
        if !put_exchange(text, measured) {
            return false;
        }
    }
    put_segment(text, measured)
}

fn put_journal(alloc: Global, text: &mut Bytes, exchanges: u32) -> bool {
    match book_of(alloc, 2) {
        Some(mut measured) => put_exchanges(text, &mut measured, exchanges),
        None => false,
    }
}

/// The text of a journal of this many exchanges.
pub fn text_of(alloc: Global, exchanges: u32) -> Option<Bytes> {
    let mut text = Bytes::new(alloc);
    if put_journal(alloc, &mut text, exchanges) {
        Some(text)
    } else {
        None
    }
}

fn told(verdict: &Verdict) -> Option<Done> {
    match verdict {
        Verdict::Good { entries } => Some(Done {
            amount: *entries,
            figures: [*entries, 0, 0],
        }),
        Verdict::Bad { .. } => None,
    }
}

/// How many entries of a text are good.
pub fn check(alloc: Global, text: &[u8]) -> Option<Done> {
    if text.len() > MAX_INPUT_BYTES {
        return None;
    }
    match check_journal(alloc, text) {
        Ok(verdict) => told(&verdict),
        Err(_) => None,
    }
}
