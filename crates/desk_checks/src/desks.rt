//! Rows of desks: of one thread over a Book that it owns, and over a Site behind its lock whose journal is cut.

use crate::{plain, shared};
use check_lines::begin::{FreshBook, book_of_row};
use check_lines::texts::{first_word, short};
use jk_io::NoMemory;
use lb_shared::SiteBlank;
use std::marker::Brand;
use std::sync::Wait;

/// What a row's desk stands over.
#[derive(Clone, Copy)]
enum Over {
    Book,
    /// A Site whose journal is cut where it has this many entries.
    Site(u32),
}

/// What a line `desk`, or `desk cut N` over a Site, says.
fn over_in(line: &str) -> Option<Over> {
    match first_word(line) {
        ("desk", "") => Some(Over::Book),
        ("desk", words) => Some(Over::Site(short(words.strip_prefix("cut ")?)?)),
        _ => None,
    }
}

fn over_of(row: &str) -> Option<Over> {
    for line in row.lines() {
        let over = over_in(line);
        if over.is_some() {
            return over;
        }
    }
    None
}

/// Shows that a row can't be judged.
pub fn show_unread(row: &str, shown: &mut String) -> Result<u64, NoMemory> {
    shown.push_str(row)?;
    shown.push_str("\n  has no desk or no opening\n")?;
    Ok(0)
}

fn judge_over<R: AllocGlobal + Wait>(
    rt: &R,
    over: Option<Over>,
    fresh: FreshBook,
    row: &str,
    shown: &mut String,
) -> Result<u64, NoMemory> {
    match over {
        Some(Over::Book) => plain::judge(rt.alloc(), fresh, row, shown),
        Some(Over::Site(cut_at)) => {
            let row = row.as_bytes();
            shared::judge::<Brand, R>(rt, SiteBlank::new(1), fresh, cut_at, row, shown)
        }
        None => show_unread(row, shown),
    }
}

pub fn judge<R: AllocGlobal + Wait>(
    rt: &R,
    row: &str,
    shown: &mut String,
) -> Result<u64, NoMemory> {
    match book_of_row(rt.alloc(), row)? {
        Some(fresh) => judge_over(rt, over_of(row), fresh, row, shown),
        None => show_unread(row, shown),
    }
}
