//! The rows of two sessions: what each says of its site, its clients and their members, and whether it comes out so.
ghost use Rattle.std.specs.Prelude.{◌≡◌, ◌∷◌, [], true, IfOk};
ghost use Rattle.exchange.specs.Requests.{sizes_of};
ghost use Rattle.lb_model.specs.Journal.{members};
ghost use Rattle.lb_passes.specs.Passes.{MayTakeTurns};
ghost use Rattle.site_mounts.specs.Sites.{stands_in};

use crate::sessions::{Stage, Texts, tell_stage};
use anyhow::Result as Judged;
use check_rows::comparing::wants;
use check_rows::files::{print_count, read_rows};
use check_rows::row::{BlockRow, RowError};
use check_rows::texts::With;
use jk_io::{Bytes, MAX_INPUT_BYTES, NoMemory, Peer};
use lb_book::Book;
use site_config::Config;
use site_mounts::{MapError, UriMap, read_map};
use site_workers::{PropsError, read_workers};
use std::alloc::Global;
use std::rt::Files;
use std::sync::Wait;
use std::thread::Threads;
use std::time::Clock;

/// The file of the rows.
const FILE: &str = "pass/sessions.txt";

/// The configuration in a row; it must be read.
fn config_of(alloc: Global, row: BlockRow<'_>) -> Result<Config, RowError> {
    let text = row.file(alloc, "w")?;
    if text.len() > MAX_INPUT_BYTES {
        return Err(RowError::Unreadable);
    }
    match read_workers(alloc, text.as_slice()) {
        Ok(config) => Ok(config),
        Err(PropsError::Refused { .. }) => Err(RowError::Unreadable),
        Err(PropsError::NoMemory) => Err(RowError::NoMemory),
    }
}

/// The map in a row; it must be read.
fn map_of(alloc: Global, row: BlockRow<'_>, config: &Config) -> Result<UriMap, RowError>
    ensures { IfOk result (λ map. stands_in config.now map ≡ true) }
{
    let text = row.file(alloc, "m")?;
    if text.len() > MAX_INPUT_BYTES {
        return Err(RowError::Unreadable);
    }
    match read_map(alloc, text.as_slice(), config) {
        Ok(map) => Ok(map),
        Err(MapError::Refused { .. }) => Err(RowError::Unreadable),
        Err(MapError::NoMemory) => Err(RowError::NoMemory),
    }
}

/// The Book of the one worker, as it starts; there must be one.
fn book_of(alloc: Global, config: &Config) -> Result<Book, RowError>
    ensures fresh { IfOk result MayTakeTurns }
    ensures one { IfOk result (λ book. members book.opening ≡ 1) }
    ensures sized { IfOk result (λ _. sizes_of config.now.lbs ≡ 1 ∷ []) }
{
    match config.lbs.as_slice() {
        [lb] if lb.book.members.len() == 1 => { Ok(Book::start(alloc, lb.book.copy()?, 0, 0)?) }
        _ => Err(RowError::Unreadable),
    }
}

/// What is sent in a session: the texts of this file of a row, which is the client's, and of the next, which is its member's.
fn texts_of(alloc: Global, row: BlockRow<'_>, file: usize) -> Result<Texts, RowError> {
    Ok(Texts {
        client: row.text(alloc, "file", file)?,
        member: row.text(alloc, "file", file.saturating_add(1))?,
    })
}

/// What comes of a row.
fn told<R: Threads + Wait + Clock + Sync>(
    rt: &R,
    alloc: Global,
    row: BlockRow<'_>,
) -> Result<Bytes, RowError> {
    let config = config_of(alloc, row)?;
    let map = map_of(alloc, row, &config)?;
    let book = book_of(alloc, &config)?;
    let addr = Bytes::from_slice(alloc, b"127.0.0.1")?;
    let stage = Stage {
        config,
        map,
        peer: Peer { addr },
        first: texts_of(alloc, row, 0)?,
        second: texts_of(alloc, row, 2)?,
    };
    Ok(tell_stage(rt, alloc, &stage, book)?)
}

/// Whether a row comes out as it says; not, where it can't be read.
fn is_held<R: Threads + Wait + Clock + Sync>(
    rt: &R,
    alloc: Global,
    lines: &str,
) -> Result<bool, RowError> {
    let with = With {
        first: "",
        second: "",
    };
    let row = BlockRow { lines, with };
    let told = told(rt, alloc, row)?;
    wants(alloc, row, told.as_slice())
}

/// Prints how many rows come out as they say.
pub fn judge<R: Print + AllocGlobal + Files + Threads + Wait + Clock + Sync>(rt: &R) -> Judged<()> {
    let text = read_rows(rt, FILE)?;
    let mut fits = 0u64;
    for lines in text.as_str().split("\nrow ").skip(1) {
        match is_held(rt, rt.alloc(), lines) {
            Ok(true) => fits = fits.saturating_add(1),
            Ok(false) | Err(RowError::Unreadable) => {}
            Err(RowError::NoMemory) => return Err(NoMemory.into()),
        }
    }
    print_count(rt, "", fits, "rows", FILE)
}
