//! A drill that was done, and the reasons why one hands out nothing.
ghost use Rattle.std.specs.Prelude.{◌≡◌};
ghost use Rattle.drill.specs.Written.{status_of_error};

use jk_io::{Bytes, NoMemory};
use lb_book::Book;
use lb_closing::Discord;
use std::marker::Brand;

/// What a drill hands out.
#[derive(Drop)]
pub struct Drilled {
    /// The summary, or the journal's text.
    pub text: Bytes,
    /// The Book whose journal it is.
    pub book: Book,
    /// The bytes of all replies' bodies, as the sessions of the threads counted them.
    pub bodies: u64,
    /// How many receipts of the threads' desks were compared with the journal; over passes there are none.
    pub receipts: u64,
}

/// Why a drill hands out nothing.
#[derive(Drop)]
pub enum DrillError {
    /// The receipts of the threads aren't the kept entries.
    Differs(Discord<Brand>),
    /// The journal of this Book lacks a request of some thread, or has one that wasn't answered whole.
    Lost(Book),
    /// This Book doesn't keep every entry that it added, so the receipts can't be compared with its journal.
    Cut(Book),
    /// The replies' bodies had this many bytes together, and not those that the requests asked for.
    Bodies(u64),
    NoMemory,
}

/// The status of receipts that aren't the kept entries.
const DIFFERS: u8 = 1;

/// The status of want of memory.
pub(crate) const NO_MEMORY: u8 = 6;

/// The status of a journal that lacks a request or an entry, and of bodies that lack bytes.
const LOST: u8 = 7;

impl DrillError {
    /// The program's status.
    pub fn status(&self) -> u8
        ensures { result ≡ status_of_error self.now }
    {
        match self {
            DrillError::Differs(_) => DIFFERS,
            DrillError::Lost(_) | DrillError::Cut(_) | DrillError::Bodies(_) => LOST,
            DrillError::NoMemory => NO_MEMORY,
        }
    }
}

impl From<NoMemory> for DrillError {
    ghost use Rattle.std.specs.Prelude.{◌≡◌};
    ghost use Rattle.drill.specs.declared.drill_error.DrillError.TheVariants as error;

    ghost from_gives = { λ _ e. e ≡ error.NoMemory };

    fn from(_error: NoMemory) -> DrillError {
        DrillError::NoMemory
    }
}
