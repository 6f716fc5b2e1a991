//! The words after the program's name, as the system has them.
use jk_io::{Bytes, ListOf, NoMemory};
use std::alloc::AllocFailed;
use std::rt::Env;
use std::{env, io};

/// The command's words.
pub(crate) type WordList = ListOf<Bytes>;

/// Why the words can't be read.
#[derive(Clone, Copy)]
pub(crate) enum ArgumentsError {
    /// A word isn't UTF-8.
    NotText,
    NoMemory,
}

impl From<NoMemory> for ArgumentsError {
    fn from(_e: NoMemory) -> ArgumentsError {
        ArgumentsError::NoMemory
    }
}

impl<T: Drop> From<AllocFailed<T>> for ArgumentsError {
    fn from(_e: AllocFailed<T>) -> ArgumentsError {
        ArgumentsError::NoMemory
    }
}

impl From<io::Error> for ArgumentsError {
    fn from(error: io::Error) -> ArgumentsError {
        match error.kind() {
            io::ErrorKind::OutOfMemory => ArgumentsError::NoMemory,
            _ => ArgumentsError::NotText,
        }
    }
}

/// The words after the program's name.
pub(crate) fn read_arguments<R: Env + AllocGlobal>(rt: &R) -> Result<WordList, ArgumentsError> {
    let mut words = WordList::new(rt.alloc());
    for word in env::args(rt)?.skip(1) {
        words.push(Bytes::from_slice(rt.alloc(), word.as_bytes())?)?;
    }
    Ok(words)
}
