//! The text of a row's outcome, piece by piece.
use jk_io::{Bytes, NoMemory, put_decimal};
use std::alloc::Global;

/// A text to which pieces are added. Once memory was wanted it is never read.
#[derive(Drop)]
pub struct RowText {
    pub text: Bytes,
    pub lacks_memory: bool,
}

impl RowText {
    pub fn new(alloc: Global) -> RowText {
        RowText {
            text: Bytes::new(alloc),
            lacks_memory: false,
        }
    }

    pub fn put(&mut self, piece: &[u8]) {
        if self.text.extend(piece).is_err() {
            self.lacks_memory = true;
        }
    }

    /// Adds a name and its number.
    pub fn number(&mut self, name: &[u8], number: u64) {
        self.put(name);
        if put_decimal(&mut self.text, u128::from(number)).is_err() {
            self.lacks_memory = true;
        }
    }

    /// Adds words, each after a space.
    pub fn words(&mut self, words: &[&[u8]]) {
        for word in words {
            self.put(b" ");
            self.put(word);
        }
    }

    /// All that was added.
    pub fn read(&self) -> Result<&[u8], NoMemory> {
        if self.lacks_memory {
            Err(NoMemory)
        } else {
            Ok(self.text.as_slice())
        }
    }
}
