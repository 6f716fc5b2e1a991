//! Files in memory.
ghost use Rattle.std.specs.Prelude.{◌≡◌, ◌<◌, ◌≤◌, ◌↔◌, ◌⊎◌, [], length, Contains, Some, None, IsSome, IsSomeAnd, IsOk, IfOk, IsErrOf};
ghost use Rattle.std.specs.Option.{option_copied};
ghost use Rattle.jk_io.specs.Told.{Rose};
ghost use Rattle.jk_io.specs.Stored.{content_of};
ghost use Rattle.jk_io.specs.Memory.{counted};

use crate::byte_list::Bytes;
use crate::failures::FileError;
use crate::list_of::{ListOf, NumberList};
use crate::memory::call_count::CallCount;
use crate::traits::surroundings::Files;
use crate::whole_input::MAX_INPUT_BYTES;
use std::alloc::Global;
use std::marker::Model;

/// Files in memory, each a pair of its name and its content; of two with one name the first counts.
pub type FileList = ListOf<(Bytes, Bytes)>;

/// Files in memory, and the reads that are to fail, numbered from 0.
#[derive(Drop)]
pub struct MemFiles {
    files: FileList,
    failing: NumberList,
    count: CallCount,
}

impl Model for MemFiles {
    ghost use Rattle.jk_io.specs.Memory.{MemFilesState};

    ghost Value = { MemFilesState };

    ghost view = { λ f. record { files = f.files; failing = f.failing; calls = f.count.calls; faults = f.count.failed } };
}

impl MemFiles {
    pub fn new(files: FileList, failing: NumberList) -> MemFiles
        ensures { result ≡ record { files = files; failing = failing; calls = 0; faults = 0 } }
    {
        MemFiles {
            files,
            failing,
            count: CallCount::new(),
        }
    }

    /// How many reads failed.
    pub fn faults(&self) -> u64
        ensures { result ≡ self.now.faults }
    {
        self.count.failed
    }
}

impl Files for MemFiles {
    ghost use Rattle.std.specs.Prelude.{Some};

    ghost files = { λ f. Some f.files };

    ghost faults = { λ f. f.faults };

    fn read_file(&mut self, alloc: Global, name: &Bytes) -> Result<Bytes, FileError>
        ensures found { IfOk result (λ bytes. content_of self.old.files name.now ≡ Some bytes) }
        ensures short { IfOk result (λ bytes. length bytes ≤ MAX_INPUT_BYTES) }
        ensures too_long { IsErrOf result FileError.TooLong → IsSomeAnd (content_of self.old.files name.now) (λ bytes. MAX_INPUT_BYTES < length bytes) }
        ensures failed { IsErrOf result FileError.Failed → Rose self.old.faults self.new.faults }
        ensures no_fewer { self.old.faults ≤ self.new.faults }
        ensures calm { (IsErrOf result FileError.Failed → ⊥) → self.new.faults ≡ self.old.faults }
        ensures same { (self.new.files ≡ self.old.files) × (self.new.failing ≡ self.old.failing) }

        // It fails exactly at the reads that it was told to fail, and at a name that no file has.
        ensures planned { IsErrOf result FileError.Failed ↔ Contains self.old.failing self.old.calls ⊎ (content_of self.old.files name.now ≡ None) }
        ensures counted { self.new.calls ≡ counted self.old.calls }
        ensures steady { self.old.failing ≡ [] → IsSome (content_of self.old.files name.now) → self.new.faults ≡ self.old.faults }
    {
        if self.count.fails(&self.failing) {
            return Err(FileError::Failed);
        }
        let Some(content) = find(self.files.as_slice(), name) else {
            self.count.fail();
            return Err(FileError::Failed);
        };
        if content.len() > MAX_INPUT_BYTES {
            return Err(FileError::TooLong);
        }
        Ok(content.copy()?)
    }
}

fn find<'a>(files: &'a [(Bytes, Bytes)], name: &Bytes) -> Option<&'a Bytes>
    ensures { option_copied result ≡ content_of files.now name.now }
{
    for file in files {
        if file.0.as_slice() == name.as_slice() {
            return Some(&file.1);
        }
    }
    None
}
