//! Files that keep the names of those that were read, and how each read went.
ghost use Rattle.std.specs.Prelude.{◌≡◌, ◌<◌, ◌≤◌, [], List, IfOk, IfSome, IsErrOf, IsSomeAnd, length, OnErr, OnOk, Some};
ghost use Rattle.jk_io.specs.Stored.{content_of};
ghost use Rattle.jk_io.specs.Told.{Rose};
ghost use Rattle.remarks.specs.Seen.{HasPlace, Keeps, KeepsAnswer, outcome_of};
ghost use Rattle.jk_io.specs.declared.whole_input.TheConstants.{MAX_INPUT_BYTES};

use crate::read_file::{ReadFile, ReadOutcome};
use jk_io::{Bytes, FileError, Files, ListOf, NoMemory};
use std::alloc::Global;

/// Files, and how each read of them went, in order.
#[derive(Drop)]
pub struct KeptFiles<F: Files + Drop> {
    files: F,
    reads: ListOf<ReadFile>,
}

impl<F: Files + Drop> KeptFiles<F> {
    pub fn new(alloc: Global, files: F) -> KeptFiles<F>
        ensures { (result.files ≡ files) × (result.reads ≡ []) }
    {
        KeptFiles {
            files,
            reads: ListOf::new(alloc),
        }
    }

    /// How each read went, the first one first.
    pub fn reads(&self) -> &[ReadFile]
        ensures { result.now ≡ self.now.reads }
    {
        self.reads.as_slice()
    }
}

/// How a read went that gave this.
fn outcome_of(answer: &Result<Bytes, FileError>) -> ReadOutcome
    ensures { result ≡ outcome_of answer.now }
{
    match answer {
        Ok(_) => ReadOutcome::Whole,
        Err(FileError::TooLong) => ReadOutcome::TooLong,
        Err(FileError::Failed | FileError::NoMemory) => ReadOutcome::Unread,
    }
}

/// Takes the room for how the read of a file goes, and a copy of its name.
fn make_room(alloc: Global, reads: &mut ListOf<ReadFile>, name: &Bytes) -> Result<Bytes, NoMemory>
    ensures name { IfOk result (λ copy. copy ≡ name.now) }
    ensures room { OnOk result (HasPlace reads.old reads.new) }
    ensures err { OnErr result (reads.new ≡ reads.old) }
{
    let copy = Bytes::from_slice(alloc, name.as_slice())?;
    reads.push(ReadFile {
        name: Bytes::new(alloc),
        outcome: ReadOutcome::Unread,
    })?;
    Ok(copy)
}

/// Puts how a read went where the room for it was taken.
fn keep(reads: &mut ListOf<ReadFile>, name: Bytes, outcome: ReadOutcome)
    requires room { 0 < length reads.old }
    ensures { (front : List ReadFile) → HasPlace front reads.old → Keeps name outcome front reads.new }
{
    let last = reads.len() - 1;
    reads.set(last, ReadFile { name, outcome });
}

impl<F: Files + Drop> Files for KeptFiles<F> {
    ghost files = { λ k. F.files k.files };

    ghost faults = { λ k. F.faults k.files };

    fn read_file(&mut self, alloc: Global, name: &Bytes) -> Result<Bytes, FileError>
        ensures found { IfOk result (λ bytes. IfSome (F.files self.old.files) (λ all. content_of all name.now ≡ Some bytes)) }
        ensures short { IfOk result (λ bytes. length bytes ≤ MAX_INPUT_BYTES) }
        ensures too_long { IsErrOf result FileError.TooLong
            → IfSome (F.files self.old.files) (λ all. IsSomeAnd (content_of all name.now) (λ bytes. MAX_INPUT_BYTES < length bytes)) }
        ensures failed { IsErrOf result FileError.Failed → Rose (F.faults self.old.files) (F.faults self.new.files) }
        ensures no_fewer { F.faults self.old.files ≤ F.faults self.new.files }
        ensures calm { (IsErrOf result FileError.Failed → ⊥) → F.faults self.new.files ≡ F.faults self.old.files }
        ensures same { F.files self.new.files ≡ F.files self.old.files }

        // How a read goes is kept after how those before went, unless memory was wanted for that.
        ensures kept { KeepsAnswer name.now result self.old.reads self.new.reads }
    {
        let copy = make_room(alloc, &mut self.reads, name)?;
        let answer = self.files.read_file(alloc, name);
        keep(&mut self.reads, copy, outcome_of(&answer));
        answer
    }
}
