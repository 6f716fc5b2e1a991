//! Inputs that are read to their end.
ghost use Rattle.std.specs.Prelude.{◌≡◌, ℕ, ◌<◌, ◌≤◌, List, length, IsOk, IfOk, IsErrOf, OnOk, OnErr};
ghost use Rattle.jk_io.specs.Told.{IsEmpty, Rose};
ghost use Rattle.jk_io.specs.Chunks.{IsChunkEnd, ReadsChunk};
ghost use Rattle.jk_io.specs.Inputs.{Gave};
ghost use Rattle.jk_io.specs.Moments.{moment};

use crate::byte_list::Bytes;
use crate::failures::{FileError, NoMemory};
use crate::reading::{Stop, fill};
use crate::traits::streams::Source;
use std::alloc::Global;

/// The most bytes that a file or a standard input may have.
pub const MAX_INPUT_BYTES: usize = 67_108_864;

const CHUNK_BYTES: usize = 65_536;

/// Reads a source to its end.
pub fn read_whole<S: Source>(alloc: Global, source: &mut S) -> Result<Bytes, FileError>
    ensures whole { IfOk result (λ bytes. Gave S.incoming S.received source.old bytes source.new) }
    ensures ended { OnOk result (IsEmpty (S.incoming source.new)) }
    ensures short { IfOk result (λ bytes. length bytes ≤ MAX_INPUT_BYTES) }

    // A refusal has read a part, TooLong more than may be, and a read that failed no more.
    ensures part { OnErr result ((bytes : List ℕ) × Gave S.incoming S.received source.old bytes source.new
        × (IsErrOf result FileError.TooLong → MAX_INPUT_BYTES < length bytes)) }
    ensures failed { IsErrOf result FileError.Failed → Rose (S.faults source.old) (S.faults source.new) }
    ensures within { IsErrOf result FileError.Failed → (bytes : List ℕ) × Gave S.incoming S.received source.old bytes source.new
        × (length bytes ≤ MAX_INPUT_BYTES) }
    ensures no_fewer { S.faults source.old ≤ S.faults source.new }
    ensures steady { IsOk result → S.faults source.new ≡ S.faults source.old }
    ensures wanted { IsErrOf result FileError.NoMemory → S.faults source.new ≡ S.faults source.old }
    ensures long { IsErrOf result FileError.TooLong → S.faults source.new ≡ S.faults source.old }
    ensures same { (S.sent source.new ≡ S.sent source.old) × (S.beside source.new ≡ S.beside source.old) }
{
    let mut text = Bytes::new(alloc);
    let mut chunk = zeros(alloc, CHUNK_BYTES)?;
    loop {
        match read_chunk(source, chunk.as_mut_slice(), &mut text) {
            Ok(true) => {}
            Ok(false) => return Ok(text),
            Err(error) => return Err(error),
        }
    }
}

// Reads a chunk on, and adds it to the text; answers whether there may be more. One byte past
// the most tells that there are too many, so no more of them is read, and no read after it fails.
fn read_chunk<S: Source>(
    source: &mut S,
    chunk: &mut [u8],
    text: &mut Bytes,
) -> Result<bool, FileError>
    requires some { 0 < length chunk.old }
    requires short { length text.old ≤ MAX_INPUT_BYTES }
    ensures chunk { ReadsChunk MAX_INPUT_BYTES (moment S.incoming S.received S.sent S.faults source.old)
        (moment S.incoming S.received S.sent S.faults source.new) text.old text.new result }
    ensures beside { S.beside source.new ≡ S.beside source.old }
{
    let room = chunk.len().min(MAX_INPUT_BYTES + 1 - text.len());
    let filled = fill(source, &mut chunk[..room]);
    let goes_on = answer_of(filled.stop, text.len() + filled.count)?;
    text.extend(&chunk[..filled.count])?;
    Ok(goes_on)
}

// What is answered at a chunk's stop, where the text has `bytes` bytes then.
fn answer_of(stop: Stop, bytes: usize) -> Result<bool, FileError>
    ensures { IsChunkEnd MAX_INPUT_BYTES stop bytes result }
{
    if bytes > MAX_INPUT_BYTES {
        return Err(FileError::TooLong);
    }
    match stop {
        Stop::Full => Ok(true),
        Stop::End => Ok(false),
        Stop::Fault => Err(FileError::Failed),
        Stop::NoMemory => Err(FileError::NoMemory),
    }
}

fn zeros(alloc: Global, n: usize) -> Result<Vec<u8>, NoMemory>
    ensures { IfOk result (λ v. length v.items ≡ n) }
{
    Ok(vec![in alloc; 0u8; n]?)
}
