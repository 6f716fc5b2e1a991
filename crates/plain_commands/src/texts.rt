//! Reading the texts of a command, each whole.
ghost use Rattle.std.specs.Prelude.{◌≡◌, ◌<◌, ◌≤◌, [], ◌∷◌, Some, length, IfOk, IfSome, IfNone, IsSomeAnd};
ghost use Rattle.jk_io.specs.Stored.{content_of};
ghost use Rattle.plain_commands.specs.Causes.{IsJustCaused};
ghost use Rattle.site_reports.specs.Readings.{AreRead, File, OfFiles, StopsLong};
ghost use Rattle.jk_io.specs.declared.whole_input.TheConstants.{MAX_INPUT_BYTES};

use jk_io::{Bytes, FileError, Files, IoError, Source, read_whole};
use std::alloc::Global;

/// A file's text; none where it has more than 67,108,864 bytes.
pub(crate) fn read_text<F: Files>(
    alloc: Global,
    files: &mut F,
    name: &Bytes,
) -> Result<Option<Bytes>, IoError>
    ensures there { IfOk result (λ read. IfSome read (λ text. IfSome (F.files files.old) (λ all. content_of all name.now ≡ Some text))) }
    ensures short { IfOk result (λ read. IfSome read (λ text. length text ≤ MAX_INPUT_BYTES)) }
    ensures long { IfOk result (λ read. IfNone read (IfSome (F.files files.old) (λ all. IsSomeAnd (content_of all name.now) (λ text. MAX_INPUT_BYTES < length text)))) }
    ensures cause { IsJustCaused (F.faults files.old) (F.faults files.new) result }
    ensures same { F.files files.new ≡ F.files files.old }
{
    match files.read_file(alloc, name) {
        Ok(text) => Ok(Some(text)),
        Err(FileError::TooLong) => Ok(None),
        Err(FileError::Failed) => Err(IoError::Failed),
        Err(FileError::NoMemory) => Err(IoError::NoMemory),
    }
}

/// Two texts, the one read after the other; none where one has more than 67,108,864 bytes.
pub(crate) fn read_pair<F: Files>(
    alloc: Global,
    files: &mut F,
    first: &Bytes,
    second: &Bytes,
) -> Result<Option<(Bytes, Bytes)>, IoError>
    ensures there { OfFiles (F.files files.old) (λ outside. IfOk result (λ read. IfSome read (λ texts.
        AreRead outside (File first.now ∷ File second.now ∷ []) (texts.0 ∷ texts.1 ∷ [])))) }
    ensures long { OfFiles (F.files files.old) (λ outside. IfOk result (λ read. IfNone read
        (StopsLong outside (File first.now ∷ File second.now ∷ [])))) }
    ensures cause { IsJustCaused (F.faults files.old) (F.faults files.new) result }
    ensures same { F.files files.new ≡ F.files files.old }
{
    let Some(first) = read_text(alloc, files, first)? else {
        return Ok(None);
    };
    let Some(second) = read_text(alloc, files, second)? else {
        return Ok(None);
    };
    Ok(Some((first, second)))
}

/// All of an input; none where it has more than 67,108,864 bytes.
pub(crate) fn read_input<S: Source>(alloc: Global, input: &mut S) -> Result<Option<Bytes>, IoError>
    ensures there { IfOk result (λ read. IfSome read (λ text. IfSome (S.incoming input.old) (λ all. text ≡ all))) }
    ensures short { IfOk result (λ read. IfSome read (λ text. length text ≤ MAX_INPUT_BYTES)) }
    ensures long { IfOk result (λ read. IfNone read (IfSome (S.incoming input.old) (λ all. MAX_INPUT_BYTES < length all))) }
    ensures cause { IsJustCaused (S.faults input.old) (S.faults input.new) result }
{
    match read_whole(alloc, input) {
        Ok(text) => Ok(Some(text)),
        Err(FileError::TooLong) => Ok(None),
        Err(FileError::Failed) => Err(IoError::Failed),
        Err(FileError::NoMemory) => Err(IoError::NoMemory),
    }
}
