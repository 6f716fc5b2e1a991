//! The file of a segment: where it lies, and what it holds.
ghost use Rattle.std.specs.Prelude.{◌≡◌, ◌<◌, ◌++◌, IfOk, OnOk, true};
ghost use Rattle.std.specs.Fmt.{digit_glyph};
ghost use Rattle.journal_text.specs.Names.{escaped_byte, is_plain, name_word};
ghost use Rattle.journal_text.specs.SegmentText.{segment_text};
ghost use Rattle.gear_worlds.specs.Files.{file_path, first_word};

use itoa::Buffer;
use jk_io::{Bytes, NoMemory};
use journal_text::write_segment;
use lb_model::Segment;

/// The digits of a segment's first number in the name of its file.
pub const FIRST_DIGITS: usize = 15;

/// A file that a segment is to be written into.
#[derive(Drop)]
pub struct SegmentFile {
    /// `DIR/NAME-FIRST.jkj`.
    pub path: Bytes,
    pub text: Bytes,
}

/// The file of a segment of the balancer with this name, in a directory. The error is want of memory.
pub fn segment_file(dir: &Bytes, name: &Bytes, segment: &Segment) -> Result<SegmentFile, NoMemory>
    ensures path { IfOk result (λ file. file.path ≡ file_path dir.now name.now segment.now.opening.next) }
    ensures text { IfOk result (λ file. file.text ≡ segment_text name.now segment.now) }
{
    let text = write_segment(name.as_slice(), segment)?;
    let path = path_of(dir, name.as_slice(), segment.opening.next)?;
    Ok(SegmentFile { path, text })
}

/// The path of a file that holds the segment of this first number.
pub(crate) fn path_of(dir: &Bytes, name: &[u8], first: u64) -> Result<Bytes, NoMemory>
    ensures { IfOk result (λ path. path ≡ file_path dir.now name.now first) }
{
    let mut path = dir.copy()?;
    path.push(b'/')?;
    put_name(&mut path, name)?;
    path.push(b'-')?;
    put_first(&mut path, first)?;
    path.extend(b".jkj")?;
    Ok(path)
}

fn put_name(path: &mut Bytes, name: &[u8]) -> Result<(), NoMemory>
    ensures { OnOk result (path.new ≡ path.old ++ name_word name.now) }
{
    if name.is_empty() {
        return path.push(b'%');
    }
    for byte in name {
        put_byte(path, *byte)?;
    }
    Ok(())
}

#[tactic(auto, unfolding(percent_encoding::specs::Percent::percent_encode_byte))]
fn put_byte(path: &mut Bytes, byte: u8) -> Result<(), NoMemory>
    ensures { OnOk result (path.new ≡ path.old ++ escaped_byte byte) }
{
    if is_plain(byte) {
        return path.push(byte);
    }
    path.push(b'%')?;
    path.push(digit(byte / 16 % 16))?;
    path.push(digit(byte % 16))
}

fn is_plain(byte: u8) -> bool
    ensures { result ≡ is_plain byte }
{
    byte.is_ascii_alphanumeric() || (byte == b'-' || (byte == b'_' || byte == b'.'))
}

fn digit(value: u8) -> u8
    requires { value < 16 }
    ensures { result ≡ digit_glyph true value }
{
    if value < 10 {
        b'0' + value
    } else {
        b'A' + (value - 10)
    }
}

fn put_first(path: &mut Bytes, first: u64) -> Result<(), NoMemory>
    ensures { OnOk result (path.new ≡ path.old ++ first_word first) }
{
    let mut buffer = Buffer::new();
    let digits = buffer.format(first).as_bytes();
    for _zero in 0..FIRST_DIGITS.saturating_sub(digits.len()) {
        path.push(b'0')?;
    }
    path.extend(digits)
}
