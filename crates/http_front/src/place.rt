//! `Place`: where in a body's framing a reader stands, and the step over one byte.
ghost use Rattle.std.specs.Prelude.{◌≡◌, ◌<◌, ◌≤◌, ◌+◌, ◌-◌, ◌*◌, ◌==◌, if◌then◌else◌, false, SomeIff};
ghost use Rattle.std.specs.Char.{digit_value};
ghost use Rattle.http_front.specs.Places.{start_of, step, data_step, digits_step, extension_step, trailer_step, trailer_line_step, chunk_of, data_left, is_whole, is_bad, is_limited};
ghost use Rattle.http_front.specs.Body.{is_over};
ghost use Rattle.http_front.specs.Falls.{framing_left, exact_left};

use crate::BodyPlan;

/// Where a reader of a body stands.
#[derive(Clone, Copy)]
pub enum Place {
    /// In a body by length: this many bytes of data are left.
    Exact(u64),
    /// In a chunk line, after `count` digits that write `size`.
    Digits { count: u64, size: u64 },
    /// In the extension of a chunk line, after `count` bytes of it.
    Extension { size: u64, count: u64 },
    /// After the CR of a chunk line.
    LineFeed { size: u64 },
    /// In a chunk: this many bytes of data are left, and then CR LF.
    Chunk(u64),
    /// After the CR that follows a chunk's data.
    DataFeed,
    /// Before a line of the trailer: its lines may have `left` more bytes.
    Trailer { left: u64 },
    /// In a line of the trailer: `left` more bytes may stand before its CR LF, or after it.
    TrailerLine { left: u64 },
    /// After the CR of a line of the trailer.
    TrailerLineFeed { left: u64 },
    /// After the CR of the empty line that ends the body.
    TrailerFeed,
    /// After the body.
    Done,
    /// After a byte that breaks the grammar.
    Bad,
}

const CR: u8 = b'\r';

const LF: u8 = b'\n';

/// The most digits of a chunk's size.
const MAX_SIZE_DIGITS: u64 = 10;

/// What all digits but the last can write stays below this.
const SIZE_STEP: u64 = 68_719_476_736;

/// The most bytes of a chunk's extension after the `;`.
const MAX_EXTENSION_BYTES: u64 = 256;

/// The most bytes of the trailer's lines, their ends among them.
const MAX_TRAILER_BYTES: u64 = 16_384;

/// Where the body of a plan begins.
pub fn start_of(plan: BodyPlan) -> Place
    ensures { result ≡ start_of plan }
{
    match plan {
        BodyPlan::None => Place::Done,
        BodyPlan::Exact(length) => Place::Exact(length),
        BodyPlan::Chunked => Place::Digits { count: 0, size: 0 },
    }
}

/// How many bytes of data follow here.
pub fn data_left(place: Place) -> u64
    ensures { result ≡ data_left place }
{
    match place {
        Place::Exact(left) | Place::Chunk(left) => left,
        Place::Digits { .. }
        | Place::Extension { .. }
        | Place::LineFeed { .. }
        | Place::DataFeed
        | Place::Trailer { .. }
        | Place::TrailerLine { .. }
        | Place::TrailerLineFeed { .. }
        | Place::TrailerFeed
        | Place::Done
        | Place::Bad => 0,
    }
}

/// Whether the body is whole.
pub fn is_whole(place: Place) -> bool
    ensures { result ≡ is_whole place }
{
    match place {
        Place::Exact(left) => left == 0,
        Place::Done => true,
        Place::Digits { .. }
        | Place::Extension { .. }
        | Place::LineFeed { .. }
        | Place::Chunk(_)
        | Place::DataFeed
        | Place::Trailer { .. }
        | Place::TrailerLine { .. }
        | Place::TrailerLineFeed { .. }
        | Place::TrailerFeed
        | Place::Bad => false,
    }
}

/// Whether a bad chunk line stands there.
pub fn is_bad(place: Place) -> bool
    ensures { result ≡ is_bad place }
{
    match place {
        Place::Bad => true,
        Place::Exact(_)
        | Place::Digits { .. }
        | Place::Extension { .. }
        | Place::LineFeed { .. }
        | Place::Chunk(_)
        | Place::DataFeed
        | Place::Trailer { .. }
        | Place::TrailerLine { .. }
        | Place::TrailerLineFeed { .. }
        | Place::TrailerFeed
        | Place::Done => false,
    }
}

/// Whether the body is within its chunks, whose data has a limit.
pub fn is_limited(place: Place) -> bool
    ensures { result ≡ is_limited place }
{
    match place {
        Place::Exact(_) | Place::Done | Place::Bad => false,
        Place::Digits { .. }
        | Place::Extension { .. }
        | Place::LineFeed { .. }
        | Place::Chunk(_)
        | Place::DataFeed
        | Place::Trailer { .. }
        | Place::TrailerLine { .. }
        | Place::TrailerLineFeed { .. }
        | Place::TrailerFeed => true,
    }
}

/// The place after `count` bytes of data.
pub fn data_step(place: Place, count: u64) -> Place
    requires { count ≤ data_left place }
    ensures { result ≡ data_step place count }
{
    match place {
        Place::Exact(left) => Place::Exact(left - count),
        Place::Chunk(left) => Place::Chunk(left - count),
        other => other,
    }
}

/// The place after a byte of the framing.
#[tactic(auto, using(crate::proofs::StepLemmas::step_falls))]
pub fn step(place: Place, byte: u8) -> Place
    requires framing { data_left place ≡ 0 }
    requires open_end { is_over place ≡ false }
    ensures value { result ≡ step place byte }
    ensures falls { framing_left result < framing_left place }
    ensures chunked { exact_left result ≡ 0 }
{
    match place {
        Place::Digits { count, size } => digits_step(count, size, byte),
        Place::Extension { size, count } => extension_step(size, count, byte),
        Place::LineFeed { size } => line_feed_step(size, byte),
        Place::Chunk(_) => if_byte(byte, CR, Place::DataFeed),
        Place::DataFeed => if_byte(byte, LF, Place::Digits { count: 0, size: 0 }),
        Place::Trailer { left } => trailer_step(left, byte),
        Place::TrailerLine { left } => trailer_line_step(left, byte),
        Place::TrailerLineFeed { left } => if_byte(byte, LF, Place::Trailer { left }),
        Place::TrailerFeed => if_byte(byte, LF, Place::Done),
        Place::Exact(_) | Place::Done | Place::Bad => unreachable!(),
    }
}

/// The place `next` after the byte that has to stand there; after any other byte, Bad.
fn if_byte(byte: u8, wanted: u8, next: Place) -> Place
    ensures { result ≡ (if byte == wanted then next else Place.Bad) }
{
    if byte == wanted { next } else { Place::Bad }
}

/// The place after the LF of a chunk line.
fn line_feed_step(size: u64, byte: u8) -> Place
    ensures { result ≡ (if byte == 10 then chunk_of size else Place.Bad) }
{
    if byte != LF {
        return Place::Bad;
    }
    if size == 0 {
        Place::Trailer {
            left: MAX_TRAILER_BYTES,
        }
    } else {
        Place::Chunk(size)
    }
}

/// The place after a byte of a chunk line's digits.
fn digits_step(count: u64, size: u64, byte: u8) -> Place
    ensures { result ≡ digits_step count size byte }
{
    if let Some(digit) = hex_value(byte) {
        if count >= MAX_SIZE_DIGITS {
            return Place::Bad;
        }
        return Place::Digits {
            count: count + 1,
            size: 16 * (size % SIZE_STEP) + digit,
        };
    }
    if count == 0 {
        return Place::Bad;
    }
    match byte {
        b';' => Place::Extension { size, count: 0 },
        b'\r' => Place::LineFeed { size },
        _ => Place::Bad,
    }
}

fn hex_value(byte: u8) -> Option<u64>
    ensures value { SomeIff result (digit_value byte < 16) (digit_value byte) }
{
    match char::from(byte).to_digit(16) {
        Some(digit) => Some(u64::from(digit)),
        None => None,
    }
}

/// The place after a byte of an extension.
fn extension_step(size: u64, count: u64, byte: u8) -> Place
    ensures { result ≡ extension_step size count byte }
{
    if byte == CR {
        return Place::LineFeed { size };
    }
    if byte == LF || count >= MAX_EXTENSION_BYTES {
        return Place::Bad;
    }
    Place::Extension {
        size,
        count: count + 1,
    }
}

/// The place after a byte at the beginning of a trailer line.
fn trailer_step(left: u64, byte: u8) -> Place
    ensures { result ≡ trailer_step left byte }
{
    if byte == CR {
        return Place::TrailerFeed;
    }
    if byte == LF || left < 3 {
        return Place::Bad;
    }
    Place::TrailerLine { left: left - 3 }
}

/// The place after a byte within a trailer line.
fn trailer_line_step(left: u64, byte: u8) -> Place
    ensures { result ≡ trailer_line_step left byte }
{
    if byte == CR {
        return Place::TrailerLineFeed { left };
    }
    if byte == LF || left == 0 {
        return Place::Bad;
    }
    Place::TrailerLine { left: left - 1 }
}
