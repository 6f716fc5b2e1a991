//! Numbers as decimal digits, and text without outer blanks.
ghost use Rattle.std.specs.Prelude.{◌≡◌, ◌<◌, ◌++◌, SomeIff, OnOk, OnErr, decimal};
ghost use Rattle.std.specs.Char.{digit_value};
ghost use Rattle.std.specs.Str.Parse.{digits_value};
ghost use Rattle.jk_io.specs.Decimals.{IsDecimal, decimal_of, is_blank, trimmed};

use crate::byte_list::Bytes;
use crate::failures::NoMemory;
use itoa::Buffer;

/// The most digits that a number is read from.
const MAX_DIGITS: usize = 20;

/// The number that 1 to 20 digits write, where it is one of a u64. Leading zeros may stand, a sign may not.
pub fn parse_decimal(text: &[u8]) -> Option<u64>
    ensures value { result ≡ decimal_of text.now }
    ensures decimal { SomeIff result (IsDecimal text.now) (digits_value 10 text.now) }
{
    read_digits(text)
}

fn read_digits(text: &[u8]) -> Option<u64>
    ensures { SomeIff result (IsDecimal text.now) (digits_value 10 text.now) }
{
    if text.is_empty() || text.len() > MAX_DIGITS {
        return None;
    }
    let mut value: u128 = 0;
    for byte in text {
        value = value * 10 + u128::from(digit(*byte)?);
    }
    u64::try_from(value).ok()
}

fn digit(byte: u8) -> Option<u8>
    ensures { SomeIff result (digit_value byte < 10) (digit_value byte) }
{
    match byte {
        b'0'..=b'9' => Some(byte - b'0'),
        _ => None,
    }
}

/// Adds the digits of a number, without leading zeros.
pub fn put_decimal(out: &mut Bytes, n: u128) -> Result<(), NoMemory>
    ensures ok { OnOk result (out.new ≡ out.old ++ decimal n) }
    ensures err { OnErr result (out.new ≡ out.old) }
{
    out.extend(Buffer::new().format(n).as_bytes())
}

/// The text without the spaces and tabs at both ends.
pub fn trim(text: &[u8]) -> &[u8]
    ensures { result.now ≡ trimmed text.now }
{
    let mut rest = text;
    'front: while let [byte, others @ ..] = rest
        && blank(*byte)
    {
        rest = others;
    }
    'back: while let [others @ .., byte] = rest
        && blank(*byte)
    {
        rest = others;
    }
    rest
}

fn blank(byte: u8) -> bool
    ensures { result ≡ is_blank byte }
{
    byte == b' ' || byte == b'\t'
}
