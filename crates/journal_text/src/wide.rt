//! Numbers of 128 bits.
ghost use Rattle.std.specs.Prelude.{◌≡◌, ◌<◌, ◌^◌, SomeIff};
ghost use Rattle.std.specs.Char.{digit_value};
ghost use Rattle.std.specs.Str.Parse.{digits_value};
ghost use Rattle.journal_text.specs.Wide.{IsWide, wide_number};

fn digit(byte: u8) -> Option<u8>
    ensures { SomeIff result (digit_value byte < 10) (digit_value byte) }
{
    match byte {
        b'0'..=b'9' => Some(byte - b'0'),
        _ => None,
    }
}

fn read_digits(text: &[u8]) -> Option<u128>
    ensures { SomeIff result (IsWide text.now) (digits_value 10 text.now) }
{
    if text.is_empty() {
        return None;
    }
    let mut value: u128 = 0;
    for byte in text {
        let digit = u128::from(digit(*byte)?);
        value = value.checked_mul(10)?.checked_add(digit)?;
    }
    Some(value)
}

/// The number that a text writes, where it is one of 128 bits. Leading zeros may stand, a sign may not.
pub(crate) fn wide_number(text: &[u8]) -> Option<u128>
    ensures { result ≡ wide_number text.now }
{
    read_digits(text)
}
