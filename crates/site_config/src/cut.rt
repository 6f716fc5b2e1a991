//! Cutting a text at its first byte of some kind.
ghost use Rattle.std.specs.Prelude.{◌≡◌, ◌==◌};
ghost use Rattle.std.specs.Option.{option_map};
ghost use Rattle.site_config.specs.Cut.{cut, cut_at, is_separator};

/// The parts before and after the first such byte.
pub fn cut_at(text: &[u8], byte: u8) -> Option<(&[u8], &[u8])>
    ensures { option_map (λ parts. (parts.0.now, parts.1.now)) result ≡ cut_at byte text.now }
{
    for (i, b) in text.iter().enumerate() {
        if *b == byte {
            return Some((&text[..i], &text[i + 1..]));
        }
    }
    None
}

/// Whether the byte stands between the names of a list: a comma, a space or a tab.
pub fn is_separator(b: u8) -> bool
    ensures { result ≡ is_separator b }
{
    b == b',' || (b == b' ' || b == b'\t')
}

/// The parts before and after the first separator.
pub fn cut_at_separator(text: &[u8]) -> Option<(&[u8], &[u8])>
    ensures { option_map (λ parts. (parts.0.now, parts.1.now)) result ≡ cut is_separator text.now }
{
    for (i, b) in text.iter().enumerate() {
        if is_separator(*b) {
            return Some((&text[..i], &text[i + 1..]));
        }
    }
    None
}
