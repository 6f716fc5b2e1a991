//! A text in two, at the first byte of a value.
ghost use Rattle.std.specs.Prelude.{◌≡◌, IfSome, IfNone, Some, None, position, ◌==◌};
ghost use Rattle.forwarding.specs.Ids.{cut_at};

/// What stands before the first byte of this value and after it, where there is one.
pub fn cut_at(text: &[u8], byte: u8) -> Option<(&[u8], &[u8])>
    ensures some { IfSome result (λ cut. cut_at byte text.now ≡ Some (cut.0.now, cut.1.now)) }
    ensures none { IfNone result (cut_at byte text.now ≡ None) }
{
    match find_byte(text, byte) {
        Some(at) => Some((&text[..at], &text[at + 1..])),
        None => None,
    }
}

fn find_byte(text: &[u8], byte: u8) -> Option<usize>
    ensures { result ≡ position (λ b. b == byte) text.now }
{
    text.iter().position(|b| *b == byte)
}
