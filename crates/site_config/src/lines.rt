//! The lines of a site's file.
ghost use Rattle.std.specs.Prelude.{◌≡◌, ◌∷◌, ◌<◌, List, ℕ, length, IfSome, IfNone, ◌≤◌};
ghost use Rattle.site_config.specs.Lines.{lines, without_mark, without_return};

use crate::cut::cut_at;

/// What an editor may put at the very start of a text in UTF-8. It is no part of the text.
const BYTE_ORDER_MARK: &[u8] = b"\xEF\xBB\xBF";

/// A text without the byte-order mark at its start.
pub fn without_mark(text: &[u8]) -> &[u8]
    ensures value { result.now ≡ without_mark text.now }
    ensures shorter { length result.now ≤ length text.now }
{
    text.strip_prefix(BYTE_ORDER_MARK).unwrap_or(text)
}

/// A line without the CR at its end.
fn without_return(line: &[u8]) -> &[u8]
    ensures { result.now ≡ without_return line.now }
{
    line.strip_suffix(b"\r").unwrap_or(line)
}

/// The first line and the text after it; none in an empty text.
pub fn first_line(text: &[u8]) -> Option<(&[u8], &[u8])>
    ensures some { IfSome result (λ parts. lines text.now ≡ parts.0.now ∷ lines parts.1.now) }
    ensures shorter { IfSome result (λ parts. length parts.1.now < length text.now) }
    ensures none { IfNone result (length text.now ≡ 0) }
{
    if text.is_empty() {
        return None;
    }
    match cut_at(text, b'\n') {
        Some((line, rest)) => Some((without_return(line), rest)),
        None => Some((text, &text[text.len()..])),
    }
}
