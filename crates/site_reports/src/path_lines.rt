//! The lines of a list of paths.
ghost use Rattle.std.specs.Prelude.{◌≡◌, ◌∷◌, ◌<◌, length, IfSome, IfNone};
ghost use Rattle.site_reports.specs.PathLines.{path_lines};

use site_config::cut_at;

/// The first line and the text after it; none in an empty text.
pub(crate) fn first_line(text: &[u8]) -> Option<(&[u8], &[u8])>
    ensures some { IfSome result (λ parts. path_lines text.now ≡ parts.0.now ∷ path_lines parts.1.now) }
    ensures shorter { IfSome result (λ parts. length parts.1.now < length text.now) }
    ensures none { IfNone result (length text.now ≡ 0) }
{
    if text.is_empty() {
        return None;
    }
    match cut_at(text, b'\n') {
        Some((line, rest)) => Some((line, rest)),
        None => Some((text, &text[text.len()..])),
    }
}
