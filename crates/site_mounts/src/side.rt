//! The left side of a rule: its marks, and the patterns.
ghost use Rattle.std.specs.Prelude.{◌≡◌};
ghost use Rattle.std.specs.Option.{option_map};
ghost use Rattle.site_mounts.specs.Sides.{as_left, as_patterns, behind_byte, behind_exclusion, behind_off, left_of, patterns_of};

use site_config::cut_at;

/// What stands before the `=` of a rule.
#[derive(Clone, Copy)]
pub(crate) struct Side<'t> {
    pub(crate) exclusion: bool,
    /// Whether the rule is turned off.
    pub(crate) off: bool,
    pub(crate) pattern: &'t [u8],
}

/// One pattern, or of `P|S` two: P, and P with S after it.
#[derive(Clone, Copy)]
pub(crate) struct Patterns<'t> {
    pub(crate) first: &'t [u8],
    pub(crate) more: Option<&'t [u8]>,
}

/// What follows the byte, where the text begins with it.
fn behind_byte(byte: u8, text: &[u8]) -> Option<&[u8]>
    ensures { option_map (λ t. t.now) result ≡ behind_byte byte text.now }
{
    match text {
        [b, rest @ ..] if *b == byte => Some(rest),
        _ => None,
    }
}

/// The side after a `!`.
fn behind_exclusion(text: &[u8]) -> Side<'_>
    ensures { as_left result ≡ behind_exclusion text.now }
{
    match behind_byte(b'-', text) {
        Some(pattern) => Side {
            exclusion: true,
            off: true,
            pattern,
        },
        None => Side {
            exclusion: true,
            off: false,
            pattern: text,
        },
    }
}

/// The side after a `-`.
fn behind_off(text: &[u8]) -> Side<'_>
    ensures { as_left result ≡ behind_off text.now }
{
    match behind_byte(b'!', text) {
        Some(pattern) => Side {
            exclusion: true,
            off: true,
            pattern,
        },
        None => Side {
            exclusion: false,
            off: true,
            pattern: text,
        },
    }
}

/// The marks right before a pattern, and the pattern.
pub(crate) fn left_of(text: &[u8]) -> Side<'_>
    ensures { as_left result ≡ left_of text.now }
{
    if let Some(rest) = behind_byte(b'!', text) {
        return behind_exclusion(rest);
    }
    match behind_byte(b'-', text) {
        Some(rest) => behind_off(rest),
        None => Side {
            exclusion: false,
            off: false,
            pattern: text,
        },
    }
}

/// The patterns of a text; none where it doesn't begin with `/`, or has more than one `|`.
pub(crate) fn patterns_of(text: &[u8]) -> Option<Patterns<'_>>
    ensures { option_map as_patterns result ≡ patterns_of text.now }
{
    if behind_byte(b'/', text).is_none() {
        return None;
    }
    match cut_at(text, b'|') {
        None => Some(Patterns {
            first: text,
            more: None,
        }),
        Some((first, more)) => {
            if cut_at(more, b'|').is_some() {
                None
            } else {
                Some(Patterns {
                    first,
                    more: Some(more),
                })
            }
        }
    }
}
