//! A pattern of a rule.
ghost use Rattle.std.specs.Prelude.{◌≡◌, length};
ghost use Rattle.site_mounts.specs.Patterns.{has_wildcard, matches};

use crate::matching::matches;
use jk_io::Bytes;
use std::marker::Model;

/// What a path is matched with. A contract sees its bytes.
#[derive(Drop)]
pub struct Pattern {
    text: Bytes,
    wild: bool,
}

impl Model for Pattern {
    ghost use Rattle.std.specs.Prelude.{List, ℕ, ◌≡◌};
    ghost use Rattle.site_mounts.specs.Patterns.{has_wildcard};

    ghost Value = { List ℕ };

    ghost view = { λ p. p.text };

    ghost invariant = { λ p. p.wild ≡ has_wildcard p.text };
}

fn has_wildcard(text: &[u8]) -> bool
    ensures { result ≡ has_wildcard text.now }
{
    text.iter().any(|c| *c == b'*' || *c == b'?')
}

impl Pattern {
    pub(crate) fn new(text: Bytes) -> Pattern
        ensures { result ≡ text }
    {
        let wild = has_wildcard(text.as_slice());
        Pattern { text, wild }
    }

    /// Its bytes.
    pub(crate) fn len(&self) -> usize
        ensures { result ≡ length self.now }
    {
        self.text.len()
    }

    /// Whether it has a `*` or `?`.
    pub(crate) fn is_wild(&self) -> bool
        ensures { result ≡ has_wildcard self.now }
    {
        self.wild
    }

    /// Whether it matches the whole path.
    pub(crate) fn matches(&self, path: &[u8]) -> bool
        ensures { result ≡ matches self.now path.now }
    {
        if self.wild {
            matches(self.text.as_slice(), path)
        } else {
            self.text.as_slice() == path
        }
    }
}
