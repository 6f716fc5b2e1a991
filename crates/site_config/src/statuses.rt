//! The statuses of a `fail_on_status`.
ghost use Rattle.std.specs.Prelude.{◌≡◌, ◌≤◌, ◌<◌, ◌++◌, ◌∷◌, Some, [], length, nat_le};
ghost use Rattle.std.specs.Option.{option_map};
ghost use Rattle.site_config.specs.Names.{word_first, words};
ghost use Rattle.site_config.specs.Values.{has_status, status_of, status_after, statuses_after, statuses_of};

use crate::cut::cut_at_separator;
use crate::values::number_in;
use std::marker::Model;

/// The most statuses of a list.
pub const MAX_STATUSES: usize = 64;

/// A status, and whether a `-` stands before it.
pub fn status_of(text: &[u8]) -> Option<(u16, bool)>
    ensures { result ≡ status_of text.now }
{
    match text {
        [b'-', number @ ..] => Some((number_in(200, 999, number)? as u16, true)),
        _ => Some((number_in(200, 999, text)? as u16, false)),
    }
}

fn has_status(statuses: &[(u16, bool)], status: u16, negated: bool) -> bool
    ensures { result ≡ has_status status negated statuses.now }
{
    statuses.iter().any(|s| s.0 == status && s.1 == negated)
}

/// The statuses of a `fail_on_status`, each with whether a `-` stands before it, in the order of the text.
#[derive(Drop)]
pub struct Statuses {
    table: [(u16, bool); 64],
    count: usize,
}

impl Model for Statuses {
    ghost use Rattle.std.specs.Prelude.{ℕ, Bool, List, take, length, ◌≤◌, ◌≡◌};

    ghost Value = { List (ℕ × Bool) };

    ghost view = { λ s. take s.count s.table };

    ghost invariant = { λ s. (s.count ≤ 64) × (length s.table ≡ 64) };
}

impl Statuses {
    /// No status.
    pub fn new() -> Statuses
        ensures { result ≡ [] }
    {
        Statuses {
            table: [(0, false); 64],
            count: 0,
        }
    }

    pub fn as_slice(&self) -> &[(u16, bool)]
        ensures { result.now ≡ self.now }
    {
        &self.table[..self.count]
    }

    /// Whether there are 64.
    fn is_full(&self) -> bool
        ensures { result ≡ nat_le MAX_STATUSES (length self.now) }
    {
        64 <= self.count
    }

    fn add(&mut self, status: u16, negated: bool)
        requires { length self.old < MAX_STATUSES }
        ensures { self.new ≡ self.old ++ (status, negated) ∷ [] }
    {
        self.table[self.count] = (status, negated);
        self.count += 1;
    }
}

/// These statuses and one more, which adds nothing if it is there already. None if it is there with the other sign, or if
/// 64 others are.
fn status_after(mut before: Statuses, status: Option<(u16, bool)>) -> Option<Statuses>
    ensures { result ≡ status_after before status }
{
    let (status, negated) = status?;
    if has_status(before.as_slice(), status, negated) {
        return Some(before);
    }
    if has_status(before.as_slice(), status, !negated) || before.is_full() {
        return None;
    }
    before.add(status, negated);
    Some(before)
}

/// A word after other statuses; an empty one adds nothing.
fn word_after(before: Statuses, word: &[u8]) -> Option<Statuses>
    ensures { result ≡ statuses_after (Some before) (word_first word.now []) }
{
    if word.is_empty() {
        return Some(before);
    }
    status_after(before, status_of(word))
}

/// The statuses of a list, 64 at most.
fn statuses_after(before: Statuses, text: &[u8]) -> Option<Statuses>
    ensures { result ≡ statuses_after (Some before) (words text.now) }
{
    let mut statuses = before;
    let mut rest = text;
    loop {
        match cut_at_separator(rest) {
            Some((word, behind)) => {
                statuses = word_after(statuses, word)?;
                rest = behind;
            }
            None => return word_after(statuses, rest),
        }
    }
}

/// The statuses of a `fail_on_status`, 1 to 64.
pub fn statuses_of(text: &[u8]) -> Option<Statuses>
    ensures { result ≡ statuses_of text.now }
{
    let none = Statuses {
        table: [(0, false); 64],
        count: 0,
    };
    let statuses = statuses_after(none, text)?;
    if statuses.count == 0 {
        None
    } else {
        Some(statuses)
    }
}
