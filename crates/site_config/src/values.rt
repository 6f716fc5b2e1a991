//! The words that directives take as values.
ghost use Rattle.std.specs.Prelude.{◌≡◌, ◌==◌, ◌||◌, ◌≤◌, ◌^◌, ◌<◌, length, List, Some, [], IfSome, IfOk, nat_lt};
ghost use Rattle.std.specs.Option.{option_map, is_some};
ghost use Rattle.std.specs.List.{list_any, list_all};
ghost use Rattle.site_config.specs.Values.{number_in, lower, is_word, says_yes, says_no, truth_of, kind_of, activation_of, method_of, is_ping, is_ping_letter, asks_ping, pings_of};

use jk_io::parse_decimal;
use lb_model::{Activation, Method};

/// The type of a worker.
#[derive(Clone, Copy)]
pub enum WorkerKind {
    Ajp13,
    Lb,
    Status,
}

/// When a member is pinged.
#[derive(Clone, Copy)]
pub struct Pings {
    /// On a link that is newly dialled.
    pub dialled: bool,
    /// Before each request.
    pub each: bool,
    /// On an idle link.
    pub idle: bool,
}

/// The number that the text writes, where it is one of this range.
pub fn number_in(low: u64, high: u64, text: &[u8]) -> Option<u64>
    ensures value { result ≡ number_in low high text.now }
    ensures low { IfSome result (λ n. low ≤ n) }
    ensures high { IfSome result (λ n. n ≤ high) }
{
    let n = parse_decimal(text)?;
    if low <= n && n <= high { Some(n) } else { None }
}

fn lower(b: u8) -> u8
    ensures { result ≡ lower b }
{
    if 65 <= b && b <= 90 { b + 32 } else { b }
}

/// Whether the text is this word, in either case.
fn is_word(word: &[u8], text: &[u8]) -> bool
    ensures { result ≡ is_word word.now text.now }
{
    if word.len() != text.len() {
        return false;
    }
    for (i, b) in text.iter().enumerate() {
        if lower(*b) != word[i] {
            return false;
        }
    }
    true
}

#[tactic(auto, unfolding(crate::specs::Values::says_yes))]
fn says_yes(text: &[u8]) -> bool
    ensures { result ≡ says_yes text.now }
{
    is_word(b"true", text)
        || (is_word(b"t", text)
            || (is_word(b"yes", text)
                || (is_word(b"y", text) || (is_word(b"on", text) || is_word(b"1", text)))))
}

#[tactic(auto, unfolding(crate::specs::Values::says_no))]
fn says_no(text: &[u8]) -> bool
    ensures { result ≡ says_no text.now }
{
    is_word(b"false", text)
        || (is_word(b"f", text)
            || (is_word(b"no", text)
                || (is_word(b"n", text) || (is_word(b"off", text) || is_word(b"0", text)))))
}

/// The truth value that the text writes.
pub fn truth_of(text: &[u8]) -> Option<bool>
    ensures { result ≡ truth_of text.now }
{
    if says_yes(text) {
        Some(true)
    } else if says_no(text) {
        Some(false)
    } else {
        None
    }
}

#[tactic(auto, unfolding(crate::specs::Values::kind_of))]
pub fn kind_of(text: &[u8]) -> Option<WorkerKind>
    ensures { result ≡ kind_of text.now }
{
    if text == b"ajp13".as_slice() {
        Some(WorkerKind::Ajp13)
    } else if text == b"lb".as_slice() {
        Some(WorkerKind::Lb)
    } else if text == b"status".as_slice() {
        Some(WorkerKind::Status)
    } else {
        None
    }
}

/// The activation whose first letter the text begins with, in either case.
pub fn activation_of(text: &[u8]) -> Option<Activation>
    ensures { result ≡ activation_of text.now }
{
    match lower(*text.first()?) {
        b'a' => Some(Activation::Active),
        b'd' => Some(Activation::Disabled),
        b's' => Some(Activation::Stopped),
        _ => None,
    }
}

/// The method whose first letter the text begins with, in either case.
pub fn method_of(text: &[u8]) -> Option<Method>
    ensures { result ≡ method_of text.now }
{
    match lower(*text.first()?) {
        b'r' => Some(Method::Request),
        b's' => Some(Method::Session),
        b't' => Some(Method::Traffic),
        b'b' => Some(Method::Busyness),
        _ => None,
    }
}

fn is_ping_letter(b: u8) -> bool
    ensures { result ≡ is_ping_letter b }
{
    lower(b) == b'c' || (lower(b) == b'p' || (lower(b) == b'i' || lower(b) == b'a'))
}

/// Whether the text has no other letters than those of pings.
fn is_ping(text: &[u8]) -> bool
    ensures { result ≡ is_ping text.now }
{
    text.iter().all(|b| is_ping_letter(*b))
}

/// Whether the text has this letter, which is given small, or `a`, which stands for all pings.
fn asks_ping(letter: u8, text: &[u8]) -> bool
    ensures { result ≡ asks_ping letter text.now }
{
    text.iter()
        .any(|b| lower(*b) == letter || lower(*b) == b'a')
}

/// The pings for which the text has the letters; none where it has another letter.
pub(crate) fn pings_of(text: &[u8]) -> Option<Pings>
    ensures { result ≡ pings_of text.now }
{
    if is_ping(text) {
        Some(Pings {
            dialled: asks_ping(b'c', text),
            each: asks_ping(b'p', text),
            idle: asks_ping(b'i', text),
        })
    } else {
        None
    }
}
