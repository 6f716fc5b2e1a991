//! Where a head stands in a client's bytes: the search for its end.

ghost use Rattle.std.specs.Prelude.{ℕ, ◌≡◌, ◌+◌, ◌-◌, ◌≤◌, ◌<◌, ◌==◌, List, ◌++◌, length, drop, false, None};
ghost use Rattle.std.specs.Bool.{OnFalse, OnTrue};
ghost use Rattle.http_front.specs.Cut.{begins_empty, blank_len, empty_line_len, head_len, header_lines};
ghost use Rattle.http_front.specs.Search.{Skipped, Searched, IsSearchOf};

const LF: u8 = b'\n';

const CR: u8 = b'\r';

/// How far the search for a head's end came.
#[derive(Clone, Copy)]
pub enum Search {
    /// The bytes of the head, its empty line among them.
    Ends(usize),
    /// No empty line yet: the search goes on at this place once more bytes are there.
    Open(usize),
}

/// Whether an empty line stands at this place.
fn is_empty_line_at(bytes: &[u8], at: usize) -> bool
    requires { at ≤ length bytes.now }
    ensures value { result ≡ begins_empty (drop at bytes.now) }
    ensures within { OnTrue result (at + empty_line_len (drop at bytes.now) ≤ length bytes.now) }
{
    if at < bytes.len() && bytes[at] == LF {
        return true;
    }
    at < bytes.len() && bytes[at] == CR && at + 1 < bytes.len() && bytes[at + 1] == LF
}

/// Whether the bytes from this place on may still become an empty line.
fn is_open_at(bytes: &[u8], at: usize) -> bool
    requires within { at ≤ length bytes.now }
    requires text { begins_empty (drop at bytes.now) ≡ false }
    ensures left { OnTrue result (head_len (drop at bytes.now) ≡ None) }
    ensures decided { OnFalse result ((more : List ℕ) → begins_empty (drop at bytes.now ++ more) ≡ false) }
{
    at == bytes.len() || bytes[at] == CR && at + 1 == bytes.len()
}

/// The bytes of the empty line at this place.
fn empty_line_len_at(bytes: &[u8], at: usize) -> usize
    requires { at < length bytes.now }
    ensures { result ≡ empty_line_len (drop at bytes.now) }
{
    if bytes[at] == LF { 1 } else { 2 }
}

/// The place after the empty lines that stand at `from`.
pub fn skip_empty_lines(bytes: &[u8], from: usize) -> usize
    requires within { from ≤ length bytes.now }
    requires skipped { Skipped bytes.now from }
    ensures within { (from ≤ result) × (result ≤ length bytes.now) }
    ensures stops { blank_len (drop result bytes.now) ≡ 0 }
    ensures skipped { Skipped bytes.now result }
{
    let mut at = from;
    while at < bytes.len() {
        if !is_empty_line_at(bytes, at) {
            return at;
        }
        at += 1;
    }
    at
}

/// Looks for a head's end from a place before which it does not end.
pub fn find_end(front: &[u8], from: usize) -> Search
    requires within { from ≤ length front.now }
    requires searched { Searched front.now from }
    ensures { IsSearchOf front.now result }
{
    let mut at = from;
    while at < front.len() {
        if front[at] == LF {
            if is_empty_line_at(front, at + 1) {
                return Search::Ends(at + 1 + empty_line_len_at(front, at + 1));
            }
            if is_open_at(front, at + 1) {
                return Search::Open(at);
            }
        }
        at += 1;
    }
    Search::Open(at)
}

/// The lines of a head between its first line and its empty line.
pub fn count_header_lines(front: &[u8]) -> usize
    ensures { result ≡ header_lines front.now }
{
    front.iter().filter(|b| **b == LF).count().saturating_sub(2)
}
