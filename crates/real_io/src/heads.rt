//! Where a client's head ends, so that nobody takes one up of which not all came.
ghost use Rattle.std.specs.Prelude.{◌≡◌, ◌+◌, ◌<◌, ◌≤◌, ◌≢◌, ◌⊎◌, ◌↔◌, IfNone, IfSome, IsTrue, ℕ, length, slice_index};
ghost use Rattle.real_io.specs.Heads.{EndsHead, IsEmptyLine, IsEndAt, IsText};

/// The bytes after which a head is too long for one.
pub const MAX_HEAD_BYTES: usize = 16_384;

const LF: u8 = b'\n';

const CR: u8 = b'\r';

/// How many bytes there are up to the end of the first head, with its empty line; none: it isn't whole.
pub fn head_end(bytes: &[u8]) -> Option<usize>
    ensures some { IfSome result (λ n. EndsHead bytes.now n × (n ≤ length bytes.now)) }
    ensures none { IfNone result ((n : ℕ) → EndsHead bytes.now n → ⊥) }
{
    let mut at = text_start(bytes);
    while at < bytes.len() {
        if let Some(len) = end_at(bytes, at) {
            return Some(at + 1 + len);
        }
        at += 1;
    }
    None
}

// Where the first byte stands that ends no line.
fn text_start(bytes: &[u8]) -> usize
    ensures before { (at : ℕ) → at < result → IsText bytes.now at → ⊥ }
    ensures within { result ≤ length bytes.now }
    ensures text { result < length bytes.now → IsText bytes.now result }
{
    let mut at = 0;
    while at < bytes.len() {
        if bytes[at] != LF && bytes[at] != CR {
            return at;
        }
        at += 1;
    }
    at
}

// The bytes of the empty line after the line that ends at this place.
fn end_at(bytes: &[u8], at: usize) -> Option<usize>
    requires { at < length bytes.now }
    ensures some { IfSome result (IsEndAt bytes.now at) }
    ensures none { IfNone result ((len : ℕ) → IsEndAt bytes.now at len → ⊥) }
{
    if bytes[at] != LF {
        return None;
    }
    empty_line_at(bytes, at + 1)
}

// The bytes of the empty line at this place.
fn empty_line_at(bytes: &[u8], at: usize) -> Option<usize>
    requires { at ≤ length bytes.now }
    ensures some { IfSome result (IsEmptyLine bytes.now at) }
    ensures none { IfNone result ((len : ℕ) → IsEmptyLine bytes.now at len → ⊥) }
{
    if at == bytes.len() {
        return None;
    }
    if bytes[at] == LF {
        return Some(1);
    }
    if bytes[at] == CR && bytes.len() - at > 1 && bytes[at + 1] == LF {
        return Some(2);
    }
    None
}
