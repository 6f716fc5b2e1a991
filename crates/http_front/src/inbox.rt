//! `Inbox`: the client's bytes that were read and not yet used.
ghost use Rattle.std.specs.Prelude.{◌≡◌, ◌==◌, ◌+◌, ◌-◌, ◌≤◌, ◌<◌, ℕ, List, [], ◌++◌, length, drop, take, IfOk, OnErr};
ghost use Rattle.std.specs.List.{between};
ghost use Rattle.jk_io.specs.Told.{prepended, IsEmpty};
ghost use Rattle.http_front.specs.Reads.{ReadsOnce};
ghost use Rattle.http_front.specs.Unread.{unread};

use jk_io::{IoError, NoMemory, Source};
use std::alloc::Global;
use std::marker::Model;

/// The most bytes of a head, with the empty lines before it.
pub const MAX_HEAD_BYTES: usize = 16_384;

/// The client's bytes that were read and not yet used. It holds at most 16,384 of them, in memory
/// that it takes once; bytes that are used are left where they lie.
#[derive(Drop)]
pub struct Inbox {
    buffer: Vec<u8>,
    start: usize,
    end: usize,
}

impl Model for Inbox {
    ghost use Rattle.std.specs.Prelude.{ℕ, List, length, ◌≤◌, ◌≡◌, vec_items};
    ghost use Rattle.std.specs.List.{between};
    ghost use Rattle.http_front.specs.declared.inbox.TheConstants.{MAX_HEAD_BYTES};

    ghost Value = { List ℕ };

    ghost view = { λ i. between i.start i.end i.buffer.items };

    ghost invariant = { λ i. (i.start ≤ i.end) × (i.end ≤ MAX_HEAD_BYTES) × (length i.buffer.items ≡ MAX_HEAD_BYTES) };
}

impl Inbox {
    /// No bytes yet.
    pub fn new(alloc: Global) -> Result<Inbox, NoMemory>
        ensures { IfOk result (λ inbox. inbox ≡ []) }
    {
        Ok(Inbox {
            buffer: vec![in alloc; 0; MAX_HEAD_BYTES]?,
            start: 0,
            end: 0,
        })
    }

    /// How many bytes are there.
    pub fn len(&self) -> usize
        ensures len { result ≡ length self.now }
        ensures few { length self.now ≤ MAX_HEAD_BYTES }
    {
        self.end - self.start
    }

    /// Whether no byte is there.
    pub fn is_empty(&self) -> bool
        ensures { result ≡ (length self.now == 0) }
    {
        self.start == self.end
    }

    /// The bytes, oldest first.
    pub fn as_slice(&self) -> &[u8]
        ensures value { result.now ≡ self.now }
        ensures few { length self.now ≤ MAX_HEAD_BYTES }
    {
        &self.buffer[self.start..self.end]
    }

    /// Forgets the bytes; the memory stays.
    pub fn clear(&mut self)
        ensures { self.new ≡ [] }
    {
        self.start = 0;
        self.end = 0;
    }

    /// Uses the first `n` bytes.
    pub fn skip(&mut self, n: usize)
        requires { n ≤ length self.old }
        ensures { self.new ≡ drop n self.old }
    {
        self.start += n;
    }

    /// Reads what the client has into the room after the bytes, and answers how many came; 0 is the end.
    pub fn read_more<C: Source>(&mut self, client: &mut C) -> Result<usize, IoError>
        requires { length self.old < MAX_HEAD_BYTES }
        ensures more { IfOk result (λ n. (came : List ℕ) × (length came ≡ n) × (self.new ≡ self.old ++ came)) }
        ensures end { IfOk result (λ n. n ≡ 0 → IsEmpty (C.incoming client.new)) }
        ensures unread { unread self.new (C.incoming client.new) ≡ unread self.old (C.incoming client.old) }
        ensures err { OnErr result (self.new ≡ self.old) }
        ensures reads { ReadsOnce C.Meanings client.old client.new result }
    {
        let held = self.end - self.start;
        self.start = make_room(&mut self.buffer, self.start, self.end);
        self.end = self.start + held;
        let count = read_behind(client, self.buffer.as_mut_slice(), self.end)?;
        self.end += count;
        Ok(count)
    }
}

/// Moves the bytes from `start` to `end` to the front of the buffer where no room is after them,
/// or none of them is left, and answers where they begin.
fn make_room(buffer: &mut Vec<u8>, start: usize, end: usize) -> usize
    requires ordered { start ≤ end }
    requires within { end ≤ length buffer.old.items }
    ensures kept { between result (result + (end - start)) buffer.new.items ≡ between start end buffer.old.items }
    ensures len { length buffer.new.items ≡ length buffer.old.items }
    ensures room { end - start < length buffer.old.items → result + (end - start) < length buffer.old.items }
    ensures fits { result + (end - start) ≤ length buffer.old.items }
{
    if start == end {
        return 0;
    }
    if end < buffer.len() {
        return start;
    }
    buffer.copy_within(start..end, 0);
    0
}

/// Reads into the buffer from `end` on.
fn read_behind<C: Source>(client: &mut C, buffer: &mut [u8], end: usize) -> Result<usize, IoError>
    requires { end < length buffer.old }
    ensures more { IfOk result (λ n. (came : List ℕ) × (length came ≡ n) × (take (end + n) buffer.new ≡ take end buffer.old ++ came)
        × (C.incoming client.old ≡ prepended came (C.incoming client.new))) }
    ensures within { IfOk result (λ n. end + n ≤ length buffer.old) }
    ensures end { IfOk result (λ n. n ≡ 0 → IsEmpty (C.incoming client.new)) }
    ensures err { OnErr result ((take end buffer.new ≡ take end buffer.old) × (C.incoming client.new ≡ C.incoming client.old)) }
    ensures reads { ReadsOnce C.Meanings client.old client.new result }
{
    client.read(&mut buffer[end..])
}
