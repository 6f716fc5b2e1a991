//! The lines whose keys have no effect.
ghost use Rattle.std.specs.Prelude.{◌≡◌, ◌≤◌, ◌<◌, List, ℕ, [], ◌∷◌, ◌++◌, length, slice_get, slice_range, IfSome, OnOk, OnErr};
ghost use Rattle.std.specs.Option.{option_map};
ghost use Rattle.site_config.specs.Ignored.{keys_from, AreEnds, start_at};

use jk_io::NoMemory;
use std::alloc::Global;
use std::marker::Model;

/// A line, and where its key ends among the keys.
#[derive(Clone, Copy)]
pub(crate) struct KeyEnd {
    pub(crate) line: u32,
    pub(crate) end: u32,
}

/// A line, and where its key stands among the keys.
#[derive(Clone, Copy)]
struct KeySpan {
    line: u32,
    start: usize,
    end: usize,
}

/// Lines with their keys, in order. A contract sees a list of pairs. The keys stand one after another in one text, so that
/// a line takes 8 bytes and its key.
#[derive(Drop)]
pub struct IgnoredList {
    keys: Vec<u8>,
    ends: Vec<KeyEnd>,
}

impl Model for IgnoredList {
    ghost use Rattle.std.specs.Prelude.{List, ℕ, length};
    ghost use Rattle.site_config.specs.Ignored.{keys_from, AreEnds};

    ghost Value = { List (ℕ × List ℕ) };

    ghost view = { λ l. keys_from 0 l.keys.items l.ends.items };

    ghost invariant = { λ l. AreEnds 0 l.ends.items (length l.keys.items) };
}

/// Where the key at this place begins.
fn start_of(ends: &[KeyEnd], place: usize) -> u32
    requires { place < length ends.now }
    ensures { result ≡ start_at 0 ends.now place }
{
    if place == 0 {
        return 0;
    }
    ends[place - 1].end
}

/// Where the key at this place stands.
fn span_at(keys: &[u8], ends: &[KeyEnd], place: usize) -> Option<KeySpan>
    requires { AreEnds 0 ends.now (length keys.now) }
    ensures value { option_map (λ s. (s.line, slice_range keys.now s.start s.end)) result
        ≡ slice_get (keys_from 0 keys.now ends.now) place }
    ensures rises { IfSome result (λ s. s.start ≤ s.end) }
    ensures within { IfSome result (λ s. s.end ≤ length keys.now) }
{
    match ends.get(place) {
        None => None,
        Some(last) => Some(KeySpan {
            line: last.line,
            start: start_of(ends, place) as usize,
            end: last.end as usize,
        }),
    }
}

/// The line at this place, and its key.
fn key_at<'k>(keys: &'k [u8], ends: &[KeyEnd], place: usize) -> Option<(u32, &'k [u8])>
    requires { AreEnds 0 ends.now (length keys.now) }
    ensures { option_map (λ entry. (entry.0, entry.1.now)) result ≡ slice_get (keys_from 0 keys.now ends.now) place }
{
    match span_at(keys, ends, place) {
        None => None,
        Some(span) => Some((span.line, &keys[span.start..span.end])),
    }
}

impl IgnoredList {
    /// No line. No memory is taken.
    pub fn new(alloc: Global) -> IgnoredList
        ensures { result ≡ [] }
    {
        IgnoredList {
            keys: Vec::new(alloc),
            ends: Vec::new(alloc),
        }
    }

    pub fn len(&self) -> usize
        ensures { result ≡ length self.now }
    {
        self.ends.len()
    }

    /// The line at a place, from 0, and its key.
    pub fn get(&self, place: usize) -> Option<(u32, &[u8])>
        ensures { option_map (λ entry. (entry.0, entry.1.now)) result ≡ slice_get self.now place }
    {
        key_at(self.keys.as_slice(), self.ends.as_slice(), place)
    }

    /// Adds a line and its key at the end. Keys of more than 4 GiB count as want of memory.
    pub fn push(&mut self, line: u32, key: &[u8]) -> Result<(), NoMemory>
        ensures ok { OnOk result (self.new ≡ self.old ++ (line, key.now) ∷ []) }
        ensures err { OnErr result (self.new ≡ self.old) }
    {
        let Ok(end) = u32::try_from(self.keys.len() + key.len()) else {
            return Err(NoMemory);
        };
        self.ends.reserve(1)?;
        self.keys.extend_from_slice(key)?;
        self.ends.push(KeyEnd { line, end }).unwrap();
        Ok(())
    }
}
