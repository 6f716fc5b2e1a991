//! `HeadLines`: the field lines of a head, in the order in which they stand.
ghost use Rattle.std.specs.Prelude.{◌≡◌, ◌<◌, ◌≤◌, List, [], ◌∷◌, ◌++◌, length, IfErr, OnOk, OnErr, IfSome, IfNone, IsTrue, ◌↔◌, slice_get};
ghost use Rattle.std.specs.Option.{option_copied};

use jk_io::Bytes;
use std::alloc::{AllocFailed, Global};
use std::marker::Model;

/// The most field lines that a head may have.
pub const MAX_HEAD_LINES: usize = 100;

/// Field lines of a head, each a name and its value without outer blanks; at most 100 of them.
/// A contract sees a list of pairs.
#[derive(Drop)]
pub struct HeadLines {
    lines: Vec<(Bytes, Bytes)>,
}

impl Model for HeadLines {
    ghost use Rattle.std.specs.Prelude.{ℕ, List, length, ◌≤◌};
    ghost use Rattle.http_front.specs.declared.head_lines.TheConstants.{MAX_HEAD_LINES};

    ghost Value = { List (List ℕ × List ℕ) };

    ghost view = { λ h. h.lines.items };

    ghost invariant = { λ h. length h.lines.items ≤ MAX_HEAD_LINES };
}

impl HeadLines {
    /// No lines. No memory is taken.
    pub fn new(alloc: Global) -> HeadLines
        ensures { result ≡ [] }
    {
        HeadLines {
            lines: Vec::new(alloc),
        }
    }

    /// The lines of a `Vec`, in its memory.
    pub fn from_vec(lines: Vec<(Bytes, Bytes)>) -> HeadLines
        requires { length lines.items ≤ MAX_HEAD_LINES }
        ensures { result ≡ lines.items }
    {
        HeadLines { lines }
    }

    pub fn len(&self) -> usize
        ensures len { result ≡ length self.now }
        ensures few { length self.now ≤ MAX_HEAD_LINES }
    {
        self.lines.len()
    }

    pub fn is_empty(&self) -> bool
        ensures { IsTrue result ↔ (self.now ≡ []) }
    {
        self.lines.is_empty()
    }

    pub fn as_slice(&self) -> &[(Bytes, Bytes)]
        ensures lines { result.now ≡ self.now }
        ensures few { length self.now ≤ MAX_HEAD_LINES }
    {
        self.lines.as_slice()
    }

    /// The line at a place, from 0.
    pub fn get(&self, place: usize) -> Option<&(Bytes, Bytes)>
        ensures { option_copied result ≡ slice_get self.now place }
    {
        self.lines.get(place)
    }

    /// Adds a line at the end. Where memory is wanted the line comes back in the error.
    pub fn push(&mut self, line: (Bytes, Bytes)) -> Result<(), AllocFailed<(Bytes, Bytes)>>
        requires { length self.old < MAX_HEAD_LINES }
        ensures ok { OnOk result (self.new ≡ self.old ++ line ∷ []) }
        ensures err { OnErr result (self.new ≡ self.old) }
        ensures back { IfErr result (λ e. e.value ≡ line) }
    {
        self.lines.push(line)
    }

    /// Takes out the last line.
    pub fn pop(&mut self) -> Option<(Bytes, Bytes)>
        ensures some { IfSome result (λ line. self.old ≡ self.new ++ line ∷ []) }
        ensures none { IfNone result ((self.old ≡ []) × (self.new ≡ [])) }
    {
        self.lines.pop()
    }
}
