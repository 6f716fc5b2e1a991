//! Bytes that are held back before a sink.
//!
//! What the sink took and what is held, one after the other, is always what was put, in order.
ghost use Rattle.std.specs.Prelude.{◌≡◌, ◌<◌, ◌≤◌, ◌++◌, [], IfOk, IsOk, OnErr, OnOk, length, take, true};
ghost use Rattle.jk_io.specs.Told.{HasCause, appended};

use jk_io::{IoError, NoMemory, Sink, write_counted};
use std::alloc::Global;
use std::marker::Model;

/// How many bytes are held back at most.
pub const HELD_BYTES: usize = 73_728;

/// At most 73,728 bytes that wait to be written.
#[derive(Drop)]
pub struct HeldBytes {
    bytes: Vec<u8>,
    /// How many of them were written.
    gone: usize,
}

impl Model for HeldBytes {
    ghost use Rattle.std.specs.Prelude.{ℕ, ◌≤◌, List, drop, vec_len};

    ghost Value = { List ℕ };

    ghost view = { λ h. drop h.gone h.bytes.items };

    ghost invariant = { λ h. (h.gone ≤ vec_len h.bytes) × (vec_len h.bytes ≤ 73728) };
}

impl HeldBytes {
    /// None. It takes all the memory that it needs.
    pub fn new(alloc: Global) -> Result<HeldBytes, NoMemory>
        ensures { IfOk result (λ held. held ≡ []) }
    {
        Ok(HeldBytes {
            bytes: Vec::with_capacity(alloc, HELD_BYTES)?,
            gone: 0,
        })
    }

    /// Whether nothing is held.
    pub fn is_empty(&self) -> bool
        ensures { result ≡ true → self.now ≡ [] }
    {
        self.gone == self.bytes.len()
    }

    /// Drops all that is held.
    pub fn clear(&mut self)
        ensures { self.new ≡ [] }
    {
        self.bytes.clear();
        self.gone = 0;
    }

    /// Writes what is held. After a refusal a front of it was written, and the rest is held.
    pub fn flush<S: Sink>(&mut self, sink: &mut S) -> Result<(), IoError>
        ensures whole { appended (S.sent sink.new) self.new ≡ appended (S.sent sink.old) self.old }
        ensures empty { OnOk result (self.new ≡ []) }
        ensures same { (S.incoming sink.new ≡ S.incoming sink.old) × (S.received sink.new ≡ S.received sink.old) }
        ensures cause { HasCause (S.faults sink.old) (S.faults sink.new) result }
        ensures steady { IsOk result → S.faults sink.new ≡ S.faults sink.old }
    {
        let mut went = 0;
        match write_counted(sink, &self.bytes[self.gone..], &mut went) {
            Ok(()) => {
                self.clear();
                Ok(())
            }
            Err(error) => {
                self.gone += went as usize;
                Err(error)
            }
        }
    }

    /// Holds a front of a piece back, and answers how many bytes; those for which there is no room are written after what is
    /// held.
    pub fn put<S: Sink>(&mut self, sink: &mut S, piece: &[u8]) -> Result<usize, IoError>
        requires { 0 < length piece.now }
        ensures count { IfOk result (λ n. (0 < n) × (n ≤ length piece.now)) }
        ensures held { IfOk result (λ n. appended (S.sent sink.new) self.new ≡ appended (S.sent sink.old) (self.old ++ take n piece.now)) }
        ensures err { OnErr result (appended (S.sent sink.new) self.new ≡ appended (S.sent sink.old) self.old) }
        ensures same { (S.incoming sink.new ≡ S.incoming sink.old) × (S.received sink.new ≡ S.received sink.old) }
        ensures cause { HasCause (S.faults sink.old) (S.faults sink.new) result }
        ensures steady { IsOk result → S.faults sink.new ≡ S.faults sink.old }
    {
        if HELD_BYTES - self.bytes.len() >= piece.len() {
            self.bytes.extend_from_slice(piece)?;
            return Ok(piece.len());
        }
        self.flush(sink)?;
        self.put_first(sink, piece)
    }

    // As `put`, where nothing is held.
    fn put_first<S: Sink>(&mut self, sink: &mut S, piece: &[u8]) -> Result<usize, IoError>
        requires some { 0 < length piece.now }
        requires none { self.old ≡ [] }
        ensures count { IfOk result (λ n. (0 < n) × (n ≤ length piece.now)) }
        ensures held { IfOk result (λ n. appended (S.sent sink.new) self.new ≡ appended (S.sent sink.old) (take n piece.now)) }
        ensures err { OnErr result ((S.sent sink.new ≡ S.sent sink.old) × (self.new ≡ [])) }
        ensures same { (S.incoming sink.new ≡ S.incoming sink.old) × (S.received sink.new ≡ S.received sink.old) }
        ensures cause { HasCause (S.faults sink.old) (S.faults sink.new) result }
        ensures steady { IsOk result → S.faults sink.new ≡ S.faults sink.old }
    {
        if piece.len() > HELD_BYTES {
            return sink.write(piece);
        }
        self.bytes.clear();
        self.gone = 0;
        self.bytes.extend_from_slice(piece)?;
        Ok(piece.len())
    }
}
