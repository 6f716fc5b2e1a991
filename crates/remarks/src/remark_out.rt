//! Where remarks go.
ghost use Rattle.std.specs.Prelude.{◌≡◌, [], IsOk, OnErr, OnOk};
ghost use Rattle.jk_io.specs.Told.{appended, HasCause};
ghost use Rattle.remarks.specs.Added.{Adds, AddsText, IsFrontOfText};

use jk_io::{Bytes, IoError, Sink, write_all};
use std::alloc::Global;
use std::marker::Model;

/// Fewer bytes than these are held; this many or more are written.
const PIECE_BYTES: usize = 65_536;

/// A sink for remarks. The last of them are held, so that it gets large pieces. A contract sees what the sink took, after
/// it what is held, and how often the sink failed. After a write that failed nothing is held.
#[derive(Drop)]
pub struct RemarkOut<O: Sink + Drop> {
    sink: O,
    held: Bytes,
}

impl<O: Sink + Drop> Model for RemarkOut<O> {
    ghost use Rattle.jk_io.specs.Told.{appended};
    ghost use Rattle.remarks.specs.Added.{RemarkOutState};

    ghost Value = { RemarkOutState };

    ghost view = { λ r. record { said = appended (O.sent r.sink) r.held; faults = O.faults r.sink } };
}

/// Writes what is held, and holds nothing from then on.
fn write_held<O: Sink>(sink: &mut O, held: &mut Bytes) -> Result<(), IoError>
    ensures sent { AddsText result (O.sent sink.old) (O.sent sink.new) held.old }
    ensures none { held.new ≡ [] }
    ensures cause { HasCause (O.faults sink.old) (O.faults sink.new) result }
    ensures steady { IsOk result → O.faults sink.new ≡ O.faults sink.old }
{
    let written = write_all(sink, held.as_slice());
    held.clear();
    written
}

/// Holds a piece, and writes what is held once it is enough.
fn put_held<O: Sink>(sink: &mut O, held: &mut Bytes, piece: &[u8]) -> Result<(), IoError>
    ensures added { AddsText result (appended (O.sent sink.old) held.old) (appended (O.sent sink.new) held.new) piece.now }
    ensures cause { HasCause (O.faults sink.old) (O.faults sink.new) result }
    ensures steady { IsOk result → O.faults sink.new ≡ O.faults sink.old }
{
    held.extend(piece)?;
    if held.len() < PIECE_BYTES {
        return Ok(());
    }
    write_held(sink, held)
}

impl<O: Sink + Drop> RemarkOut<O> {
    /// No memory is taken.
    pub fn new(alloc: Global, sink: O) -> RemarkOut<O>
        ensures said { result.said ≡ O.sent sink }
        ensures faults { result.faults ≡ O.faults sink }
    {
        RemarkOut {
            sink,
            held: Bytes::new(alloc),
        }
    }

    /// Adds a piece at the end. After a write that failed the end of what was added is lost, so nothing more is to be added.
    pub fn put(&mut self, piece: &[u8]) -> Result<(), IoError>
        ensures { Adds result self.old self.new piece.now }
    {
        put_held(&mut self.sink, &mut self.held, piece)
    }

    /// The sink, which took all of it, or a front after an error.
    pub fn finish(self) -> (O, Result<(), IoError>)
        ensures all { OnOk result.1 (O.sent result.0 ≡ self.said) }
        ensures front { OnErr result.1 (IsFrontOfText self.said (O.sent result.0)) }
        ensures cause { HasCause self.faults (O.faults result.0) result.1 }
        ensures steady { IsOk result.1 → O.faults result.0 ≡ self.faults }
    {
        let RemarkOut { mut sink, held } = self;
        let written = write_all(&mut sink, held.as_slice());
        (sink, written)
    }
}
