//! Where a worker puts the rows of its requests: a log, or nowhere.
ghost use Rattle.std.specs.Prelude.{◌≡◌, ℕ, List, Option, None, Some};
ghost use Rattle.gear_parts.specs.Logs.{BreaksCalmly, BreaksLoudly};

use jk_io::{IoError, Peer};
use lb_model::RowSink;

/// A sink of rows that is told whose requests they are, and that may break.
pub trait WorkerLog: RowSink {
    ghost use Rattle.std.specs.Prelude.{◌≡◌, ℕ, List, Option, None, Some};
    ghost use Rattle.gear_parts.specs.Logs.{BreaksCalmly, BreaksLoudly};
    ghost use Rattle.jk_io.specs.declared.failures.IoError.{IoError as AnyError};
    ghost use Rattle.jk_io.specs.declared.failures.IoError.TheVariants as io;
    ghost use Rattle.jk_io.specs.declared.traits.surroundings.Peer.{Peer as AnyPeer};
    ghost use Rattle.lb_model.specs.declared.served.Served.{Served as AnyServed};

    // before, whose the next rows are, and after; where it isn't told, any may be
    ghost greets: { Self → AnyPeer → Self → Type 0 } = { λ _ _ _. Unit {0} };

    // why no row is put any more; None while each is
    ghost broken_by: { Self → Option AnyError };

    // how often what it writes to failed
    ghost log_faults: { Self → ℕ };

    /// Is told whose requests the next rows are. Where there is no memory for that, it is broken.
    fn greet(&mut self, peer: &Peer)
        ensures greeted { greets self.old peer.now self.new }
        ensures calm { broken_by self.new ≡ Some io.Failed → broken_by self.old ≡ Some io.Failed }
        ensures steady { log_faults self.new ≡ log_faults self.old };

    /// Why no row is put any more, where it is so.
    fn broken(&self) -> Option<IoError>
        ensures { result ≡ broken_by self.now };

    // a row breaks it by a fault only where the faults rose
    ghost breaks_loudly: { (s t : Self) (rows : List AnyServed) → Self.gained s rows t
        → BreaksLoudly (broken_by s) (broken_by t) (log_faults s) (log_faults t) };

    // want of memory, or a log that isn't broken, hides no fault
    ghost breaks_calmly: { (s t : Self) (rows : List AnyServed) → Self.gained s rows t
        → BreaksCalmly (broken_by t) (log_faults s) (log_faults t) };
}
