//! A link in memory to a container's application.
ghost use Rattle.std.specs.Prelude.{◌≡◌, ◌<◌, ◌≤◌, ◌++◌, [], length, take, OnErr, IfOk, IsErrOf};

use crate::wire::{Wire, copy_front};
use ajp_container::{AppConfig, ContainerEnd, serve_ajp};
use jk_io::{Awaited, Bytes, IoError, Link, Meanings, NoMemory, Sink, Source};
use std::alloc::Global;
use std::marker::Model;

/// A link whose other end is the application: where a read finds nothing to give, the application serves the bytes that
/// were written since its last run, and what it sent is given. Its type keeps that what it gave, and has to give, is what the
/// application sent for the bytes that it served.
#[derive(Drop)]
pub struct AppLink<'a> {
    alloc: Global,
    app: &'a AppConfig,
    wire: Wire,
    /// How many bytes of the answer were given.
    given: usize,
}

impl<'a> Model for AppLink<'a> {
    ghost use Rattle.std.specs.Prelude.{◌≤◌, ◌++◌, length, take, drop};
    ghost use Rattle.drill.specs.Wires.{ApplicationAnswers, AppLinkState};

    ghost Value = { AppLinkState };

    ghost view = { λ l. record {
      sent = l.wire.done ++ l.wire.coming;
      unserved = l.wire.coming;
      received = take l.given l.wire.answered;
      unread = drop l.given l.wire.answered;
    } };

    ghost invariant = { λ l. (l.given ≤ length l.wire.answered) × ApplicationAnswers l.app.now l.wire.done l.wire.answered };
}

impl<'a> AppLink<'a> {
    /// A link on which nothing was written. It takes no memory.
    pub fn new(alloc: Global, app: &'a AppConfig) -> AppLink<'a>
        ensures { result ≡ record { sent = []; unserved = []; received = []; unread = [] } }
    {
        AppLink {
            alloc,
            app,
            wire: Wire::new(alloc),
            given: 0,
        }
    }

    /// Begins anew, with the memory that the link has.
    pub fn clear(&mut self)
        ensures { self.new ≡ record { sent = []; unserved = []; received = []; unread = [] } }
    {
        self.wire.clear();
        self.given = 0;
    }

    // Has the application serve what was written since its last run.
    fn serve(&mut self) -> Result<(), NoMemory>
        requires { self.old.unread ≡ [] }
        ensures served { self.new.unserved ≡ [] }
        ensures same { (self.new.sent ≡ self.old.sent) × (self.new.received ≡ self.old.received) }
    {
        let end = serve_ajp(self.alloc, &mut self.wire, self.app);
        self.wire.pass_over();
        match end {
            ContainerEnd::NoMemory => Err(NoMemory),
            _ => Ok(()),
        }
    }
}

impl<'a> Meanings for AppLink<'a> {
    ghost use Rattle.std.specs.Prelude.{None, Some};

    type Beside = ();

    // what is to come depends on what will be written
    ghost incoming = { λ _. None };

    ghost received = { λ l. Some l.received };

    ghost sent = { λ l. Some l.sent };

    ghost beside = { λ _. tt };

    ghost faults = { λ _. 0 };
}

impl<'a> Source for AppLink<'a> {
    fn read(&mut self, buf: &mut [u8]) -> Result<usize, IoError>
        requires { 0 < length buf.old }
        ensures count { IfOk result (λ n. n ≤ length buf.new) }
        ensures got { IfOk result (λ n. self.new.received ≡ self.old.received ++ take n buf.new) }

        // No byte comes only where the application served all that was written, and all that it sent was given.
        ensures end { IfOk result (λ n. n ≡ 0 → (self.new.unserved ≡ []) × (self.new.unread ≡ [])) }
        ensures kept_on_error { OnErr result (self.new.received ≡ self.old.received) }
        ensures same { self.new.sent ≡ self.old.sent }

        // It never fails; want of memory alone is refused.
        ensures wanted { IsErrOf result IoError.Failed → ⊥ }
    {
        if self.given == self.wire.answered().len() {
            self.serve()?;
        }
        let n = copy_front(&self.wire.answered()[self.given..], buf);
        self.given += n;
        Ok(n)
    }
}

impl<'a> Sink for AppLink<'a> {
    fn write(&mut self, piece: &[u8]) -> Result<usize, IoError> {
        self.wire.ask(piece)?;
        Ok(piece.len())
    }
}

impl<'a> Link for AppLink<'a> {
    ghost use Rattle.std.specs.Prelude.{false};

    // what it has to give is at hand
    ghost may_wait = { false };

    fn await_next(&mut self, _what: Awaited) {}
}
