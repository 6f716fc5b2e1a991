//! Streams of bytes: what may be told of one, and how it is read and written.
//!
//! A meaning that an object doesn't tell is None, and an equation on it then says nothing. So each clause here
//! holds of a link in memory, which tells what it gives and took, and of a socket, which tells nothing.
ghost use Rattle.std.specs.Prelude.{◌≡◌, ℕ, ◌<◌, ◌≤◌, List, Option, Bool, true, false, length, take, IsOk, IsErrOf, IfOk, OnErr};
ghost use Rattle.jk_io.specs.Told.{appended, prepended, IsEmpty, HasCause};

use crate::failures::IoError;

/// What may be told of a stream.
pub trait Meanings {
    /// Plain data that no read and no write changes.
    type Beside;

    // the bytes that are still to come
    ghost incoming: { Self → Option (List ℕ) };

    // the bytes that the reads gave
    ghost received: { Self → Option (List ℕ) };

    // the bytes that the writes took
    ghost sent: { Self → Option (List ℕ) };

    ghost beside: { Self → Self.Beside };

    // how often a call failed; it never falls
    ghost faults: { Self → ℕ };

    // a read or a write may give or take bytes; each link but a reach between its talks is open
    ghost is_open: { Self → Bool } = { λ _. true };
}

/// What bytes are read from.
pub trait Source: Meanings {
    /// Puts the next bytes at the front of `buf` and answers how many; 0 is the end.
    fn read(&mut self, buf: &mut [u8]) -> Result<usize, IoError>
        requires { 0 < length buf.old }

        ensures count { IfOk result (λ n. n ≤ length buf.new) }
        ensures gave { IfOk result (λ n. Self.incoming self.old ≡ prepended (take n buf.new) (Self.incoming self.new)) }
        ensures got { IfOk result (λ n. Self.received self.new ≡ appended (Self.received self.old) (take n buf.new)) }
        ensures end { IfOk result (λ n. n ≡ 0 → IsEmpty (Self.incoming self.new)) }

        // What isn't open fails. After a refusal no byte was given.
        ensures shut { Self.is_open self.old ≡ false → IsErrOf result IoError.Failed }
        ensures kept_on_error { OnErr result ((Self.incoming self.new ≡ Self.incoming self.old) × (Self.received self.new ≡ Self.received self.old)) }
        ensures same { (Self.sent self.new ≡ Self.sent self.old) × (Self.beside self.new ≡ Self.beside self.old) }
        ensures cause { HasCause (Self.faults self.old) (Self.faults self.new) result }
        ensures steady { IsOk result → Self.faults self.new ≡ Self.faults self.old };
}

/// What bytes are written to.
pub trait Sink: Meanings {
    /// Takes bytes from the front of `piece` and answers how many.
    fn write(&mut self, piece: &[u8]) -> Result<usize, IoError>
        requires { 0 < length piece.now }

        ensures count { IfOk result (λ n. (0 < n) × (n ≤ length piece.now)) }
        ensures put { IfOk result (λ n. Self.sent self.new ≡ appended (Self.sent self.old) (take n piece.now)) }

        // What isn't open fails. After a refusal no byte was taken.
        ensures shut { Self.is_open self.old ≡ false → IsErrOf result IoError.Failed }
        ensures kept_on_error { OnErr result (Self.sent self.new ≡ Self.sent self.old) }
        ensures same { (Self.incoming self.new ≡ Self.incoming self.old) × (Self.received self.new ≡ Self.received self.old)
            × (Self.beside self.new ≡ Self.beside self.old) }
        ensures cause { HasCause (Self.faults self.old) (Self.faults self.new) result }
        ensures steady { IsOk result → Self.faults self.new ≡ Self.faults self.old };

    /// Sees to it that all that was taken goes out. After Ok it did, as far as the object can tell. What holds nothing back
    /// has nothing to do.
    fn flush(&mut self) -> Result<(), IoError>
        ensures same_sent { Self.sent self.new ≡ Self.sent self.old }
        ensures same { (Self.incoming self.new ≡ Self.incoming self.old) × (Self.received self.new ≡ Self.received self.old)
            × (Self.beside self.new ≡ Self.beside self.old) }
        ensures cause { HasCause (Self.faults self.old) (Self.faults self.new) result }
        ensures steady { IsOk result → Self.faults self.new ≡ Self.faults self.old }
    {
        Ok(())
    }
}

/// What is waited for next on a link, with the milliseconds after which the wait fails; 0 is without limit. A client's
/// link has its own limits.
#[derive(Clone, Copy, Debug, PartialEq, Eq)]
pub enum Awaited {
    /// A link that is dialled; `keepalive`: the system is to see whether its other end is still there.
    Link { millis: u64, keepalive: bool },
    /// A container's CPong.
    Pong { millis: u64 },
    /// A container's next message.
    Reply { millis: u64 },
    /// More of a request's body.
    Body,
    /// A client's next request.
    Client,
}

/// A stream both ways, such as one end of a connection.
pub trait Link: Source + Sink {
    ghost use Rattle.std.specs.Prelude.{◌≡◌, true, Bool};
    ghost use Rattle.jk_io.specs.declared.traits.streams.Awaited.{Awaited};

    // a read may ever wait; where it is false none does
    ghost may_wait: { Bool } = { true };

    // a look at the first found it quiet, and left the second; where it isn't told, each may be so
    ghost found_quiet: { Self → Self → Type 0 } = { λ _ _. Unit {0} };

    // the first was told what is awaited, and became the last; where it isn't told, each may be so
    ghost heard: { Self → Awaited → Self → Type 0 } = { λ _ _ _. Unit {0} };

    /// Whether the next read would wait, as far as can be seen without waiting. A link in memory has all its bytes at
    /// hand, and says no.
    fn waits(&mut self) -> bool
        ensures said { result ≡ true → Self.may_wait ≡ true }
        ensures same_bytes { (Self.incoming self.new ≡ Self.incoming self.old) × (Self.received self.new ≡ Self.received self.old)
            × (Self.sent self.new ≡ Self.sent self.old) }
        ensures same { (Self.beside self.new ≡ Self.beside self.old) × (Self.faults self.new ≡ Self.faults self.old) }
    {
        false
    }

    /// Is told what is waited for next. A read, a write or a dial that then waits longer fails. In memory nothing waits.
    fn await_next(&mut self, what: Awaited)
        ensures heard { Self.heard self.old what self.new }
        ensures same_bytes { (Self.incoming self.new ≡ Self.incoming self.old) × (Self.received self.new ≡ Self.received self.old)
            × (Self.sent self.new ≡ Self.sent self.old) }
        ensures same { (Self.beside self.new ≡ Self.beside self.old) × (Self.faults self.new ≡ Self.faults self.old) };

    /// Whether no byte is there to read and the other end didn't close, as far as can be seen without waiting. A link
    /// that isn't quiet serves no other talk; one that can't be looked at says that it isn't.
    fn is_quiet(&mut self) -> bool
        ensures found { result ≡ true → Self.found_quiet self.old self.new }
        ensures same_bytes { (Self.incoming self.new ≡ Self.incoming self.old) × (Self.received self.new ≡ Self.received self.old)
            × (Self.sent self.new ≡ Self.sent self.old) }
        ensures same { (Self.beside self.new ≡ Self.beside self.old) × (Self.faults self.new ≡ Self.faults self.old) }
    {
        false
    }
}
