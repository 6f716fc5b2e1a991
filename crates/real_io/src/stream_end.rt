//! This side's end of a TCP stream: the stream, as it is waited for, and how many calls of it failed.
ghost use Rattle.std.specs.Prelude.{◌≡◌, ◌≤◌, IfOk, IsOk, Some, length};
ghost use Rattle.jk_io.specs.Told.{HasCause};
ghost use Rattle.real_io.specs.Patiences.{EndHears};
ghost use Rattle.real_io.specs.Waitless.{IfCame};
ghost use Rattle.std.specs.Net.Tcp.{stream_raw_fd};

use crate::ending::Ending;
use crate::failed_calls::FailedCalls;
use crate::waited_stream::{AtHand, LookWait, WaitedStream};
use jk_io::{Awaited, ClientLimits, IoError, Meanings, NoMemory, Sink};
use std::alloc::Global;
use std::net::{IpAddr, TcpStream};
use std::os::fd::RawFd;

/// This side's end of a TCP stream. It tells nothing of what is read and written.
#[derive(Drop)]
pub struct StreamEnd {
    stream: WaitedStream,
    failed: FailedCalls,
}

impl StreamEnd {
    /// An end that waits without limit, until it is told otherwise. Small writes are sent without delay. For want of memory the
    /// stream is closed.
    pub fn new(alloc: Global, stream: TcpStream) -> Result<StreamEnd, NoMemory>
        ensures { IfOk result (λ end. end.failed ≡ 0) }
    {
        Ok(StreamEnd::over(WaitedStream::new(alloc, stream)?))
    }

    /// The end of a stream, of which no call failed yet.
    pub(crate) fn over(stream: WaitedStream) -> StreamEnd
        ensures { result ≡ record { stream = stream; failed = 0 } }
    {
        StreamEnd {
            stream,
            failed: FailedCalls::none(),
        }
    }

    /// A client's end, which keeps to these limits. For want of memory the stream is closed.
    pub fn of_client(
        alloc: Global,
        stream: TcpStream,
        peer: IpAddr,
        limits: ClientLimits,
        ending: Ending,
    ) -> Result<StreamEnd, NoMemory>
        ensures { IfOk result (λ end. (end.failed ≡ 0) × (end.stream.waits.value.peer ≡ Some peer)) }
    {
        Ok(StreamEnd::over(WaitedStream::of_client(alloc, stream, peer, limits, ending)?))
    }

    /// Who is at the other end, where it is a client.
    pub fn peer(&self) -> Option<IpAddr>
        ensures { result ≡ self.now.stream.waits.value.peer }
    {
        self.stream.peer()
    }

    /// The system's number of the stream.
    pub fn number(&self) -> RawFd
        ensures { result ≡ stream_raw_fd self.now.stream.stream }
    {
        self.stream.number()
    }

    /// Whether the other side's bytes ended, as far as a read saw it.
    pub fn has_ended(&self) -> bool
        ensures { result ≡ self.now.stream.has_ended }
    {
        self.stream.has_ended()
    }

    /// Ends what this side sends.
    pub fn shut(&self) {
        self.stream.shut();
    }

    /// Is told what is waited for next.
    pub fn await_next(&mut self, what: Awaited)
        ensures heard { EndHears self.old what self.new }
        ensures same { self.new.failed ≡ self.old.failed }
    {
        self.stream.await_next(what);
    }

    /// Reads, and waits for bytes as long as it may.
    pub fn receive(&mut self, buf: &mut [u8]) -> Result<usize, IoError>
        ensures count { IfOk result (λ n. n ≤ length buf.new) }
        ensures cause { HasCause self.old.failed self.new.failed result }
        ensures steady { IsOk result → self.new.failed ≡ self.old.failed }
    {
        match self.stream.receive(buf) {
            Some(n) => Ok(n),
            None => Err(self.failed.fail()),
        }
    }

    /// Reads what is there, without waiting.
    pub fn at_hand(&mut self, buf: &mut [u8]) -> AtHand
        ensures count { IfCame result (λ n. n ≤ length buf.new) }
        ensures same { self.new.failed ≡ self.old.failed }
    {
        self.look(buf, LookWait::AtOnce)
    }

    /// Reads what comes while it waits so long.
    pub(crate) fn look(&mut self, buf: &mut [u8], wait: LookWait) -> AtHand
        ensures count { IfCame result (λ n. n ≤ length buf.new) }
        ensures same { self.new.failed ≡ self.old.failed }
    {
        match wait {
            LookWait::AtOnce => self.stream.at_hand(buf),
            LookWait::Brief => self.stream.soon(buf),
        }
    }

    /// Whether no byte is there and the other side didn't close, as far as can be seen now.
    pub fn is_quiet(&self) -> bool {
        self.stream.is_quiet()
    }
}

impl Meanings for StreamEnd {
    ghost use Rattle.std.specs.Prelude.{None};

    type Beside = ();

    ghost incoming = { λ _. None };

    ghost received = { λ _. None };

    ghost sent = { λ _. None };

    ghost beside = { λ _. tt };

    ghost faults = { λ e. e.failed };
}

impl Sink for StreamEnd {
    fn write(&mut self, piece: &[u8]) -> Result<usize, IoError> {
        match self.stream.send(piece) {
            Some(n) => Ok(n),
            None => Err(self.failed.fail()),
        }
    }
}
