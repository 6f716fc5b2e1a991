//! Buffers that are filled from a source.
ghost use Rattle.std.specs.Prelude.{◌≡◌, ◌≢◌, ◌≤◌, ◌↔◌, ◌⊎◌, length, take};
ghost use Rattle.jk_io.specs.Told.{appended, prepended, IsEmpty, Rose};

use crate::failures::IoError;
use crate::traits::streams::Source;

/// Why `fill` read no further.
#[derive(Clone, Copy, PartialEq, Eq)]
pub enum Stop {
    /// The buffer is full.
    Full,
    /// The bytes ended.
    End,
    /// A read failed.
    Fault,
    NoMemory,
}

/// What `fill` read: the bytes at the front of the buffer, and why no more.
#[derive(Clone, Copy, PartialEq, Eq)]
pub struct Filled {
    pub count: usize,
    pub stop: Stop,
}

/// Reads until the buffer is full, unless the bytes end or a read is refused before that.
pub fn fill<S: Source>(source: &mut S, buf: &mut [u8]) -> Filled
    ensures count { result.count ≤ length buf.new }
    ensures full { (result.stop ≡ Stop.Full) ↔ (result.count ≡ length buf.new) }
    ensures end { result.stop ≡ Stop.End → IsEmpty (S.incoming source.new) }
    ensures fault { result.stop ≡ Stop.Fault → Rose (S.faults source.old) (S.faults source.new) }
    ensures wanted { result.stop ≡ Stop.NoMemory → S.faults source.new ≡ S.faults source.old }

    // Whatever the stop is, the bytes that came are those at the front.
    ensures gave { S.incoming source.old ≡ prepended (take result.count buf.new) (S.incoming source.new) }
    ensures got { S.received source.new ≡ appended (S.received source.old) (take result.count buf.new) }
    ensures same { (S.sent source.new ≡ S.sent source.old) × (S.beside source.new ≡ S.beside source.old) }
    ensures no_fewer { S.faults source.old ≤ S.faults source.new }
    ensures steady { (result.stop ≡ Stop.Full) ⊎ (result.stop ≡ Stop.End) → S.faults source.new ≡ S.faults source.old }
{
    let mut count = 0;
    while count < buf.len() {
        match source.read(&mut buf[count..]) {
            Ok(0) => return Filled {
                count,
                stop: Stop::End,
            },
            Ok(more) => count += more,
            Err(error) => return Filled {
                count,
                stop: stop_of(error),
            },
        }
    }
    Filled {
        count,
        stop: Stop::Full,
    }
}

// Why a read that is refused stops a filling.
fn stop_of(error: IoError) -> Stop
    ensures fault { result ≡ Stop.Fault → error ≡ IoError.Failed }
    ensures wanted { result ≡ Stop.NoMemory → error ≡ IoError.NoMemory }
    ensures refused { (result ≢ Stop.Full) × (result ≢ Stop.End) }
{
    match error {
        IoError::Failed => Stop::Fault,
        IoError::NoMemory => Stop::NoMemory,
    }
}
