//! Calls of the link of a running talk, counted where they fail and noted on the tape.
ghost use Rattle.std.specs.Prelude.{◌≡◌, ◌<◌, IsOk, IsErrOf, length};
ghost use Rattle.jk_io.specs.Told.{HasCause};
ghost use Rattle.conn_pool.specs.Reaches.{FlushesLink, ReadsNoted, WritesNoted};

use crate::lent::Lent;
use crate::tape::Tape;
use jk_io::{IoError, Link};

/// Counts an answer that is Failed, and hands it on.
pub(crate) fn counted<T>(answer: Result<T, IoError>, failed: &mut u64) -> Result<T, IoError>
    ensures same { result ≡ answer }
    ensures cause { HasCause failed.old failed.new result }
    ensures steady { IsOk result → failed.new ≡ failed.old }
{
    if let Err(IoError::Failed) = answer {
        *failed = failed.saturating_add(1);
    }
    answer
}

/// The answer of a read or a write where no talk runs.
pub(crate) fn outside_talk(failed: &mut u64) -> Result<usize, IoError>
    ensures failed { IsErrOf result IoError.Failed }
    ensures cause { HasCause failed.old failed.new result }
{
    counted(Err(IoError::Failed), failed)
}

/// One read of the running talk's link, noted.
pub(crate) fn read_lent<L: Link + Drop, T: Tape>(
    lent: &mut Lent<L>,
    tape: &mut T,
    failed: &mut u64,
    buf: &mut [u8],
) -> Result<usize, IoError>
    requires some { 0 < length buf.old }
    requires running { T.is_running tape.old }

    ensures noted { ReadsNoted lent.old lent.new (T.received tape.old) (T.received tape.new) failed.old failed.new buf.new result }
    ensures same { (T.talks tape.new ≡ T.talks tape.old) × (T.begun tape.new ≡ T.begun tape.old) × (T.sent tape.new ≡ T.sent tape.old) }
    ensures running { T.is_running tape.new }
{
    tape.room(buf.len())?;
    let n = counted(lent.read(buf), failed)?;
    tape.received(&buf[..n]);
    Ok(n)
}

/// One write to the running talk's link, noted.
pub(crate) fn write_lent<L: Link + Drop, T: Tape>(
    lent: &mut Lent<L>,
    tape: &mut T,
    failed: &mut u64,
    piece: &[u8],
) -> Result<usize, IoError>
    requires some { 0 < length piece.now }
    requires running { T.is_running tape.old }

    ensures noted { WritesNoted lent.old lent.new (T.sent tape.old) (T.sent tape.new) failed.old failed.new piece.now result }
    ensures same { (T.talks tape.new ≡ T.talks tape.old) × (T.begun tape.new ≡ T.begun tape.old) × (T.received tape.new ≡ T.received tape.old) }
    ensures running { T.is_running tape.new }
{
    tape.room(piece.len())?;
    let n = counted(lent.write(piece), failed)?;
    tape.sent(&piece[..n]);
    Ok(n)
}

/// A flush of the running talk's link.
pub(crate) fn flush_lent<L: Link + Drop>(
    lent: &mut Lent<L>,
    failed: &mut u64,
) -> Result<(), IoError>
    ensures flushes { FlushesLink lent.old lent.new result }
    ensures cause { HasCause failed.old failed.new result }
    ensures steady { IsOk result → failed.new ≡ failed.old }
{
    counted(lent.flush(), failed)
}
