//! A ping on an idle link.
ghost use Rattle.std.specs.Prelude.{◌≡◌, OnOk, IsOk};
ghost use Rattle.jk_io.specs.Told.{appended, HasCause};
ghost use Rattle.conn_pool.specs.Judging.{at};
ghost use Rattle.conn_pool.specs.Pings.{cping, IsPinged, IsPonged};

use jk_io::{Awaited, IoError, Link, Sink, Source, Stop, fill, write_all};

/// What came of a ping.
#[derive(Clone, Copy, PartialEq, Eq)]
pub(crate) enum Pinged {
    Answered,
    Dead,
    Wanted,
}

const CPING: [u8; 5] = [0x12, 0x34, 0, 1, 0x0a];

const CPONG: [u8; 5] = [0x41, 0x42, 0, 1, 0x09];

fn send<L: Link>(link: &mut L) -> Result<(), IoError>
    ensures sent { OnOk result (L.sent link.new ≡ appended (L.sent link.old) cping) }
    ensures same { (L.incoming link.new ≡ L.incoming link.old) × (L.received link.new ≡ L.received link.old)
        × (L.beside link.new ≡ L.beside link.old) }
    ensures cause { HasCause (L.faults link.old) (L.faults link.new) result }
    ensures steady { IsOk result → L.faults link.new ≡ L.faults link.old }
{
    write_all(link, &CPING)?;
    link.flush()
}

/// Takes five bytes, which are to be CPong.
fn take_pong<L: Link>(link: &mut L) -> Pinged
    ensures ponged { IsPonged (at L.Meanings link.old) (at L.Meanings link.new) result }
    ensures same { (L.sent link.new ≡ L.sent link.old) × (L.beside link.new ≡ L.beside link.old) }
{
    let mut bytes = [0; 5];
    match fill(link, &mut bytes).stop {
        Stop::Full if bytes == CPONG => Pinged::Answered,
        Stop::NoMemory => Pinged::Wanted,
        Stop::Full | Stop::End | Stop::Fault => Pinged::Dead,
    }
}

/// Sends a CPing and takes the answer, which is waited for so many milliseconds.
pub(crate) fn ping<L: Link>(link: &mut L, millis: u64) -> Pinged
    ensures pinged { IsPinged (at L.Meanings link.old) (at L.Meanings link.new) result }
    ensures beside { L.beside link.new ≡ L.beside link.old }
{
    match send(link) {
        Ok(()) => {}
        Err(IoError::Failed) => return Pinged::Dead,
        Err(IoError::NoMemory) => return Pinged::Wanted,
    }
    link.await_next(Awaited::Pong { millis });
    take_pong(link)
}
