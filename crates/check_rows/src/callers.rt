//! Small callers that are proved from the traits alone.
ghost use Rattle.std.specs.Prelude.{◌≡◌, ◌<◌, ℕ, List, [], ◌∷◌, true, false, Ok, IsOk, IfOk, OnOk, is_some, length, take, slice_index};
ghost use Rattle.jk_io.specs.declared.traits.surroundings.Peer.{Peer};
ghost use Rattle.jk_io.specs.declared.reaching.Begun.{Begun};
ghost use Rattle.jk_io.specs.Talks.{talk_of};
ghost use Rattle.jk_io.specs.Told.{appended, prepended, IsEmpty, HasCause};
ghost use Rattle.jk_io.specs.MemReaches.{IsQuiet};

use jk_io::{
    Bytes, Door, FileError, IoError, Link, MemReach, Reach, Source, Talk, TalkAsked, read_whole,
    write_all,
};
use std::alloc::Global;

/// Reads a link to its end and writes back what came.
pub fn echo<L: Link>(alloc: Global, link: &mut L) -> Result<(), FileError>
    ensures echoed { OnOk result ((bytes : List ℕ) × (L.incoming link.old ≡ prepended bytes (L.incoming link.new))
        × IsEmpty (L.incoming link.new) × (L.sent link.new ≡ appended (L.sent link.old) bytes)) }
{
    let bytes = read_whole(alloc, link)?;
    match write_all(link, bytes.as_slice()) {
        Ok(()) => Ok(()),
        Err(IoError::Failed) => Err(FileError::Failed),
        Err(IoError::NoMemory) => Err(FileError::NoMemory),
    }
}

/// Accepts a client and leaves its link; false where the door is closed.
pub fn pass_on<D: Door>(alloc: Global, door: &mut D) -> Result<bool, IoError>
    ensures passed { result ≡ Ok true → (c : D.L × Peer) × (D.coming door.old ≡ prepended (c ∷ []) (D.coming door.new))
        × (D.left door.new ≡ appended (D.left door.old) (c.0 ∷ [])) }
    ensures closed { result ≡ Ok false → IsEmpty (D.coming door.old) × (D.left door.new ≡ D.left door.old) }
    ensures room { D.room door.new ≡ D.room door.old }
    ensures cause { HasCause (D.faults door.old) (D.faults door.new) result }
{
    match door.accept(alloc)? {
        Some((link, _peer)) => {
            door.leave(link);
            Ok(true)
        }
        None => Ok(false),
    }
}

/// A talk over any link with a member of the first balancer.
fn first_with(member: u32, host: &Bytes) -> TalkAsked<'_>
    ensures { (result.lb ≡ 0) × (result.member ≡ member) }
{
    TalkAsked {
        lb: 0,
        member,
        host,
        port: 8009,
        fresh: false,
    }
}

/// One talk: begins it, writes a piece, reads once and ends it.
pub fn ask<R: Reach>(
    alloc: Global,
    reach: &mut R,
    member: u32,
    host: &Bytes,
    piece: &[u8],
    buf: &mut [u8],
) -> Result<usize, IoError>
    requires idle { (R.beside reach.old).runs ≡ false }
    requires known { member < slice_index (R.beside reach.old).sizes 0 }
    requires some { 0 < length buf.old }
    ensures idle { (R.beside reach.new).runs ≡ false }
    ensures sizes { (R.beside reach.new).sizes ≡ (R.beside reach.old).sizes }
    ensures talk { IfOk result (λ n. (b : Begun) × (b.lb ≡ 0) × (b.member ≡ member) × ((R.beside reach.new).talks
        ≡ appended (R.beside reach.old).talks (talk_of b piece.now (take n buf.new) true ∷ []))) }
    ensures cause { HasCause (R.faults reach.old) (R.faults reach.new) result }
    ensures steady { IsOk result → R.faults reach.new ≡ R.faults reach.old }
{
    let asked = first_with(member, host);
    reach.begin(alloc, &asked)?;
    match say(reach, piece, buf) {
        Ok(n) => {
            reach.finish(true);
            Ok(n)
        }
        Err(error) => {
            reach.finish(false);
            Err(error)
        }
    }
}

/// Reads from a reach and writes to it between its talks; false says that it refused both.
pub fn speaks_between_talks<R: Reach>(reach: &mut R, piece: &[u8], buf: &mut [u8]) -> bool
    requires idle { (R.beside reach.old).runs ≡ false }
    requires some { (0 < length piece.now) × (0 < length buf.old) }
    ensures refused { result ≡ false }
    ensures same { R.beside reach.new ≡ R.beside reach.old }
{
    reach.read(buf) != Err(IoError::Failed) || reach.write(piece) != Err(IoError::Failed)
}

/// One talk over a reach in memory of which no call is to fail: no fault is counted, and none will be.
pub fn quiet_talk(
    alloc: Global,
    reach: &mut MemReach,
    member: u32,
    host: &Bytes,
    buf: &mut [u8],
) -> Result<usize, IoError>
    requires idle { is_some reach.old.book.begun ≡ false }
    requires known { member < slice_index reach.old.sizes 0 }
    requires some { 0 < length buf.old }
    requires quiet { IsQuiet reach.old }
    ensures steady { reach.new.faults ≡ reach.old.faults }
    ensures quiet { IsQuiet reach.new }
{
    let asked = first_with(member, host);
    reach.begin(alloc, &asked)?;
    let answer = reach.read(buf);
    reach.finish(answer.is_ok());
    answer
}

fn say<L: Link>(link: &mut L, piece: &[u8], buf: &mut [u8]) -> Result<usize, IoError>
    requires { 0 < length buf.old }
    ensures sent { OnOk result (L.sent link.new ≡ appended (L.sent link.old) piece.now) }
    ensures got { IfOk result (λ n. L.received link.new ≡ appended (L.received link.old) (take n buf.new)) }
    ensures same { L.beside link.new ≡ L.beside link.old }
    ensures cause { HasCause (L.faults link.old) (L.faults link.new) result }
    ensures steady { IsOk result → L.faults link.new ≡ L.faults link.old }
{
    write_all(link, piece)?;
    link.read(buf)
}
