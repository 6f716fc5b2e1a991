//! `BodyIn`: a client's body, taken in pieces.
ghost use Rattle.std.specs.Prelude.{◌≡◌, ◌<◌, None, Some, IfOk, IfErr, OnOk, IsTrue};
ghost use Rattle.jk_io.specs.Moments.{moment};
ghost use Rattle.http_front.specs.Unread.{unread};
ghost use Rattle.http_front.specs.Faults.{IsCalmBody};
ghost use Rattle.http_front.specs.Places.{start_of};
ghost use Rattle.http_front.specs.Reads.{ReadsClient};
ghost use Rattle.http_front.specs.State.{place_of, taken_of, most_of, failed_of};
ghost use Rattle.http_front.specs.Takes.{body_at, decides, TakesPiece, PassesRest, MeetsFault};
ghost use Rattle.http_front.specs.Walks.{Walks, Fails};
ghost use Rattle.http_front.specs.Wants.{Next, Rest, settles};

use crate::fault::BodyFault;
use crate::place::{Place, start_of};
use crate::walk::{fill_piece, pass_body};
use crate::{BodyPlan, Inbox};
use jk_io::{Bytes, Link};
use std::alloc::Global;

/// How far a body was taken.
#[derive(Clone, Copy)]
struct Stand {
    place: Place,
    /// At how many bytes of data a chunked body is too long.
    most: u64,
    /// How many bytes of data were taken.
    taken: u64,
}

/// A client's body, as far as it was taken.
#[derive(Drop)]
pub struct BodyIn {
    stand: Stand,
    failed: Option<BodyFault>,
}

/// A piece, and the place of the body after it.
#[derive(Drop)]
struct Piece {
    bytes: Bytes,
    place: Place,
}

impl BodyIn {
    /// A body of this plan, none of it taken. A chunked body is too long at `most` bytes of data.
    pub fn new(plan: BodyPlan, most: u64) -> BodyIn
        ensures place { place_of result ≡ start_of plan }
        ensures most { most_of result ≡ most }
        ensures taken { taken_of result ≡ 0 }
        ensures failed { failed_of result ≡ None }
    {
        BodyIn {
            stand: Stand {
                place: start_of(plan),
                most,
                taken: 0,
            },
            failed: None,
        }
    }

    /// How many bytes of data were taken, those that were dropped among them.
    pub fn taken(&self) -> u64
        ensures { result ≡ taken_of self.now }
    {
        self.stand.taken
    }

    /// Takes the next `n` bytes of data, or all that are left: no bytes exactly at the end.
    pub fn take<C: Link>(
        &mut self,
        alloc: Global,
        inbox: &mut Inbox,
        client: &mut C,
        n: usize,
    ) -> Result<Bytes, BodyFault>
        requires { 0 < n }
        ensures ok { let see = moment C.incoming C.received C.sent C.faults in IfOk result (TakesPiece
            (body_at self.old inbox.old (see client.old)) (body_at self.new inbox.new (see client.new)) n) }
        ensures err { let see = moment C.incoming C.received C.sent C.faults in IfErr result (MeetsFault
            (body_at self.old inbox.old (see client.old)) (body_at self.new inbox.new (see client.new)) (Next n)) }

        // The client is not touched where the inbox decides.
        ensures unasked { IsTrue (decides (Next n) self.old inbox.old) → client.new ≡ client.old }
        ensures beside { C.beside client.new ≡ C.beside client.old }
    {
        if let Some(fault) = self.failed {
            return Err(fault);
        }
        match next_piece(alloc, self.stand, inbox, client, n) {
            Ok(piece) => {
                self.stand.place = piece.place;
                self.stand.taken = self.stand.taken.saturating_add(piece.bytes.len() as u64);
                Ok(piece.bytes)
            }
            Err(fault) => {
                self.break_off(fault);
                Err(fault)
            }
        }
    }

    /// Reads to the end of the body and drops what is left of it.
    pub fn skip_rest<C: Link>(&mut self, inbox: &mut Inbox, client: &mut C) -> Result<(), BodyFault>
        ensures ok { let see = moment C.incoming C.received C.sent C.faults in OnOk result (PassesRest
            (body_at self.old inbox.old (see client.old)) (body_at self.new inbox.new (see client.new))) }
        ensures err { let see = moment C.incoming C.received C.sent C.faults in IfErr result (MeetsFault
            (body_at self.old inbox.old (see client.old)) (body_at self.new inbox.new (see client.new)) Rest) }

        // The client is not touched where the inbox decides.
        ensures unasked { IsTrue (decides Rest self.old inbox.old) → client.new ≡ client.old }
        ensures beside { C.beside client.new ≡ C.beside client.old }
    {
        if let Some(fault) = self.failed {
            return Err(fault);
        }
        match pass_body(
            self.stand.place,
            self.stand.most,
            self.stand.taken,
            inbox,
            client,
        ) {
            Ok(passed) => {
                self.stand.place = passed.place;
                self.stand.taken = passed.taken;
                Ok(())
            }
            Err(fault) => {
                self.break_off(fault);
                Err(fault)
            }
        }
    }

    /// Notes the first fault, which each later call answers again.
    fn break_off(&mut self, fault: BodyFault)
        ensures { self.new ≡ record self.old { failed = Some fault } }
    {
        self.failed = Some(fault);
    }
}

/// The next piece of data, in memory of its own.
fn next_piece<C: Link>(
    alloc: Global,
    start: Stand,
    inbox: &mut Inbox,
    client: &mut C,
    n: usize,
) -> Result<Piece, BodyFault>
    ensures ok { IfOk result (λ piece. Walks start.most start.taken n (unread inbox.old (C.incoming client.old))
        (unread inbox.new (C.incoming client.new)) start.place piece.place piece.bytes) }
    ensures err { IfErr result (Fails start.most start.taken n (unread inbox.old (C.incoming client.old))
        (unread inbox.new (C.incoming client.new)) start.place) }
    ensures reads { ReadsClient C.Meanings BodyFault.Fault (IsCalmBody result) client.old client.new result }
    ensures unasked { IsTrue (settles (Next n) start.place start.most start.taken inbox.old) → client.new ≡ client.old }
{
    let mut bytes = match vec![in alloc; 0; n] {
        Ok(bytes) => bytes,
        Err(_) => return Err(BodyFault::NoMemory),
    };
    let filled = fill_piece(
        start.place,
        start.most,
        start.taken,
        inbox,
        client,
        bytes.as_mut_slice(),
    )?;
    bytes.truncate(filled.count);
    Ok(Piece {
        bytes: Bytes::from_vec(bytes),
        place: filled.place,
    })
}
