//! A book of talks: one that runs, and those that ended.
ghost use Rattle.std.specs.Prelude.{◌≡◌, ◌+◌, ◌-◌, ◌≤◌, [], ◌∷◌, ◌++◌, Some, None, IsSome, IfSome, OnOk, OnErr, length, is_some};
ghost use Rattle.std.specs.Option.{option_map};
ghost use Rattle.jk_io.specs.Talks.{talk_of};

use crate::byte_list::Bytes;
use crate::failures::NoMemory;
use crate::list_of::ListOf;
use crate::reaching::{Begun, Talk};
use std::alloc::Global;
use std::marker::Model;
use std::mem;

/// Notes what a talk was begun with, what was sent and received in it, and the talks that ended.
#[derive(Drop)]
pub struct TalkBook {
    alloc: Global,
    talks: Vec<Talk>,
    begun: Option<Begun>,
    sent: Vec<u8>,
    received: Vec<u8>,
    /// How many bytes more can be noted of either without memory.
    room: usize,
}

impl Model for TalkBook {
    ghost use Rattle.std.specs.Prelude.{◌≡◌, ◌+◌, ◌≤◌, [], IfSome, IfNone, vec_len, vec_capacity};
    ghost use Rattle.jk_io.specs.TalkBooks.{TalkBookState};

    ghost Value = { TalkBookState };

    ghost view = { λ b. record { talks = b.talks.items; begun = b.begun; sent = b.sent.items; received = b.received.items; room = b.room } };

    ghost invariant = { λ b. (vec_len b.sent + b.room ≤ vec_capacity b.sent) × (vec_len b.received + b.room ≤ vec_capacity b.received)
        × IfSome b.begun (λ _. vec_len b.talks + 1 ≤ vec_capacity b.talks) × IfNone b.begun ((b.sent.items ≡ []) × (b.received.items ≡ [])) };
}

impl TalkBook {
    pub fn new(alloc: Global) -> TalkBook
        ensures { result ≡ record { talks = []; begun = None; sent = []; received = []; room = 0 } }
    {
        TalkBook {
            alloc,
            talks: Vec::new(alloc),
            begun: None,
            sent: Vec::new(alloc),
            received: Vec::new(alloc),
            room: 0,
        }
    }

    /// The talks that ended, in order.
    pub fn talks(&self) -> &[Talk]
        ensures { result.now ≡ self.now.talks }
    {
        self.talks.as_slice()
    }

    pub fn into_talks(self) -> ListOf<Talk>
        ensures { result ≡ self.talks }
    {
        ListOf::from_vec(self.talks)
    }

    /// Begins the note of a talk, and takes the room for its end.
    pub fn begin(&mut self, begun: Begun) -> Result<(), NoMemory>
        requires { self.old.begun ≡ None }
        ensures ok { OnOk result (self.new ≡ record self.old { begun = Some begun }) }
        ensures err { OnErr result (self.new ≡ self.old) }
        ensures empty { (self.new.sent ≡ []) × (self.new.received ≡ []) }
    {
        self.talks.reserve(1)?;
        self.begun = Some(begun);
        Ok(())
    }

    /// Whether a talk runs.
    pub fn runs(&self) -> bool
        ensures { result ≡ is_some self.now.begun }
    {
        self.begun.is_some()
    }

    /// Notes what the link of the running talk had to come when it began.
    pub fn tell_came(&mut self, came: Bytes)
        requires { IsSome self.old.begun }
        ensures { self.new ≡ record self.old { begun = option_map (λ (b : Begun). record b { came = Some came }) self.old.begun } }
    {
        if let Some(begun) = &mut self.begun {
            begun.came = Some(came);
        }
    }

    /// Ends the running talk, in which nothing was said, without a note.
    pub fn forget(&mut self)
        requires { (self.old.sent ≡ []) × (self.old.received ≡ []) }
        ensures { self.new ≡ record self.old { begun = None } }
    {
        self.begun = None;
    }

    /// Takes the room to note `n` bytes.
    pub fn reserve(&mut self, n: usize) -> Result<(), NoMemory>
        ensures same { self.new ≡ record self.old { room = self.new.room } }
        ensures ok { OnOk result (n ≤ self.new.room) }
    {
        self.sent.reserve(n)?;
        self.received.reserve(n)?;
        if self.room < n {
            self.room = n;
        }
        Ok(())
    }

    pub fn sent(&mut self, piece: &[u8])
        requires runs { IsSome self.old.begun }
        requires room { length piece.now ≤ self.old.room }
        ensures { self.new ≡ record self.old { sent = self.old.sent ++ piece.now; room = self.old.room - length piece.now } }
    {
        self.room -= piece.len();
        let Ok(()) = self.sent.extend_from_slice(piece) else {
            unreachable!()
        };
    }

    pub fn received(&mut self, piece: &[u8])
        requires runs { IsSome self.old.begun }
        requires room { length piece.now ≤ self.old.room }
        ensures { self.new ≡ record self.old { received = self.old.received ++ piece.now; room = self.old.room - length piece.now } }
    {
        self.room -= piece.len();
        let Ok(()) = self.received.extend_from_slice(piece) else {
            unreachable!()
        };
    }

    /// Ends the running talk. It takes no memory.
    pub fn finish(&mut self, keep: bool)
        requires { IsSome self.old.begun }
        ensures noted { IfSome self.old.begun (λ b. self.new.talks ≡ self.old.talks ++ talk_of b self.old.sent self.old.received keep ∷ []) }
        ensures ended { (self.new.begun ≡ None) × (self.new.sent ≡ []) × (self.new.received ≡ []) }
    {
        let Some(begun) = self.begun.take() else {
            unreachable!()
        };
        let sent = mem::replace(&mut self.sent, Vec::new(self.alloc));
        let received = mem::replace(&mut self.received, Vec::new(self.alloc));
        self.room = 0;
        let Ok(()) = self.talks.push(ended(begun, sent, received, keep)) else {
            unreachable!()
        };
    }
}

fn ended(begun: Begun, sent: Vec<u8>, received: Vec<u8>, keep: bool) -> Talk
    ensures { result ≡ talk_of begun sent.items received.items keep }
{
    Talk {
        lb: begun.lb,
        member: begun.member,
        host: begun.host,
        port: begun.port,
        fresh: begun.fresh,
        dialled: begun.dialled,
        came: begun.came,
        sent: Bytes::from_vec(sent),
        received: Bytes::from_vec(received),
        keep,
    }
}
