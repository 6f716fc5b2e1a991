//! `Course`: how far a talk has come.

ghost use Rattle.std.specs.Prelude.{◌≡◌, ◌≤◌, ◌<◌, ◌↔◌, true, false, length, IfOk, IsTrue, if◌then◌else◌};
ghost use Rattle.http_out.specs.Framing.{has_no_body};
ghost use Rattle.http_out.specs.Writer.{new_writer};
ghost use Rattle.ajp_wire.specs.Moments.{link_at};
ghost use Rattle.ajp_talk.specs.Replies.{kind_of, is_listed as is_listed_in};
ghost use Rattle.ajp_talk.specs.Turns.{IsOnCourse, IsHeadTurn, IsCalmTurn, IsChunkTurn, IsEndTurn};
ghost use Rattle.ajp_wire.specs.declared.head_pairs.TheConstants.{MAX_HEADERS};

use crate::ending::{Cause, Told};
use crate::plan::TalkPlan;
use crate::send_headers::reply_head;
use crate::turn::Turn;
use ajp_reply::ReplyParts;
use http_out::{OutError, ReplyWriter, RequestKind};
use jk_io::Sink;
use std::alloc::Global;

/// How far a talk has come: what was made of the container's messages, and how many bytes went and came.
#[derive(Drop)]
pub(crate) struct Course {
    pub(crate) writer: ReplyWriter,
    /// A Send Headers came whole.
    pub(crate) headers: bool,
    /// The head's status, and the bytes of the chunks that were passed.
    pub(crate) told: Told,
    pub(crate) sent: u64,
    pub(crate) received: u64,
}

fn kind_of(plan: &TalkPlan) -> RequestKind
    ensures { result ≡ kind_of plan.now }
{
    RequestKind {
        old: plan.old,
        head_only: plan.head_only,
        last: plan.last,
        date: plan.date,
    }
}

impl Course {
    /// Nothing of a reply yet.
    pub(crate) fn new(alloc: Global, plan: &TalkPlan, sent: u64, received: u64) -> Course
        ensures { result ≡ record { writer = new_writer (kind_of plan.now); headers = false; told = record { status = 0; body = 0 }; sent = sent; received = received } }
    {
        Course {
            writer: ReplyWriter::new(alloc, kind_of(plan)),
            headers: false,
            told: Told { status: 0, body: 0 },
            sent,
            received,
        }
    }

    /// Takes the head of the reply.
    pub(crate) fn take_head(&mut self, plan: &TalkPlan, parts: ReplyParts) -> Turn
        requires course { IsOnCourse self.old }
        requires few { length parts.headers ≤ MAX_HEADERS }
        ensures { IsHeadTurn plan.now parts self.old self.new result }
    {
        if self.headers {
            return Turn::Failed(Cause::BadReply);
        }
        self.headers = true;
        let status = parts.status;
        match self.writer.headers(reply_head(parts)) {
            Ok(()) => {}
            Err(OutError::BadReply) => return Turn::Failed(Cause::BadReply),
            Err(OutError::NoMemory) => return Turn::NoMemory,
            Err(OutError::Disagree) | Err(OutError::Fault) => unreachable!(),
        }
        self.told = Told { status, body: 0 };
        if is_listed(plan.fail_on.as_slice(), status) {
            return Turn::Failed(Cause::Status(status));
        }
        Turn::On
    }

    /// Passes a chunk on to the client.
    pub(crate) fn take_chunk<C: Sink>(
        &mut self,
        plan: &TalkPlan,
        chunk: &[u8],
        client: &mut C,
    ) -> Turn
        requires course { IsOnCourse self.old }
        ensures turn { IsChunkTurn plan.now chunk.now self.old self.new (link_at C.Meanings client.old) (link_at C.Meanings client.new) result }
        ensures same { (C.incoming client.new ≡ C.incoming client.old) × (C.received client.new ≡ C.received client.old)
            × (C.beside client.new ≡ C.beside client.old) }
        ensures no_fewer { C.faults client.old ≤ C.faults client.new }
        ensures calm { IsCalmTurn result → C.faults client.new ≡ C.faults client.old }
    {
        if !self.headers {
            return Turn::Failed(Cause::BadReply);
        }
        match self.writer.chunk(chunk, client) {
            Ok(()) => {}
            Err(OutError::Disagree) => return Turn::Failed(Cause::Disagree),
            Err(OutError::Fault) => return Turn::Lost,
            Err(OutError::NoMemory) => return Turn::NoMemory,
            Err(OutError::BadReply) => unreachable!(),
        }
        self.told.body = self
            .told
            .body
            .saturating_add(passed_length(plan, self.told, chunk.len()));
        Turn::On
    }

    /// Ends the reply to the client.
    pub(crate) fn finish<C: Sink>(&mut self, reuse: bool, client: &mut C) -> Turn
        requires course { IsOnCourse self.old }
        ensures turn { IsEndTurn reuse self.old self.new (link_at C.Meanings client.old) (link_at C.Meanings client.new) result }
        ensures same { (C.incoming client.new ≡ C.incoming client.old) × (C.received client.new ≡ C.received client.old)
            × (C.beside client.new ≡ C.beside client.old) }
        ensures no_fewer { C.faults client.old ≤ C.faults client.new }
        ensures calm { IsCalmTurn result → C.faults client.new ≡ C.faults client.old }
    {
        if !self.headers {
            return Turn::Failed(Cause::BadReply);
        }
        match self.writer.end(client) {
            Ok(()) => Turn::Done { reuse },
            Err(OutError::Disagree) => Turn::Failed(Cause::Disagree),
            Err(OutError::Fault) => Turn::LostAtEnd { reuse },
            Err(OutError::NoMemory) => Turn::NoMemory,
            Err(OutError::BadReply) => unreachable!(),
        }
    }
}

/// The status counts as a failure of the member.
fn is_listed(listed: &[(u16, bool)], status: u16) -> bool
    ensures { result ≡ is_listed_in listed.now status }
{
    listed.iter().any(|entry| entry.0 == status)
}

/// How many bytes of a chunk are passed: none where the reply has no body.
fn passed_length(plan: &TalkPlan, told: Told, len: usize) -> u64
    ensures { result ≡ (if has_no_body (kind_of plan.now) told.status then 0 else len) }
{
    if plan.head_only || (told.status == 204 || told.status == 304) {
        0
    } else {
        len as u64
    }
}
