//! `ReplyWriter`: a reply on its way to the client.
ghost use Rattle.std.specs.Prelude.{◌≡◌, ◌≤◌, None, OnOk, IsErrOf};
ghost use Rattle.jk_io.specs.Told.{Rose};
ghost use Rattle.http_out.specs.Passage.{IsCalm};
ghost use Rattle.http_out.specs.Writer.{new_writer, IsJudgedReplyHead, IsOpenReply, IsChunkStep, IsEndStep};

use crate::framing::{Framing, RequestKind, framing_of};
use crate::head_text::head_text;
use crate::passage::Passage;
use crate::pieces::{write_closing, write_piece};
use crate::reply_head::{OutError, ReplyHead, judge};
use jk_io::{Bytes, Sink};
use std::alloc::Global;
use std::marker::Model;

/// Writes one reply: its head, its chunks, its end. The head is held until the first chunk that passes, so that both
/// go out in one write.
#[derive(Drop)]
pub struct ReplyWriter {
    alloc: Global,
    kind: RequestKind,
    framing: Option<Framing>,
    /// The head's bytes while they are held; later empty, and the memory for a chunk with its size line.
    text: Bytes,
    passage: Passage,
    ended: bool,
}

impl Model for ReplyWriter {
    ghost use Rattle.http_out.specs.Writer.{Writer};

    ghost Value = { Writer };

    ghost view = { λ w. record {
      kind = w.kind;
      framing = w.framing;
      held = w.text;
      passed = w.passage.passed;
      failed = w.passage.failed;
      ended = w.ended;
    } };
}

impl ReplyWriter {
    /// A writer for the reply to a request of this kind. No memory is taken.
    pub fn new(alloc: Global, kind: RequestKind) -> ReplyWriter
        ensures { result ≡ new_writer kind }
    {
        ReplyWriter {
            alloc,
            kind,
            framing: None,
            text: Bytes::new(alloc),
            passage: Passage {
                passed: false,
                failed: false,
            },
            ended: false,
        }
    }

    /// Takes the container's head. Nothing is written yet.
    pub fn headers(&mut self, head: ReplyHead) -> Result<(), OutError>
        requires { self.old.framing ≡ None }
        ensures { IsJudgedReplyHead head self.old self.new result }
    {
        let said = judge(&head)?;
        let framing = framing_of(self.kind, head.status, said);
        self.text = head_text(self.alloc, self.kind, &head, framing)?;
        self.framing = Some(framing);
        Ok(())
    }

    /// Passes a chunk on. Where it goes beyond the length that the head announced, nothing is written.
    pub fn chunk<C: Sink>(&mut self, bytes: &[u8], client: &mut C) -> Result<(), OutError>
        requires { IsOpenReply self.old }

        ensures step { IsChunkStep self.old bytes.now self.new (C.sent client.old) (C.sent client.new) result }
        ensures goes_on { OnOk result (IsOpenReply self.new) }
        ensures same { (C.incoming client.new ≡ C.incoming client.old) × (C.received client.new ≡ C.received client.old)
            × (C.beside client.new ≡ C.beside client.old) }
        ensures no_fewer { C.faults client.old ≤ C.faults client.new }
        ensures cause { IsErrOf result OutError.Fault → Rose (C.faults client.old) (C.faults client.new) }
        ensures steady { IsCalm result → C.faults client.new ≡ C.faults client.old }
    {
        let Some(framing) = self.framing else {
            unreachable!()
        };
        if framing.is_beyond(bytes.len()) {
            return Err(OutError::Disagree);
        }
        self.framing = Some(framing.spent(bytes.len()));
        if self.passage.failed || !framing.passes(bytes) {
            return Ok(());
        }
        write_piece(&mut self.text, framing, bytes, client, &mut self.passage)
    }

    /// Ends the reply: what is held goes out, and the last chunk of a chunked body, and the client is flushed. Where less
    /// than the announced length came, nothing is written.
    pub fn end<C: Sink>(&mut self, client: &mut C) -> Result<(), OutError>
        requires { IsOpenReply self.old }

        ensures step { IsEndStep self.old self.new (C.sent client.old) (C.sent client.new) result }
        ensures same { (C.incoming client.new ≡ C.incoming client.old) × (C.received client.new ≡ C.received client.old)
            × (C.beside client.new ≡ C.beside client.old) }
        ensures no_fewer { C.faults client.old ≤ C.faults client.new }
        ensures cause { IsErrOf result OutError.Fault → Rose (C.faults client.old) (C.faults client.new) }
        ensures steady { IsCalm result → C.faults client.new ≡ C.faults client.old }
    {
        let Some(framing) = self.framing else {
            unreachable!()
        };
        if !framing.is_complete() {
            return Err(OutError::Disagree);
        }
        self.ended = true;
        if self.passage.failed {
            return Ok(());
        }
        write_closing(&mut self.text, framing, client, &mut self.passage)
    }

    /// A byte of the reply was written.
    pub fn passed(&self) -> bool
        ensures { result ≡ self.now.passed }
    {
        self.passage.passed
    }
}
