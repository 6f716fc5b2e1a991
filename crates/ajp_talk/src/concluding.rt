//! The ends of a talk, from how far it had come.

ghost use Rattle.std.specs.Prelude.{◌≡◌, ◌≢◌, ◌≤◌, ◌<◌, ◌^◌, ◌&&◌, not, length};
ghost use Rattle.ajp_talk.specs.Owed.{opening, ping_of, first_packet};
ghost use Rattle.ajp_talk.specs.Ends.{IsPlan, stage_end, told_end, bytes_end, failed_end, done_end, gone_end, bad_end, ended_by, unanswered_end};
ghost use Rattle.ajp_wire.specs.declared.writing.TheConstants.{MAX_PIECE_BYTES, PAYLOAD_LIMIT};
ghost use Rattle.ajp_talk.specs.declared.concluding.TheConstants.{CPING_BYTES};

use crate::course::Course;
use crate::ending::{Cause, TalkEnd, Told};
use crate::plan::TalkPlan;
use crate::turn::{Turn, Unheard};
use ajp_reply::Stage;
use http_out::Own;
use jk_io::NoMemory;

/// The bytes of a CPing: a packet's head and one byte.
const CPING_BYTES: u64 = 5;

impl Course {
    /// The end that a turn makes. The turn doesn't let the talk go on, and lost no client before the reply's end.
    pub(crate) fn ended(&self, plan: &TalkPlan, taken: u64, turn: Turn) -> Result<TalkEnd, NoMemory>
        requires plan { IsPlan plan.now }
        requires over { turn ≢ Turn.On }
        requires stays { turn ≢ Turn.Lost }
        ensures { result ≡ ended_by (record {}) plan.now self.now taken turn }
    {
        match turn {
            Turn::Done { reuse } => Ok(self.done(reuse)),
            Turn::Failed(cause) => Ok(self.failed(plan, taken, cause)),
            Turn::LostAtEnd { reuse } => Ok(self.gone(false, is_kept(plan, reuse))),
            Turn::Unread => Ok(self.gone(false, false)),
            Turn::Cut => Ok(self.gone(true, false)),
            Turn::Bad(own) => Ok(self.bad(own)),
            Turn::NoMemory => Err(NoMemory),
            Turn::On | Turn::Lost => unreachable!(),
        }
    }

    /// The client has the whole reply.
    fn done(&self, reuse: bool) -> TalkEnd
        ensures { result ≡ done_end self.now reuse }
    {
        TalkEnd::Done {
            told: self.told,
            reuse,
            bytes: self.bytes(),
        }
    }

    /// The talk failed. `taken` is how much of the body was taken, the first piece among it.
    pub(crate) fn failed(&self, plan: &TalkPlan, taken: u64, cause: Cause) -> TalkEnd
        requires { IsPlan plan.now }
        ensures { result ≡ failed_end plan.now self.now taken cause }
    {
        TalkEnd::Failed {
            stage: Stage {
                got: opening_len(plan) <= self.sent,
                headers: self.headers,
                passed: self.writer.passed(),
                beyond: (plan.first.len() as u64) < taken,
            },
            cause,
            told: self.told_if_passed(),
            bytes: self.bytes(),
        }
    }

    /// The client is gone.
    pub(crate) fn gone(&self, truncated: bool, keep: bool) -> TalkEnd
        ensures { result ≡ gone_end self.now truncated keep }
    {
        TalkEnd::ClientGone {
            truncated,
            keep,
            bytes: self.bytes(),
        }
    }

    /// The body is bad.
    fn bad(&self, own: Own) -> TalkEnd
        ensures { result ≡ bad_end self.now own }
    {
        TalkEnd::BadBody {
            status: own.status(),
            told: self.told_if_passed(),
            passed: self.writer.passed(),
            bytes: self.bytes(),
        }
    }

    fn told_if_passed(&self) -> Option<Told>
        ensures { result ≡ told_end self.now }
    {
        if self.writer.passed() {
            Some(self.told)
        } else {
            None
        }
    }

    fn bytes(&self) -> u64
        ensures { result ≡ bytes_end self.now }
    {
        self.sent.saturating_add(self.received)
    }
}

/// The end of a talk in which no CPong came.
pub(crate) fn unanswered(sent: u64, received: u64, why: Unheard) -> Result<TalkEnd, NoMemory>
    ensures { result ≡ unanswered_end (record {}) sent received why }
{
    let cause = match why {
        Unheard::Line => Cause::Line,
        Unheard::Ended => Cause::Ended,
        Unheard::Wrong => Cause::BadReply,
        Unheard::TooLong => Cause::TooLong,
        Unheard::NoMemory => return Err(NoMemory),
    };
    Ok(TalkEnd::Failed {
        stage: Stage {
            got: false,
            headers: false,
            passed: false,
            beyond: false,
        },
        cause,
        told: None,
        bytes: sent.saturating_add(received),
    })
}

/// Whether the link is kept where the client was lost at the end: it may serve again, and `close_on_client` is off.
pub(crate) fn is_kept(plan: &TalkPlan, reuse: bool) -> bool
    ensures { result ≡ (reuse && not plan.now.close_on_client) }
{
    reuse && !plan.close_on_client
}

/// How many bytes go out before anything of a reply.
fn opening_len(plan: &TalkPlan) -> u64
    requires forward { length plan.now.forward < 2 ^ 32 }
    requires first { length plan.now.first ≤ MAX_PIECE_BYTES }
    ensures { result ≡ length (opening plan.now) }
{
    ping_len(plan) + (plan.forward.len() as u64 + first_len(plan))
}

fn ping_len(plan: &TalkPlan) -> u64
    ensures value { result ≡ length (ping_of plan.now) }
    ensures small { result ≤ CPING_BYTES }
{
    if plan.ping { CPING_BYTES } else { 0 }
}

fn first_len(plan: &TalkPlan) -> u64
    requires { length plan.now.first ≤ MAX_PIECE_BYTES }
    ensures value { result ≡ length (first_packet plan.now.first) }
    ensures small { result ≤ PAYLOAD_LIMIT }
{
    match plan.first.as_slice() {
        [] => 0,
        [_, rest @ ..] => rest.len() as u64 + 7,
    }
}
