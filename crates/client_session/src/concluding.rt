//! The end of an exchange, or a status worker's answer, as a turn of its session.
ghost use Rattle.std.specs.Prelude.{◌≡◌, vec_capacity};
ghost use Rattle.http_out.specs.Own.{status_of};
ghost use Rattle.client_session.specs.Concluding.{HoldsName, IsConclusion, IsKnownStop, IsMemberRow, NamesWithin, cut_settled, own_settled, refused_settled, settled_by};

use crate::ending::{SessionStop, Why};
use crate::rows::Row;
use crate::turn::{Answered, Settled, stopped};
use ajp_talk::Told;
use exchange::ExchangeEnd;
use http_out::Own;
use lb_model::{MemberConfig, Served};
use status_worker::PageRefusal;

/// The row of what a member gave.
fn member_row(row: Row, members: &[MemberConfig], member: u32, told: Told) -> Served
    requires { HoldsName members.now member (vec_capacity row.name) }
    ensures { IsMemberRow row.asked members.now member told result }
{
    let name = members[member as usize].name.as_slice();
    row.of_worker(told.status, told.body, name)
}

/// A reply broke off after a byte of it was passed.
fn cut(row: Served) -> Settled
    ensures { result ≡ cut_settled row }
{
    Settled {
        answered: Answered::Not(SessionStop::Closed(Why::Cut)),
        row: Some(row),
    }
}

/// What an exchange's end means to its session, and the row of its request.
pub(crate) fn conclude(
    end: ExchangeEnd,
    members: &[MemberConfig],
    head_only: bool,
    row: Row,
) -> Settled
    requires { NamesWithin end members.now (vec_capacity row.name) }
    ensures { IsConclusion end members.now head_only row.asked result }
{
    match end {
        ExchangeEnd::Done { member, told } => Settled {
            answered: Answered::Whole,
            row: Some(member_row(row, members, member, told)),
        },
        ExchangeEnd::Own(status) => answered_own(Own::with_status(status), head_only, row),
        ExchangeEnd::Cut { member, told } => cut(member_row(row, members, member, told)),
        ExchangeEnd::ClientFault => stopped(SessionStop::ClientFault),
        ExchangeEnd::Truncated => stopped(SessionStop::Truncated),
        ExchangeEnd::Stray {
            ticket,
            returned_at,
        } => stopped(SessionStop::Stray {
            ticket,
            returned_at,
        }),
        ExchangeEnd::NoMemory => stopped(SessionStop::NoMemory),
    }
}

/// An own answer was written.
fn answered_own(own: Own, head_only: bool, row: Row) -> Settled
    ensures { result ≡ own_settled row.asked (status_of own) head_only }
{
    Settled {
        answered: Answered::Not(SessionStop::Closed(Why::Own(own.status()))),
        row: Some(row.own(own, head_only)),
    }
}

/// The answer to a refused request of a status worker was written.
fn turned_away(refusal: PageRefusal, head_only: bool, row: Row) -> Settled
    ensures { result ≡ refused_settled row.asked refusal head_only }
{
    Settled {
        answered: Answered::Not(SessionStop::Closed(Why::Refused(refusal))),
        row: Some(row.turned_away(refusal, head_only)),
    }
}

/// No page and no reply was written: an own answer, a refusal, or nothing whole.
pub(crate) fn conclude_stop(stop: SessionStop, head_only: bool, row: Row) -> Settled
    requires { IsKnownStop stop }
    ensures { result ≡ settled_by stop row.asked head_only }
{
    match stop {
        SessionStop::Closed(Why::Own(status)) => {
            answered_own(Own::with_status(status), head_only, row)
        }
        SessionStop::Closed(Why::Refused(refusal)) => turned_away(refusal, head_only, row),
        stop => stopped(stop),
    }
}
