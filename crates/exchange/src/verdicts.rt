//! The verdict after a talk, and after a round: again, or how the lease goes back.
ghost use Rattle.std.specs.Prelude.{◌≡◌, ◌≤◌, ◌^◌, ◌<◌, length};
ghost use Rattle.exchange.specs.Ends.{bytes_of as bytes_in, is_negated as is_negated_in, is_status as is_a_status, kind_after as kind_after_talk, kind_of_cause as kind_by, outcome_for, tries_again as tries_once_more};
ghost use Rattle.exchange.specs.Steps.{after as after_talk, after_bad_body as after_bad, after_client as after_gone, after_failure as after_failed, verdict_for};
ghost use Rattle.exchange.specs.Requests.{allows as allows_another};

use crate::ending::{ExchangeEnd, Ran, RoundVerdict};
use crate::methods::method_of;
use ajp_reply::Stage;
use ajp_talk::{Cause, TalkEnd, Told};
use forwarding::may_retry;
use http_front::Head;
use http_out::Own;
use lb_model::{FailList, Kind, Outcome};
use site_config::Endpoint;

fn allows(endpoint: &Endpoint, head: &Head, stage: Stage) -> bool
    ensures { result ≡ allows_another endpoint.now head.now stage }
{
    may_retry(endpoint.recovery, method_of(head), stage)
}

fn is_status(cause: Cause) -> bool
    ensures { result ≡ is_a_status cause }
{
    match cause {
        Cause::Status(_) => true,
        Cause::NoLink
        | Cause::Line
        | Cause::Ended
        | Cause::BadReply
        | Cause::Disagree
        | Cause::TooLong => false,
    }
}

/// Whether another talk on the member may follow this one.
pub(crate) fn tries_again(endpoint: &Endpoint, head: &Head, end: TalkEnd) -> bool
    ensures { result ≡ tries_once_more endpoint.now head.now end }
{
    match end {
        TalkEnd::Failed { stage, cause, .. } => !is_status(cause) && allows(endpoint, head, stage),
        TalkEnd::Done { .. } | TalkEnd::ClientGone { .. } | TalkEnd::BadBody { .. } => false,
    }
}

/// What a talk sent and received.
pub(crate) fn bytes_of(end: TalkEnd) -> u64
    ensures { result ≡ bytes_in end }
{
    match end {
        TalkEnd::Done { bytes, .. }
        | TalkEnd::Failed { bytes, .. }
        | TalkEnd::ClientGone { bytes, .. }
        | TalkEnd::BadBody { bytes, .. } => bytes,
    }
}

fn is_negated(listed: &FailList, status: u16) -> bool
    ensures { result ≡ is_negated_in listed.now status }
{
    listed
        .as_slice()
        .iter()
        .any(|entry| entry.0 == status && entry.1)
}

fn kind_of_cause(listed: &FailList, cause: Cause) -> Kind
    ensures { result ≡ kind_by listed.now cause }
{
    match cause {
        Cause::Status(status) if is_negated(listed, status) => Kind::Gone,
        Cause::Status(_)
        | Cause::NoLink
        | Cause::Line
        | Cause::Ended
        | Cause::BadReply
        | Cause::Disagree
        | Cause::TooLong => Kind::Failed,
    }
}

fn kind_after(listed: &FailList, end: TalkEnd) -> Kind
    ensures { result ≡ kind_after_talk listed.now end }
{
    match end {
        TalkEnd::Done { .. } => Kind::Done,
        TalkEnd::Failed { cause, .. } => kind_of_cause(listed, cause),
        TalkEnd::ClientGone { .. } | TalkEnd::BadBody { .. } => Kind::Gone,
    }
}

/// How the lease of a round is handed back.
pub(crate) fn outcome_of(endpoint: &Endpoint, ran: Ran) -> Outcome
    ensures { result ≡ outcome_for endpoint.now ran }
{
    match ran {
        Ran::TooLarge => Outcome {
            kind: Kind::Gone,
            bytes: 0,
        },
        Ran::Wanted { bytes } => Outcome {
            kind: Kind::Gone,
            bytes,
        },
        Ran::Ended { end, bytes } => Outcome {
            kind: kind_after(&endpoint.fail_on, end),
            bytes,
        },
    }
}

fn after_failure(member: u32, cause: Cause, told: Option<Told>) -> RoundVerdict
    ensures { result ≡ after_failed member cause told }
{
    match told {
        Some(told) => RoundVerdict::End(ExchangeEnd::Cut { member, told }),
        None if is_status(cause) => RoundVerdict::Answer(Own::ServiceUnavailable),
        None => RoundVerdict::Answer(Own::BadGateway),
    }
}

fn after_bad_body(member: u32, status: u16, told: Option<Told>) -> RoundVerdict
    ensures { result ≡ after_bad member status told }
{
    match told {
        Some(told) => RoundVerdict::End(ExchangeEnd::Cut { member, told }),
        None => RoundVerdict::Answer(Own::with_status(status)),
    }
}

fn after_client(truncated: bool) -> RoundVerdict
    ensures { result ≡ after_gone truncated }
{
    if truncated {
        RoundVerdict::End(ExchangeEnd::Truncated)
    } else {
        RoundVerdict::End(ExchangeEnd::ClientFault)
    }
}

fn after(endpoint: &Endpoint, head: &Head, member: u32, end: TalkEnd) -> RoundVerdict
    ensures { result ≡ after_talk endpoint.now head.now member end }
{
    match end {
        TalkEnd::Done { told, .. } => RoundVerdict::End(ExchangeEnd::Done { member, told }),
        TalkEnd::Failed {
            stage,
            cause,
            told,
            ..
        } => {
            if allows(endpoint, head, stage) {
                RoundVerdict::Again { member }
            } else {
                after_failure(member, cause, told)
            }
        }
        TalkEnd::ClientGone { truncated, .. } => after_client(truncated),
        TalkEnd::BadBody { status, told, .. } => after_bad_body(member, status, told),
    }
}

/// What becomes of the request after a round on this member.
pub(crate) fn verdict_of(endpoint: &Endpoint, head: &Head, member: u32, ran: Ran) -> RoundVerdict
    ensures { result ≡ verdict_for endpoint.now head.now member ran }
{
    match ran {
        Ran::TooLarge => RoundVerdict::Answer(Own::ContentTooLarge),
        Ran::Wanted { .. } => RoundVerdict::End(ExchangeEnd::NoMemory),
        Ran::Ended { end, .. } => after(endpoint, head, member, end),
    }
}
