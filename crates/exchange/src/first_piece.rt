//! The first piece of a body, which is taken before a member is chosen.
ghost use Rattle.std.specs.Prelude.{◌≡◌, ◌≢◌, ◌≤◌, IfOk, IfErr, OnOk};
ghost use Rattle.ajp_talk.specs.Moments.{IsUsed};
ghost use Rattle.forwarding.specs.FirstPiece.{first_len as first_length};
ghost use Rattle.exchange.specs.Awaits.{HearsNext};
ghost use Rattle.exchange.specs.FirstPiece.{IsFirstFailure, TakesFirst, body_left, end_by};
ghost use Rattle.exchange.specs.Exchanges.{IsCalmExchange};
ghost use Rattle.exchange.specs.Keeping.{IsAllLeft};

use crate::ending::ExchangeEnd;
use forwarding::first_len;
use http_front::{BodyFault, BodyIn, BodyPlan, Inbox};
use jk_io::{Awaited, Bytes, Link};
use site_config::EndList;
use std::alloc::Global;

/// Takes the first piece of a body of this plan, of which nothing was taken yet. A body by length has neither chunk
/// lines nor a limit, so none of it is bad.
pub(crate) fn take_first<C: Link>(
    alloc: Global,
    plan: BodyPlan,
    ends: &EndList,
    body: &mut BodyIn,
    inbox: &mut Inbox,
    client: &mut C,
) -> Result<Bytes, ExchangeEnd>
    requires whole { IsAllLeft plan body.old }
    ensures ok { let left = body_left C.Meanings in
        IfOk result (TakesFirst (first_length plan ends.now) (left body.old inbox.old client.old) (left body.new inbox.new client.new)) }
    ensures err { let len = first_length plan ends.now in
        IfErr result (IsFirstFailure len (body_left C.Meanings body.old inbox.old client.old) (C.faults client.old) (C.faults client.new)) }
    ensures used { let left = body_left C.Meanings in
        IfErr result (λ _. IsUsed (left body.old inbox.old client.old) (left body.new inbox.new client.new)) }
    ensures steady { OnOk result (C.faults client.new ≡ C.faults client.old) }
    ensures calm { IfErr result (λ end. IsCalmExchange end → C.faults client.new ≡ C.faults client.old) }
    ensures same { (C.sent client.new ≡ C.sent client.old) × (C.beside client.new ≡ C.beside client.old) }
    ensures no_fewer { C.faults client.old ≤ C.faults client.new }

    // Before a piece is read, the client is told that more of a body is waited for.
    ensures awaits { first_length plan ends.now ≢ 0 → HearsNext C.heard client.old Awaited.Body }
{
    let len = first_len(plan, ends);
    if len == 0 {
        return Ok(Bytes::new(alloc));
    }
    client.await_next(Awaited::Body);
    match body.take(alloc, inbox, client, len as usize) {
        Ok(first) => Ok(first),
        Err(fault) => Err(end_of(fault)),
    }
}

fn end_of(fault: BodyFault) -> ExchangeEnd
    ensures { result ≡ end_by fault }
{
    match fault {
        BodyFault::Truncated | BodyFault::BadChunk | BodyFault::TooLong => ExchangeEnd::Truncated,
        BodyFault::Fault => ExchangeEnd::ClientFault,
        BodyFault::NoMemory => ExchangeEnd::NoMemory,
    }
}
