//! `serve_session`: all requests of one client.
ghost use Rattle.std.specs.Prelude.{◌≡◌, ◌<◌, [], true, false};
ghost use Rattle.http_front.specs.Takes.{body_at};
ghost use Rattle.exchange.specs.Awaits.{HearsNext};
ghost use Rattle.client_session.specs.Awaits.{AwaitsRequests, DialsInTime};
ghost use Rattle.client_session.specs.Concluding.{rows_of};
ghost use Rattle.client_session.specs.Finishing.{Finishes, RefusesHead, StopsWithoutHead, TurnsAfter, stop_after};
ghost use Rattle.client_session.specs.Keeping.{TellsHead, TellsRequest};
ghost use Rattle.client_session.specs.Ready.{IsReady};
ghost use Rattle.client_session.specs.Requests.{refused_kind as refused_kind_of, visit_of};
ghost use Rattle.client_session.specs.Standings.{IsClientStep};
ghost use Rattle.client_session.specs.Surroundings.{PutIn, standing_with};
ghost use Rattle.client_session.specs.Whole.{HoldsOfEach, IsWholeSession};

use crate::answering::answer;
use crate::ending::{SessionEnd, SessionStop, Why};
use crate::inquiry::Inquiry;
use crate::moments::moment_of;
use crate::requests::{MAX_REQUESTS, is_last};
use crate::rows::Row;
use crate::session_site::SessionSite;
use crate::surroundings::Surroundings;
use crate::turn::{Answered, SessionTurn, Settled};
use crate::writing::write_own;
use http_front::{
    BodyFault, BodyIn, Form, Head, HeadError, HeadGot, Inbox, MAX_BODY_BYTES, read_head,
};
use http_out::{Own, OwnKind};
use httpdate::HttpDate;
use jk_io::{Awaited, Clock, Link, Reach, Sink};
use lb_book::Desk;
use lb_model::{RowSink, Served};
use std::alloc::Global;

/// Why the session stops where the rest of a body can't be read.
fn stop_for(fault: BodyFault) -> SessionStop
    ensures { result ≡ stop_after fault }
{
    match fault {
        BodyFault::Truncated => SessionStop::Truncated,
        BodyFault::BadChunk | BodyFault::TooLong => SessionStop::Closed(Why::Unread),
        BodyFault::Fault => SessionStop::ClientFault,
        BodyFault::NoMemory => SessionStop::NoMemory,
    }
}

/// Reads the rest of a body, after a whole reply or page.
fn finish_body<C: Link>(body: &mut BodyIn, inbox: &mut Inbox, client: &mut C) -> SessionTurn
    ensures { IsClientStep C.Meanings client.old client.new (λ s n. Finishes (body_at body.old inbox.old s) (body_at body.new inbox.new n) result) }
{
    match body.skip_rest(inbox, client) {
        Ok(()) => SessionTurn::Next,
        Err(fault) => SessionTurn::EndsAfter(stop_for(fault)),
    }
}

/// What follows an answer; after a whole one that isn't the last, the rest of the body is read.
fn turn_after<C: Link>(
    answered: Answered,
    last: bool,
    body: &mut BodyIn,
    inbox: &mut Inbox,
    client: &mut C,
) -> SessionTurn
    ensures turned { IsClientStep C.Meanings client.old client.new
        (λ s n. TurnsAfter answered last (body_at body.old inbox.old s) (body_at body.new inbox.new n) result) }
    ensures more { result ≡ SessionTurn.Next → last ≡ false }
{
    match answered {
        Answered::Not(stop) => SessionTurn::EndsAt(stop),
        Answered::Whole if last => SessionTurn::EndsAfter(SessionStop::Closed(Why::Last)),
        Answered::Whole => finish_body(body, inbox, client),
    }
}

/// Puts the row of a request that was answered; room for it was taken.
fn put_row<W: RowSink>(rows: &mut W, row: Option<Served>)
    requires { W.has_room rows.old }
    ensures { W.gained rows.old (rows_of row) rows.new }
{
    if let Some(row) = row {
        rows.put(row);
    }
}

/// Answers the request of a head, and reads what is left of its body.
fn serve_head<B: Desk, R: Reach, C: Link, K: Clock, W: RowSink>(
    alloc: Global,
    site: &SessionSite<'_>,
    head: &Head,
    number: u32,
    around: &mut Surroundings<B, K, R, C>,
    rows: &mut W,
) -> SessionTurn
where
    B::Mark: Drop,
    B::Shown: Drop,
    requires ready { IsReady (visit_of site.now) (B.state around.old.desk.now) (R.beside around.old.reach.now) }
    requires number { number < MAX_REQUESTS }
    ensures { TellsHead B.state K.answers R.Meanings R.heard C.Meanings site.now number head.now around.old around.new
        (PutIn W.gained rows.old rows.new) result }
{
    let date = moment_of(site.dated, around.clock);
    let mut body = BodyIn::new(head.plan, MAX_BODY_BYTES);
    let Ok(()) = rows.room() else {
        return SessionTurn::EndsAt(SessionStop::NoMemory);
    };
    let last = is_last(number, head);
    let of = Inquiry {
        site,
        head,
        last,
        date,
    };
    let Settled { answered, row } = answer(alloc, &of, &mut body, around);
    put_row(rows, row);
    turn_after(answered, last, &mut body, around.inbox, around.client)
}

/// What decides the bytes of the own answer to a refused head.
fn refused_kind(date: Option<HttpDate>) -> OwnKind
    ensures { result ≡ refused_kind_of date }
{
    OwnKind {
        head_only: false,
        date,
    }
}

/// Answers a refused head.
fn refuse<C: Sink, W: RowSink>(
    alloc: Global,
    date: Option<HttpDate>,
    form: Form,
    client: &mut C,
    rows: &mut W,
) -> SessionStop
    ensures { IsClientStep C.Meanings client.old client.new (λ s n. RefusesHead date form s n (PutIn W.gained rows.old rows.new) result) }
{
    let Ok(()) = rows.room() else {
        return SessionStop::NoMemory;
    };
    let own = Own::with_status(form.status());
    let stop = write_own(own, refused_kind(date), client);
    if let SessionStop::Closed(_) = stop {
        rows.put(Row::refused(alloc).own(own, false));
    }
    stop
}

/// Why the session ends where no head was read; a refused one is answered.
fn stop_without_head<C: Sink, W: RowSink>(
    alloc: Global,
    date: Option<HttpDate>,
    error: HeadError,
    client: &mut C,
    rows: &mut W,
) -> SessionStop
    ensures { IsClientStep C.Meanings client.old client.new (λ s n. StopsWithoutHead date error s n (PutIn W.gained rows.old rows.new) result) }
{
    match error {
        HeadError::Refused { status: _, form } => refuse(alloc, date, form, client, rows),
        HeadError::Truncated => SessionStop::Truncated,
        HeadError::Fault => SessionStop::ClientFault,
        HeadError::NoMemory => SessionStop::NoMemory,
    }
}

/// Reads a request and answers it.
fn serve_one<B: Desk, R: Reach, C: Link, K: Clock, W: RowSink>(
    alloc: Global,
    site: &SessionSite<'_>,
    number: u32,
    around: &mut Surroundings<B, K, R, C>,
    rows: &mut W,
) -> SessionTurn
where
    B::Mark: Drop,
    B::Shown: Drop,
    requires ready { IsReady (visit_of site.now) (B.state around.old.desk.now) (R.beside around.old.reach.now) }
    requires number { number < MAX_REQUESTS }
    ensures turn { TellsRequest B.state K.answers R.Meanings R.heard C.Meanings site.now number around.old around.new
        (PutIn W.gained rows.old rows.new) result }

    // Before a byte of it is read, the client is told that its next request is waited for.
    ensures awaits { HearsNext C.heard around.old.client.now Awaited.Client }
{
    around.client.await_next(Awaited::Client);
    match read_head(alloc, around.inbox, around.client) {
        Ok(HeadGot::Head(head)) => serve_head(alloc, site, &head, number, around, rows),
        Ok(HeadGot::End) => SessionTurn::EndsAt(SessionStop::Closed(Why::ByClient)),
        Err(error) => {
            let date = moment_of(site.dated, around.clock);
            SessionTurn::EndsAt(stop_without_head(alloc, date, error, around.client, rows))
        }
    }
}

/// Whether the next request would be waited for, with nothing of it there.
fn is_idle<C: Link>(inbox: &Inbox, client: &mut C) -> bool
    ensures idle { result ≡ true → (inbox.now ≡ []) × (C.may_wait ≡ true) }
    ensures same { IsClientStep C.Meanings client.old client.new (λ s n. n ≡ s) }
{
    inbox.is_empty() && client.waits()
}

/// Serves a client's requests until the session ends, and puts a row for each one that was answered, as it ends. Of what an
/// earlier session left in the inbox nothing is seen.
///
/// No talk of the reach runs before the call or after it.
pub fn serve_session<B: Desk, R: Reach, C: Link, K: Clock, W: RowSink>(
    alloc: Global,
    site: &SessionSite<'_>,
    around: &mut Surroundings<B, K, R, C>,
    rows: &mut W,
) -> SessionEnd
where
    B::Mark: Drop,
    B::Shown: Drop,
    requires ready { IsReady (visit_of site.now) (B.state around.old.desk.now) (R.beside around.old.reach.now) }

    // All requests and the end, what the client has, and what is kept; then what follows of each session that ends so.
    ensures session { IsWholeSession B.state K.answers R.Meanings C.Meanings (visit_of site.now) around.old around.new
        (PutIn W.gained rows.old rows.new) result }
    ensures each { HoldsOfEach (visit_of site.now) result }

    // Before each request the client is told that it is waited for, and before each talk the reach how long its dial may take.
    ensures awaits { let at = standing_with B.state K.answers R.Meanings C.Meanings in
        AwaitsRequests C.Meanings C.heard (visit_of site.now) (at around.old) (at around.new) result }
    ensures dials { DialsInTime R.Meanings R.heard site.now around.old around.new }

    // A client that is left while it waits is one whose reads may wait.
    ensures idle_only { result.stop ≡ SessionStop.Closed Why.Idle → C.may_wait ≡ true }
{
    around.inbox.clear();
    let mut number = 0;
    loop {
        match serve_one(alloc, site, number, around, rows) {
            SessionTurn::Next => number += 1,
            SessionTurn::EndsAfter(stop) => return stop.after(number + 1),
            SessionTurn::EndsAt(stop) => return stop.after(number),
        }
        if is_idle(around.inbox, around.client) {
            return SessionStop::Closed(Why::Idle).after(number);
        }
    }
}
