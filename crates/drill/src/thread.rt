//! One thread of a drill: its requests, in sessions of at most a thousand.
ghost use Rattle.std.specs.Prelude.{◌≡◌, IfOk, IfSome};
ghost use Rattle.exchange.specs.Requests.{sizes_of};
ghost use Rattle.status_worker.specs.Desks.{KeepsTickets};
ghost use Rattle.client_session.specs.Keeping.{KeepsAround};
ghost use Rattle.client_session.specs.Ready.{IsReady};
ghost use Rattle.client_session.specs.Requests.{visit_of};
ghost use Rattle.client_session.specs.Whole.{IsWholeSession};
ghost use Rattle.client_session.specs.declared.ending.SessionEnd.{SessionEnd};
ghost use Rattle.drill.specs.Bodies.{AreCounted};
ghost use Rattle.drill.specs.Counts.{CountsLeft, CountsRows, CountsThread, visit_at};

use crate::app_reach::AppReach;
use crate::body_sum::BodySum;
use crate::plan::Plan;
use crate::requests::Requests;
use crate::site::DrillSite;
use client_session::{SessionSite, SessionStop, Surroundings, serve_session};
use http_front::Inbox;
use jk_io::{Bytes, Clock, Link, MemLink, NoMemory, NumberList, Peer, Reach, StepClock};
use lb_book::Desk;
use std::alloc::Global;

/// What a thread's sessions have in common: the site, the thread's number, which is theirs too, and their client.
#[derive(Clone, Copy)]
struct Post<'a> {
    site: &'a DrillSite,
    number: u32,
    peer: &'a Peer,
}

// One session, whose replies' bodies come to the count.
fn serve_counted<B: Desk, R: Reach, C: Link, K: Clock>(
    alloc: Global,
    site: &SessionSite<'_>,
    around: &mut Surroundings<B, K, R, C>,
    bodies: &mut BodySum,
) -> Result<(), NoMemory>
where
    B::Mark: Drop,
    B::Shown: Drop,
    requires ready { IsReady (visit_of site.now) (B.state around.old.desk.now) (R.beside around.old.reach.now) }
    ensures session { (end : SessionEnd) × IsWholeSession B.state K.answers R.Meanings C.Meanings (visit_of site.now)
        around.old around.new (AreCounted bodies.old.bytes bodies.new.bytes) end }
    ensures kept { KeepsAround B.state R.Meanings C.Meanings (visit_of site.now) around.old around.new }
{
    match serve_session(alloc, site, around, bodies).stop {
        SessionStop::NoMemory => Err(NoMemory),
        _ => Ok(()),
    }
}

// One session, of a client with all its requests to come. The clock stands at 0.
fn serve_client<B: Desk, R: Reach>(
    alloc: Global,
    post: Post<'_>,
    desk: &mut B,
    reach: &mut R,
    client: &mut MemLink,
    bodies: &mut BodySum,
) -> Result<(), NoMemory>
where
    B::Mark: Drop,
    B::Shown: Drop,
    requires ready { IsReady (visit_at post) (B.state desk.old) (R.beside reach.old) }
    ensures rows { CountsRows (visit_at post.entry) client.old.incoming
        (B.state desk.old).receipts (B.state desk.new).receipts bodies.old.bytes bodies.new.bytes }
    ensures kept { KeepsTickets post.entry.number (B.state desk.old) (B.state desk.new) }
    ensures ready { IsReady (visit_at post.entry) (B.state desk.new) (R.beside reach.new) }
{
    let mut clock = StepClock::new(NumberList::new(alloc));
    let mut inbox = Inbox::new(alloc)?;
    let site = SessionSite {
        cfg: &post.site.cfg,
        map: &post.site.map,
        session: post.number,
        peer: post.peer,
        dated: false,
    };
    let mut around = Surroundings {
        desk,
        clock: &mut clock,
        reach,
        client,
        inbox: &mut inbox,
    };
    serve_counted(alloc, &site, &mut around, bodies)
}

// One session of these requests.
fn serve_text<B: Desk, R: Reach>(
    alloc: Global,
    post: Post<'_>,
    desk: &mut B,
    reach: &mut R,
    text: Bytes,
    bodies: &mut BodySum,
) -> Result<(), NoMemory>
where
    B::Mark: Drop,
    B::Shown: Drop,
    requires ready { IsReady (visit_at post) (B.state desk.old) (R.beside reach.old) }
    ensures rows { CountsRows (visit_at post.entry) text
        (B.state desk.old).receipts (B.state desk.new).receipts bodies.old.bytes bodies.new.bytes }
    ensures kept { KeepsTickets post.entry.number (B.state desk.old) (B.state desk.new) }
    ensures ready { IsReady (visit_at post.entry) (B.state desk.new) (R.beside reach.new) }
{
    let mut client = MemLink::new(alloc, text, NumberList::new(alloc));
    serve_client(alloc, post, desk, reach, &mut client, bodies)
}

// All sessions of a thread, one after the other.
fn serve_requests<B: Desk, R: Reach>(
    alloc: Global,
    post: Post<'_>,
    desk: &mut B,
    reach: &mut R,
    requests: &mut Requests,
    bodies: &mut BodySum,
) -> Result<(), NoMemory>
where
    B::Mark: Drop,
    B::Shown: Drop,
    requires ready { IsReady (visit_at post) (B.state desk.old) (R.beside reach.old) }
    ensures counted { IfOk result (λ _. CountsLeft post.entry requests.old
        (B.state desk.old).receipts (B.state desk.new).receipts bodies.old.bytes bodies.new.bytes) }
    ensures kept { KeepsTickets post.entry.number (B.state desk.old) (B.state desk.new) }
{
    'sessions: loop {
        let mut text = Bytes::new(alloc);
        if !requests.put_session(&mut text)? {
            return Ok(());
        }
        serve_text(alloc, post, desk, reach, text, bodies)?;
    }
}

/// Makes the requests of a thread: sessions of its own number, each of at most 1,000 requests. It hands out how many bytes the
/// bodies of their replies had. After want of memory the rest of them isn't made.
pub(crate) fn serve_thread<B: Desk>(
    alloc: Global,
    site: &DrillSite,
    plan: Plan,
    number: u32,
    desk: &mut B,
) -> Result<u64, NoMemory>
where
    B::Mark: Drop,
    B::Shown: Drop,
    requires caller { IfSome (B.state desk.old).caller (λ n. number ≡ n) }
    requires sizes { (B.state desk.old).sizes ≡ sizes_of site.now.cfg.lbs }
    ensures counted { IfOk result (λ bytes. CountsThread site.now.cfg site.now.map plan.seed plan.threads plan.requests number
        (B.state desk.old).receipts (B.state desk.new).receipts bytes) }
    ensures kept { KeepsTickets number (B.state desk.old) (B.state desk.new) }
{
    let peer = Peer {
        addr: Bytes::from_slice(alloc, b"127.0.0.1")?,
    };
    let post = Post {
        site,
        number,
        peer: &peer,
    };
    let mut reach = AppReach::new(alloc, &site.cfg, &site.app);
    let mut requests = Requests::new(plan, number);
    let mut bodies = BodySum::new();
    serve_requests(alloc, post, desk, &mut reach, &mut requests, &mut bodies)?;
    Ok(bodies.bytes())
}
