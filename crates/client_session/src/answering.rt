//! One request is answered: by its worker, or by the connector itself.
ghost use Rattle.std.specs.Prelude.{◌≡◌, ◌≤◌, ◌<◌, true, Some, IfErr, IfOk, MatchResult, length, slice_get, vec_capacity};
ghost use Rattle.std.specs.List.{All};
ghost use Rattle.lb_model.specs.declared.member.MemberConfig.{MemberConfig as AnyMember};
ghost use Rattle.site_mounts.specs.Sites.{is_worker};
ghost use Rattle.site_config.specs.declared.config.Named.TheVariants as named_is;
ghost use Rattle.exchange.specs.Requests.{errand_of};
ghost use Rattle.client_session.specs.Answers.{errand_at};
ghost use Rattle.client_session.specs.Concluding.{HasNamesWithin, HasRowRoom, IsKnownStop, IsNotFound};
ghost use Rattle.client_session.specs.Keeping.{IsShown, TellsAnswer};
ghost use Rattle.client_session.specs.Ready.{IsReady};
ghost use Rattle.client_session.specs.Requests.{IsNewBody, continue_for, mounted_at, visit_in, visit_of};
ghost use Rattle.client_session.specs.Standings.{IsClientStep, Puts};
ghost use Rattle.client_session.specs.Surroundings.{IsAnsweredAt, IsRequestAnswered, IsShownAt};
ghost use Rattle.client_session.specs.Turns.{LeavesBodySound};
ghost use Rattle.client_session.specs.Writing.{BreaksOff, WritesPart};

use crate::concluding::{conclude, conclude_stop};
use crate::ending::SessionStop;
use crate::inquiry::{Inquiry, own_kind_of};
use crate::requests::{awaits_continue, is_head};
use crate::rows::Row;
use crate::status::serve_status;
use crate::surroundings::Surroundings;
use crate::turn::{Answered, Settled, stopped};
use crate::writing::{send, write_own};
use exchange::{Means, Request, Sides, exchange_of};
use http_front::{BodyIn, Head, Inbox};
use http_out::Own;
use jk_io::{Clock, Link, NoMemory, Reach, Sink};
use lb_book::Desk;
use lb_model::MemberConfig;
use site_config::{Config, Named, Status};
use std::alloc::Global;

const CONTINUE: &[u8] = b"HTTP/1.1 100 Continue\r\n\r\n";

/// The length of the longest name of these members.
fn longest_of(members: &[MemberConfig]) -> usize
    ensures { All (λ (m : AnyMember). length m.name ≤ result) members.now }
{
    let mut longest = 0;
    for member in members {
        if longest < member.name.len() {
            longest = member.name.len();
        }
    }
    longest
}

/// A worker of a configuration, at which a request is mounted.
#[derive(Clone, Copy)]
struct Mounted<'a> {
    cfg: &'a Config,
    worker: Named,
    ghost stands: { is_worker cfg.now worker ≡ true },
}

/// The length of the longest name that a row of this worker may tell.
fn longest_name(mounted: Mounted<'_>) -> usize
    ensures { HasNamesWithin mounted.entry.cfg.now mounted.entry.worker result }
{
    let Mounted { cfg, worker } = mounted;
    match worker {
        Named::Status(place) => cfg.statuses.as_slice()[place as usize].name.len(),
        Named::Balancer(lb) => longest_of(cfg.lbs.as_slice()[lb as usize].book.members.as_slice()),
    }
}

/// Tells a client that waits for it that its body may come.
fn send_continue<C: Sink>(head: &Head, client: &mut C) -> Result<(), SessionStop>
    ensures { IsClientStep C.Meanings client.old client.new (λ s n. WritesPart (continue_for head.now) s n result) }
{
    if !awaits_continue(head) {
        return Ok(());
    }
    send(CONTINUE, client)
}

/// The request as the balancer at this place gets it.
fn request_at<'a>(of: &Inquiry<'a, 'a>, lb: u32) -> Request<'a>
    requires worker { lb < length of.now.site.now.cfg.now.lbs }
    ensures head { result.head.now ≡ of.now.head.now }
    ensures session { result.session ≡ of.now.site.now.session }
    ensures lb { result.lb ≡ lb }
    ensures balancer { slice_get of.now.site.now.cfg.now.lbs lb ≡ Some result.balancer.now }
    ensures errand { errand_of result ≡ errand_at (visit_in of.now) of.now.head.now of.now.last lb result.balancer.now }
{
    let Inquiry {
        site,
        head,
        last,
        date,
    } = *of;
    Request {
        head,
        peer: site.peer,
        last,
        date,
        session: site.session,
        lb,
        balancer: &site.cfg.lbs.as_slice()[lb as usize],
        terms: site.map.terms(head.clean.as_slice()),
    }
}

/// Answers a request of a balancer.
fn forward<B: Desk, R: Reach, C: Link, K: Clock>(
    alloc: Global,
    of: &Inquiry,
    lb: u32,
    row: Row,
    body: &mut BodyIn,
    around: &mut Surroundings<B, K, R, C>,
) -> Settled
where
    B::Mark: Drop,
    requires ready { IsReady (visit_of of.now.site.now) (B.state around.old.desk.now) (R.beside around.old.reach.now) }
    requires mounted { mounted_at (visit_in of.now) of.now.head.now ≡ Some (named_is.Balancer lb) }
    requires worker { lb < length of.now.site.now.cfg.now.lbs }
    requires fresh { IsNewBody of.now.head.now.plan body.old }
    requires room { HasRowRoom of.now.site.now.cfg.now (named_is.Balancer lb) of.now.head.now row }
    ensures answer { TellsAnswer B.state K.answers R.Meanings R.heard C.Meanings of.now around.old around.new result
        (λ s n. IsAnsweredAt of.now s n body.old body.new result) }
    ensures going { LeavesBodySound result.answered body.new }
{
    let request = request_at(of, lb);
    let mut means = Means {
        desk: around.desk,
        clock: around.clock,
        sides: Sides {
            reach: around.reach,
            client: around.client,
            body,
            inbox: around.inbox,
        },
    };
    let end = exchange_of(alloc, &request, &mut means);
    let members = request.balancer.book.members.as_slice();
    conclude(end, members, is_head(of.head), row)
}

/// What a status worker's answer means to the session, and the row of its request.
fn shown(answer: Result<u64, SessionStop>, status: &Status, head_only: bool, row: Row) -> Settled
    requires room { length status.now.name ≤ vec_capacity row.name }
    requires known { IfErr answer IsKnownStop }
    ensures { IsShown answer status.now.name head_only row.asked result }
{
    match answer {
        Ok(len) => Settled {
            answered: Answered::Whole,
            row: Some(row.of_worker(200, len, status.name.as_slice())),
        },
        Err(stop) => conclude_stop(stop, head_only, row),
    }
}

/// Answers a request of a status worker.
fn show<B: Desk, R: Reach, C: Link, K: Clock>(
    alloc: Global,
    of: &Inquiry,
    place: u32,
    row: Row,
    around: &mut Surroundings<B, K, R, C>,
) -> Settled
where
    B::Mark: Drop,
    B::Shown: Drop,
    requires ready { IsReady (visit_of of.now.site.now) (B.state around.old.desk.now) (R.beside around.old.reach.now) }
    requires mounted { mounted_at (visit_in of.now) of.now.head.now ≡ Some (named_is.Status place) }
    requires worker { place < length of.now.site.now.cfg.now.statuses }
    requires room { HasRowRoom of.now.site.now.cfg.now (named_is.Status place) of.now.head.now row }
    ensures { TellsAnswer B.state K.answers R.Meanings R.heard C.Meanings of.now around.old around.new result
        (λ s n. IsShownAt of.now s n result) }
{
    let status = &of.site.cfg.statuses.as_slice()[place as usize];
    let answer = serve_status(alloc, of, status, around);
    shown(answer, status, is_head(of.head), row)
}

/// A row of this request, with room for the longest name that it may tell.
fn row_at(alloc: Global, mounted: Mounted<'_>, head: &Head) -> Result<Row, NoMemory>
    ensures { IfOk result (HasRowRoom mounted.entry.cfg.now mounted.entry.worker head.now) }
{
    Row::of(alloc, head, longest_name(mounted))
}

/// Makes the row of a mounted request, and then tells a client that waits for it that its body may come.
fn begin<C: Sink>(
    alloc: Global,
    mounted: Mounted<'_>,
    head: &Head,
    client: &mut C,
) -> Result<Row, SessionStop>
    ensures room { IfOk result (HasRowRoom mounted.entry.cfg.now mounted.entry.worker head.now) }
    ensures told { IsClientStep C.Meanings client.old client.new
        (λ s n. MatchResult result (λ row. Puts s n (continue_for head.now)) (BreaksOff (continue_for head.now) s n)) }
{
    let Ok(row) = row_at(alloc, mounted, head) else {
        return Err(SessionStop::NoMemory);
    };
    match send_continue(head, client) {
        Ok(()) => Ok(row),
        Err(stop) => Err(stop),
    }
}

/// Answers a request that is mounted nowhere.
fn not_found<C: Sink>(alloc: Global, of: &Inquiry, client: &mut C) -> Settled
    ensures { IsClientStep C.Meanings client.old client.new (λ s n. IsNotFound (visit_in of.now) of.now.head.now s n result) }
{
    let Ok(row) = Row::of(alloc, of.head, 0) else {
        return stopped(SessionStop::NoMemory);
    };
    conclude_stop(
        write_own(Own::NotFound, own_kind_of(of), client),
        is_head(of.head),
        row,
    )
}

/// Answers a request that was read.
pub(crate) fn answer<B: Desk, R: Reach, C: Link, K: Clock>(
    alloc: Global,
    of: &Inquiry,
    body: &mut BodyIn,
    around: &mut Surroundings<B, K, R, C>,
) -> Settled
where
    B::Mark: Drop,
    B::Shown: Drop,
    requires ready { IsReady (visit_of of.now.site.now) (B.state around.old.desk.now) (R.beside around.old.reach.now) }
    requires fresh { IsNewBody of.now.head.now.plan body.old }
    ensures answer { TellsAnswer B.state K.answers R.Meanings R.heard C.Meanings of.now around.old around.new result
        (λ s n. IsRequestAnswered of.now s n body.old body.new result) }
    ensures going { LeavesBodySound result.answered body.new }
{
    let Some(worker) = of.site.map.mount(of.head.clean.as_slice()) else {
        return not_found(alloc, of, around.client);
    };
    let mounted = Mounted {
        cfg: of.site.cfg,
        worker,
    };
    let row = match begin(alloc, mounted, of.head, around.client) {
        Ok(row) => row,
        Err(stop) => return stopped(stop),
    };
    match worker {
        Named::Balancer(lb) => forward(alloc, of, lb, row, body, around),
        Named::Status(place) => show(alloc, of, place, row, around),
    }
}
