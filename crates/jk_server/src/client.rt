//! One client: its session, and what a worker makes of the session's end.
ghost use Rattle.std.specs.Prelude.{◌≡◌, ◌<◌, [], ◌∷◌, false, Some, IsOk, IsSome};
ghost use Rattle.jk_io.specs.Told.{appended};
ghost use Rattle.client_session.specs.Ready.{IsReady};
ghost use Rattle.client_session.specs.Requests.{visit_of};
ghost use Rattle.lb_shared.specs.Histories.{HasGone};
ghost use Rattle.lb_shared.specs.Loans.{name_in, seat_in, shelf_in, state_in};
ghost use Rattle.lb_shared.specs.Notes.{StrayNote};
ghost use Rattle.lb_shared.specs.Shelves.{HasShelved};
ghost use Rattle.jk_server.specs.Lent.{AreLentStill, ServesLent, SinceCounts, lent, loaned};
ghost use Rattle.jk_server.specs.Served.{DeskSettles, IsStray, SettlesBy};
ghost use Rattle.jk_server.specs.PartTells.{part_tells};
ghost use Rattle.jk_server.specs.Turns.{LeavesClient, RestsPart};
ghost use Rattle.jk_server.specs.Worker.{MayBegin, forgot_desk, took};

use crate::part::{Post, WorkerEnd};
use crate::told_log::ToldLog;
use client_session::{SessionEnd, SessionSite, SessionStop, Surroundings, serve_session};
use gear_parts::{Part, WorkerLog};
use http_front::Inbox;
use jk_io::{Clock, Door, IoError, Link, NoMemory, Peer, Reach};
use lb_book::Desk;
use lb_model::RowSink;
use lb_shared::{DeskLoan, LentDesk, Moment, SeatedDesk, SharedDesk, Shelf, SiteName};
use std::alloc::Global;
use std::marker::{Brand, PhantomData};
use std::sync::Wait;

/// What a shelf had refused at a moment: how often it failed, and how often it wanted memory.
#[derive(Clone, Copy)]
struct ShelfCounts {
    faults: u64,
    wants: u64,
}

fn counts<L: SiteName, S: Shelf, W>(desk: &SharedDesk<'_, '_, L, S, W>) -> ShelfCounts
    ensures { (result.faults ≡ S.faults desk.now.shelf) × (result.wants ≡ desk.now.wants) }
{
    ShelfCounts {
        faults: desk.shelf_faults(),
        wants: desk.shelf_wants(),
    }
}

/// Lets the desk forget the receipts of the session before, and counts what the shelf refused until then.
fn forget_last<L: SiteName, S: Shelf, W>(desk: &mut SharedDesk<'_, '_, L, S, W>) -> ShelfCounts
    ensures counted { (result.faults ≡ S.faults desk.new.shelf) × (result.wants ≡ desk.new.wants) }
    ensures desk { desk.new ≡ forgot_desk desk.old }
{
    desk.forget();
    counts(desk)
}

/// Takes the stray that a session met.
fn stray_of<L: SiteName, S: Shelf, W>(desk: &mut SharedDesk<'_, '_, L, S, W>) -> WorkerEnd<L>
    requires { IsSome desk.old.desk.met }
    ensures { (s : StrayNote) × (result ≡ WorkerEnd.Stray s) × (desk.old.met ≡ Some s) × (desk.old.desk.met ≡ Some s.stray) × (desk.new ≡ took desk.old) }
{
    match desk.take_stray() {
        Some(stray) => WorkerEnd::Stray(stray),
        None => unreachable!(),
    }
}

/// Whether a worker ends after a session by its desk, and how. A fault of the shelf goes before a stray, and both before
/// want of memory.
fn end_after<L: SiteName, S: Shelf, W>(
    desk: &mut SharedDesk<'_, '_, L, S, W>,
    before: ShelfCounts,
    stop: SessionStop,
) -> Option<WorkerEnd<L>>
    requires { IsStray stop → IsSome desk.old.desk.met }
    ensures { SinceCounts S.faults before desk.old (λ from. DeskSettles S.faults from desk.old desk.new stop result) }
{
    let now = counts(desk);
    if before.faults < now.faults {
        return Some(WorkerEnd::ShelfFault);
    }
    if let SessionStop::Stray { .. } = stop {
        return Some(stray_of(desk));
    }
    if before.wants < now.wants {
        return Some(WorkerEnd::NoMemory);
    }
    if let SessionStop::NoMemory = stop {
        return Some(WorkerEnd::NoMemory);
    }
    None
}

/// Whether a worker ends after a session, and how: a log that failed goes first, and one that wanted memory right after a fault of
/// the shelf.
fn end_by<L: SiteName, S: Shelf, W>(
    broken: Option<IoError>,
    desk: &mut SharedDesk<'_, '_, L, S, W>,
    before: ShelfCounts,
    stop: SessionStop,
) -> Option<WorkerEnd<L>>
    requires { IsStray stop → IsSome desk.old.desk.met }
    ensures { SinceCounts S.faults before desk.old (λ from. SettlesBy broken S.faults from desk.old desk.new stop result) }
{
    match broken {
        None => end_after(desk, before, stop),
        Some(IoError::Failed) => Some(WorkerEnd::LogFault),
        Some(IoError::NoMemory) if before.faults < desk.shelf_faults() => {
            Some(WorkerEnd::ShelfFault)
        }
        Some(IoError::NoMemory) => Some(WorkerEnd::NoMemory),
    }
}

/// Leaves a client's link at the door, and says whether the worker ends, and how.
fn close_client<L: SiteName, D: Door, R, K, S: Shelf, W, Y: WorkerLog>(
    part: &mut Part<'_, '_, L, D, R, K, S, W, Y>,
    link: D::L,
    before: ShelfCounts,
    stop: SessionStop,
) -> Option<WorkerEnd<L>>
    requires room { 0 < D.room part.old.door }
    requires stray { IsStray stop → IsSome part.old.desk.desk.met }
    ensures left { D.left part.new.door ≡ appended (D.left part.old.door) (link ∷ []) }
    ensures same_door { (D.coming part.new.door ≡ D.coming part.old.door) × (D.faults part.new.door ≡ D.faults part.old.door) }
    ensures same { (part.new.reach ≡ part.old.reach) × (part.new.clock ≡ part.old.clock) × (part.new.log ≡ part.old.log) }
    ensures settled { SinceCounts S.faults before part.old.desk (λ from.
        SettlesBy (Y.broken_by part.old.log) S.faults from part.old.desk part.new.desk stop result) }
{
    part.door.leave(link);
    end_by(part.log.broken(), &mut part.desk, before, stop)
}

/// How a client is received: a session's memory, with what the client's bytes are read into, and whom it serves by what.
#[derive(Drop)]
struct Reception<'a, 'i> {
    alloc: Global,
    site: SessionSite<'a>,
    inbox: &'i mut Option<Inbox>,
}

/// What a session is lent beside its desk: a clock, a reach, the client, and where the rows of its requests are put.
#[derive(Drop)]
struct LentMeans<'k, 'r, 'c, 'y, K, R, C, Y> {
    clock: &'k mut K,
    reach: &'r mut R,
    client: &'c mut C,
    rows: &'y mut Y,
}

/// The inbox that a worker has, or a new one where it has none.
fn inbox_of(alloc: Global, had: Option<Inbox>) -> Result<Inbox, NoMemory>
    ensures { IsSome had → IsOk result }
{
    match had {
        Some(inbox) => Ok(inbox),
        None => Inbox::new(alloc),
    }
}

/// One session, by each of the things that it is lent; for want of memory for its inbox there is none.
fn serve_visit<B: Desk, R: Reach, C: Link, K: Clock, Y: RowSink>(
    of: Reception<'_, '_>,
    desk: &mut B,
    means: &mut LentMeans<K, R, C, Y>,
) -> SessionEnd
where
    B::Mark: Drop,
    B::Shown: Drop,
    requires ready { IsReady (visit_of of.site) (B.state desk.old) (R.beside means.old.reach.now) }
    ensures session { ServesLent B.state K.Clock R.Meanings R.heard C.Meanings C.heard C.may_wait Y.RowSink of.entry
        (lent desk.old means.old) (lent desk.new means.new) result }
    ensures still { AreLentStill means.old means.new }
{
    let Reception { alloc, site, inbox } = of;
    let Ok(mut bytes) = inbox_of(alloc, inbox.take()) else {
        return SessionEnd {
            requests: 0,
            stop: SessionStop::NoMemory,
        };
    };
    let mut around = Surroundings {
        desk,
        clock: means.clock,
        reach: means.reach,
        client: means.client,
        inbox: &mut bytes,
    };
    let end = serve_session(alloc, &site, &mut around, means.rows);
    *inbox = Some(bytes);
    end
}

/// As `serve_visit`, by a desk that is lent since the moment M and put back.
#[tactic(auto, using(crate::proofs::ToldLaws::lent_now, crate::proofs::ToldLaws::lent_shelf))]
fn serve_lent<B: SeatedDesk, R: Reach, C: Link, K: Clock, Y: RowSink, M: Moment>(
    of: Reception<'_, '_>,
    loan: &mut DeskLoan<'_, B>,
    means: &mut LentMeans<K, R, C, Y>,
) -> SessionEnd
where
    B::Mark: Drop,
    B::Shown: Drop,
    requires there { IsSome loan.old.desk }
    requires name { name_in loan.old.desk ≡ M.name }
    requires seat { seat_in B.seat loan.old.desk ≡ M.seat }
    requires receipts { (state_in B.state loan.old.desk).receipts ≡ M.receipts }
    requires shelf { shelf_in B.shelf loan.old.desk ≡ M.shelf }
    requires ready { IsReady (visit_of of.site) (state_in B.state loan.old.desk) (R.beside means.old.reach.now) }
    ensures there { IsSome loan.new.desk }
    ensures same { name_in loan.new.desk ≡ name_in loan.old.desk }
    ensures session { ServesLent (loaned B.state) K.Clock R.Meanings R.heard C.Meanings C.heard C.may_wait Y.RowSink of.entry
        (lent loan.old means.old) (lent loan.new means.new) result }
    ensures still { AreLentStill means.old means.new }
    ensures gone { HasGone M.seat M.receipts (seat_in B.seat loan.new.desk) (state_in B.state loan.new.desk).receipts }
    ensures shelf { HasShelved M.shelf (shelf_in B.shelf loan.new.desk) }
{
    let desk = loan.desk.take().unwrap();
    let mut lent: LentDesk<'_, B, M> = LentDesk {
        desk,
        of: PhantomData,
    };
    let end = serve_visit(of, &mut lent, means);
    let LentDesk { desk, of: _ } = lent;
    loan.desk = Some(desk);
    end
}

/// As `serve_visit`, by a desk at a lock, which is known to stay there, and to have seen as its own what the session was told; its
/// shelf was only added to.
fn serve_seated<B: SeatedDesk, R: Reach, C: Link, K: Clock, Y: RowSink>(
    of: Reception<'_, '_>,
    desk: &mut B,
    means: &mut LentMeans<K, R, C, Y>,
) -> SessionEnd
where
    B::Mark: Drop,
    B::Shown: Drop,
    requires ready { IsReady (visit_of of.site) (B.state desk.old) (R.beside means.old.reach.now) }
    ensures session { ServesLent B.state K.Clock R.Meanings R.heard C.Meanings C.heard C.may_wait Y.RowSink of.entry
        (lent desk.old means.old) (lent desk.new means.new) result }
    ensures still { AreLentStill means.old means.new }
    ensures gone { HasGone (B.seat desk.old) (B.state desk.old).receipts (B.seat desk.new) (B.state desk.new).receipts }
    ensures shelf { HasShelved (B.shelf desk.old) (B.shelf desk.new) }
{
    let mut loan = DeskLoan { desk: Some(desk) };
    let end = serve_lent::<B, R, C, K, Y, Brand>(of, &mut loan, means);
    let _back = loan.desk.unwrap();
    end
}

/// Serves a client by one session, leaves its link, and says whether the worker ends, and how.
pub(crate) fn serve_client<
    'x,
    L: SiteName,
    D: Door,
    R: Reach,
    K: Clock,
    S: Shelf,
    W: Wait,
    Y: WorkerLog,
>(
    alloc: Global,
    post: Post<'x>,
    part: &mut Part<'_, '_, L, D, R, K, S, W, Y>,
    link: D::L,
    peer: &'x Peer,
    inbox: &mut Option<Inbox>,
) -> Option<WorkerEnd<L>>
    requires ready { MayBegin post.cfg.now post.map.now part.old.desk.desk (R.beside part.old.reach) (Y.broken_by part.old.log) }
    requires room { 0 < D.room part.old.door }
    ensures { LeavesClient (part_tells D.Door D.L.Meanings D.L.heard K.Clock R.Meanings R.heard R.looks S.Shelf ⟦<Y as ToldLog>⟧.told D.L.may_wait)
        post.entry part.old part.new link peer.now result }
{
    let before = forget_last(&mut part.desk);
    part.log.greet(peer);
    let of = Reception {
        alloc,
        site: SessionSite {
            cfg: post.cfg,
            map: post.map,
            session: post.number,
            peer,
            dated: true,
        },
        inbox,
    };
    let mut link = link;
    let mut means = LentMeans {
        clock: &mut part.clock,
        reach: &mut part.reach,
        client: &mut link,
        rows: &mut part.log,
    };
    let end = serve_seated(of, &mut part.desk, &mut means);
    close_client(part, link, before, end.stop)
}

/// What a worker does between two sessions, while its desk holds no ticket. It ends where its reach wants memory to rest.
pub(crate) fn go_on<L: SiteName, D: Door, R: Reach, K: Clock, S: Shelf, W, Y: WorkerLog>(
    alloc: Global,
    part: &mut Part<'_, '_, L, D, R, K, S, W, Y>,
) -> Option<WorkerEnd<L>>
    requires idle { (R.beside part.old.reach).runs ≡ false }
    requires none_held { part.old.desk.desk.held ≡ [] }
    ensures { RestsPart (part_tells D.Door D.L.Meanings D.L.heard K.Clock R.Meanings R.heard R.looks S.Shelf ⟦<Y as ToldLog>⟧.told D.L.may_wait)
        part.old part.new result }
{
    let now = part.clock.now();
    match part.reach.rest(alloc, now) {
        Ok(()) => None,
        Err(NoMemory) => Some(WorkerEnd::NoMemory),
    }
}
