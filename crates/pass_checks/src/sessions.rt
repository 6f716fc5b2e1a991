//! Two sessions side by side, of callers that take turns at one Book: the member answers the first only once the second's client
//! has its own answer. Were both served by one thread, the first would wait in vain.
//!
//! The links of a session are made by its own thread, and all that owns links is written over any links.
ghost use Rattle.std.specs.Prelude.{◌≡◌, ◌<◌, ◌∷◌, [], false, true, IfOk, IfSome, Some};
ghost use Rattle.conn_pool.specs.Idle.{counts};
ghost use Rattle.exchange.specs.Requests.{sizes_of};
ghost use Rattle.lb_model.specs.Journal.{members};
ghost use Rattle.lb_passes.specs.Passes.{MayTakeTurns};
ghost use Rattle.lb_passes.specs.Placed.{AreBack, IsBack};
ghost use Rattle.pass_checks.specs.Pairs.{ArePair};
ghost use Rattle.status_worker.specs.Desks.{KeepsTickets};
ghost use Rattle.site_mounts.specs.Sites.{stands_in};

use crate::notes::{put_busy, put_number};
use crate::pair::{PassPair, PlacedPass};
use client_session::{SessionSite, Surroundings, serve_session};
use conn_pool::{Idle, NoTape, PooledReach, Pools};
use http_front::Inbox;
use jk_io::{
    Bytes, Dial, Gate, GateLink, IoError, Link, MAX_INPUT_BYTES, MemLink, NoMemory, NumberList,
    Peer, Reach, SizeList, SizeTable, StepClock, Turn,
};
use journal_text::{TextError, write_segment};
use journal_verdict::{check_journal, put_verdict};
use lb_book::{Book, Desk};
use lb_model::NoRows;
use lb_passes::{Pass, PassBook, PassList, PassPlace, PlacedDesk, close_passes};
use site_config::Config;
use site_mounts::UriMap;
use std::alloc::Global;
use std::marker::Brand;
use std::sync::Wait;
use std::thread::{self, Threads};
use std::time::Clock;

/// The place that the second session's client raises.
const SECOND_IS_ANSWERED: u32 = 0;

/// A place that is raised from the beginning.
const OPEN: u32 = 1;

/// A place that is raised, and for which nobody waits.
const NOBODY_WAITS: u32 = 2;

/// How many idle links there may be.
const POOL: u32 = 1;

/// A dial that gives one link.
#[derive(Drop)]
struct OneDial<L> {
    link: Option<L>,
}

impl<L: Link + Drop + Send> Dial for OneDial<L> {
    type L = L;

    ghost faults = { λ _. 0 };

    fn dial(&mut self, _alloc: Global, _host: &Bytes, _port: u16) -> Result<L, IoError> {
        self.link.take().ok_or(IoError::NoMemory)
    }

    fn await_dial(&mut self, _millis: u64, _keepalive: bool) {}
}

/// What a client sends, and what its member answers.
#[derive(Drop)]
pub struct Texts {
    pub client: Bytes,
    pub member: Bytes,
}

/// A site of one worker, and what the clients of both callers and their members send.
#[derive(Drop)]
pub struct Stage {
    pub config: Config,
    pub map: UriMap,
    pub peer: Peer,
    pub first: Texts,
    pub second: Texts,
    pub ghost stands: { stands_in config map ≡ true },
    pub ghost one: { sizes_of config.lbs ≡ 1 ∷ [] },
}

/// What is sent in a session, the place at which its member's answer waits, and the one that its client raises once it has its
/// answer.
#[derive(Clone, Copy)]
struct Part<'t> {
    texts: &'t Texts,
    member: u32,
    client: u32,
    ghost known: { (member < 64) × (client < 64) },
}

/// The caller of this number, which holds no ticket.
#[derive(Drop)]
struct Seat<'b, 'r, P: PassPlace, R, const NUMBER: u32> {
    desk: PlacedDesk<'b, 'r, P, R>,
    ghost caller: { desk.desk.desk.caller ≡ Some NUMBER },
    ghost none_held: { desk.desk.desk.held ≡ [] },
    ghost sized: { desk.desk.desk.sizes ≡ 1 ∷ [] },
}

/// What both sessions leave: the passes, and what was told.
#[derive(Drop)]
struct BothLeft {
    passes: PassList,
    told: Bytes,
}

/// Serves a client by one session.
fn serve<B: Desk, G: Reach, C: Link>(
    alloc: Global,
    stage: &Stage,
    number: u32,
    desk: &mut B,
    reach: &mut G,
    client: &mut C,
)
where
    B::Mark: Drop,
    B::Shown: Drop,
    requires caller { IfSome (B.state desk.old).caller (λ n. number ≡ n) }
    requires sizes { (B.state desk.old).sizes ≡ 1 ∷ [] }
    requires idle { (G.beside reach.old).runs ≡ false }
    requires reach_sizes { (G.beside reach.old).sizes ≡ 1 ∷ [] }
    ensures { KeepsTickets number (B.state desk.old) (B.state desk.new) }
{
    let site = SessionSite {
        cfg: &stage.config,
        map: &stage.map,
        session: number,
        peer: &stage.peer,
        dated: true,
    };
    let mut clock = StepClock::new(NumberList::new(alloc));
    let Ok(mut inbox) = Inbox::new(alloc) else {
        return;
    };
    let mut around = Surroundings {
        desk,
        clock: &mut clock,
        reach,
        client,
        inbox: &mut inbox,
    };
    serve_session(alloc, &site, &mut around, &mut NoRows);
}

/// A pool for the one worker.
fn pools_for<'r, L: Drop, R>(rt: &'r R, alloc: Global) -> Result<Pools<'r, Idle<L>, R>, NoMemory>
    ensures { IfOk result (λ pools. counts pools ≡ 1 ∷ []) }
{
    let mut sizes = SizeList::new(alloc);
    sizes.push(POOL)?;
    let mut table = SizeTable::new(alloc);
    table.push(sizes)?;
    Pools::new(rt, alloc, &table)
}

/// Serves the client of a caller over these links, and gives the client's link back.
fn serve_over<P: PassPlace, L: Link + Drop + Send, R: Wait, const NUMBER: u32>(
    rt: &R,
    alloc: Global,
    stage: &Stage,
    seat: &mut Seat<'_, '_, P, R, NUMBER>,
    client: L,
    member: L,
) -> Result<L, NoMemory> {
    let pools = pools_for(rt, alloc)?;
    let dial = OneDial { link: Some(member) };
    let mut reach = PooledReach::new(&pools, dial, NoTape);
    let mut client = client;
    serve(
        alloc,
        stage,
        NUMBER,
        &mut seat.desk,
        &mut reach,
        &mut client,
    );
    Ok(client)
}

/// A link that gives a text.
fn link_of(alloc: Global, text: &Bytes) -> Result<MemLink, NoMemory> {
    Ok(MemLink::new(alloc, text.copy()?, NumberList::new(alloc)))
}

/// Serves the client of a caller at a gate, and says what was sent to it.
fn serve_at<P: PassPlace, R: Wait + Clock + Sync, const NUMBER: u32>(
    rt: &R,
    alloc: Global,
    stage: &Stage,
    seat: &mut Seat<'_, '_, P, R, NUMBER>,
    gate: &Gate<'_, R>,
    part: Part<'_>,
) -> Result<Bytes, NoMemory> {
    let client = link_of(alloc, &part.texts.client)?;
    let member = link_of(alloc, &part.texts.member)?;
    let client = GateLink::new(client, gate, part.client, Turn::Raises);
    let member = GateLink::new(member, gate, part.member, Turn::Waits);
    let client = serve_over(rt, alloc, stage, seat, client, member)?;
    Bytes::from_slice(alloc, client.link().sent())
}

/// Serves both clients, by a thread each, and says what was sent to them. The member answers the first once the second's client
/// has its answer, and the second at once: the place that it waits for is raised from the beginning.
fn serve_both<P: PassPlace + Send + Sync, R: Threads + Wait + Clock + Sync>(
    rt: &R,
    alloc: Global,
    stage: &Stage,
    first: &mut Seat<'_, '_, P, R, 0>,
    second: &mut Seat<'_, '_, P, R, 1>,
) -> Result<(Bytes, Bytes), NoMemory> {
    let gate = Gate::new(rt);
    gate.raise(OPEN);
    let one = Part {
        texts: &stage.first,
        member: SECOND_IS_ANSWERED,
        client: NOBODY_WAITS,
    };
    let other = Part {
        texts: &stage.second,
        member: OPEN,
        client: SECOND_IS_ANSWERED,
    };
    let (told, other_told) = thread::join(
        rt,
        || serve_at(rt, alloc, stage, first, &gate, one),
        || serve_at(rt, alloc, stage, second, &gate, other),
    );
    Ok((told?, other_told?))
}

/// Adds what was sent to a client.
fn put_sent(out: &mut Bytes, sent: &Bytes) -> Result<(), NoMemory> {
    out.extend(b"sent\n")?;
    out.extend(sent.as_slice())?;
    out.push(b'\n')
}

/// Adds what a caller sees.
fn put_seen<P: PassPlace, R: Wait, const NUMBER: u32>(
    out: &mut Bytes,
    seat: &mut Seat<'_, '_, P, R, NUMBER>,
) -> Result<(), NoMemory> {
    let seen = seat.desk.look(0)?;
    put_number(out, b"then next ", seen.next)?;
    put_busy(out, seen.rows.as_slice())
}

/// Adds what both callers see once each has met the other's note.
fn put_met<P: PassPlace, R: Wait>(
    out: &mut Bytes,
    first: &mut Seat<'_, '_, P, R, 0>,
    second: &mut Seat<'_, '_, P, R, 1>,
) -> Result<(), NoMemory> {
    second.desk.meet(first.desk.note());
    first.desk.meet(second.desk.note());
    put_seen(out, first)?;
    put_seen(out, second)
}

/// Has both callers served, and says what was sent to their clients and what they see then.
fn tell_both<P: PassPlace + Send + Sync, R: Threads + Wait + Clock + Sync>(
    rt: &R,
    alloc: Global,
    stage: &Stage,
    first: &mut Seat<'_, '_, P, R, 0>,
    second: &mut Seat<'_, '_, P, R, 1>,
) -> Result<Bytes, NoMemory> {
    let mut told = Bytes::new(alloc);
    let (sent, other_sent) = serve_both(rt, alloc, stage, first, second)?;
    put_sent(&mut told, &sent)?;
    put_sent(&mut told, &other_sent)?;
    put_met(&mut told, first, second)?;
    Ok(told)
}

/// The seat of the caller of this pass.
fn seat_of<'b, 'r, P: PassPlace, R, const NUMBER: u32>(
    alloc: Global,
    rt: &'r R,
    placed: PlacedPass<'b, P>,
) -> Result<Seat<'b, 'r, P, R, NUMBER>, NoMemory>
    requires number { placed.pass.number ≡ NUMBER }
    requires one { members P.origin.opening ≡ 1 }
{
    let desk = placed.desk(alloc, rt)?;
    Ok(Seat { desk })
}

/// The pass of a caller.
fn pass_of<P: PassPlace, R, const NUMBER: u32>(seat: Seat<'_, '_, P, R, NUMBER>) -> Pass
    ensures back { IsBack P.table P.origin P.given result }
    ensures number { result.number ≡ NUMBER }
{
    let Seat { desk } = seat;
    desk.into_pass()
}

/// Has the callers of the two passes of a list served, and gives the passes back.
fn over_list<P: PassPlace + Send + Sync, R: Threads + Wait + Clock + Sync>(
    rt: &R,
    alloc: Global,
    stage: &Stage,
    book: &PassBook,
    passes: PassList,
) -> Result<BothLeft, NoMemory>
    requires pair { ArePair P.table P.origin P.given book.now passes }
    requires one { members P.origin.opening ≡ 1 }
    ensures { IfOk result (λ left. AreBack P.table P.origin P.given left.passes) }
{
    let mut back = Vec::with_capacity(alloc, 2)?;
    let PassPair { first, second } = PassPair::<P>::of_list(book, passes);
    let mut first = seat_of::<P, R, 0>(alloc, rt, first)?;
    let mut second = seat_of::<P, R, 1>(alloc, rt, second)?;
    let told = tell_both(rt, alloc, stage, &mut first, &mut second)?;
    back.push_reserved(pass_of(first));
    back.push_reserved(pass_of(second));
    Ok(BothLeft {
        passes: PassList::from_vec(back),
        told,
    })
}

/// Adds what a check of the journal says.
fn put_checked(alloc: Global, book: &Book, out: &mut Bytes) -> Result<(), NoMemory> {
    let text = write_segment(b"w1", &book.segment()?)?;
    if text.len() > MAX_INPUT_BYTES {
        return out.extend(b"too long\n");
    }
    match check_journal(alloc, text.as_slice()) {
        Ok(verdict) => put_verdict(out, &verdict),
        Err(TextError::Unreadable { line: _ }) => out.extend(b"unreadable\n"),
        Err(TextError::NoMemory) => Err(NoMemory),
    }
}

/// Has both callers of a new Book served by a thread each, and says what was sent to their clients, what they see then, and what
/// a check of the journal says.
pub fn tell_stage<R: Threads + Wait + Clock + Sync>(
    rt: &R,
    alloc: Global,
    stage: &Stage,
    book: Book,
) -> Result<Bytes, NoMemory>
    requires fresh { MayTakeTurns book }
    requires one { members book.opening ≡ 1 }
{
    let (book, passes) = PassBook::new(alloc, book, 2)?;
    let left = over_list::<Brand, R>(rt, alloc, stage, &book, passes)?;
    let BothLeft { passes, mut told } = left;
    match close_passes(book, passes) {
        Ok(book) => put_checked(alloc, &book, &mut told)?,
        Err(_) => return Err(NoMemory),
    }
    Ok(told)
}
