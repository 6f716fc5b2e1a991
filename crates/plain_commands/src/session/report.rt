//! One session over memory, and what is printed of it.
ghost use Rattle.std.specs.Prelude.{◌≡◌, ◌≤◌, length, true, codes, IfOk, IsSomeAnd};
ghost use Rattle.jk_io.specs.declared.whole_input.TheConstants.{MAX_INPUT_BYTES};
ghost use Rattle.site_reports.specs.Found.{FindsSite, PrintsSite, is_refused};
ghost use Rattle.plain_commands.specs.Dry.{Dries, ReportsDry, Runs, RunsIfCalm};
ghost use Rattle.plain_commands.specs.DryLines.{dry_text, end_words};
ghost use Rattle.plain_commands.specs.DryStarts.{IsFirstClient, IsFirstDesk, IsFirstReach};

use crate::plain::let_go;
use crate::session::lines::{lines_of, words_of};
use crate::session::one_reply::{OneReply, ReplyName, link_of};
use crate::session::start::{desk_of, reach_of};
use client_session::{SessionEnd, SessionSite, Surroundings, serve_session};
use http_front::Inbox;
use jk_io::{Bytes, MemLink, NoMemory, NumberList, Peer, StepClock};
use lb_book::PlainDesk;
use lb_model::ServedList;
use site_reports::{
    AcceptedSite, Report, SiteFound, judge_site, map_refusal_text, workers_refusal_text,
};
use std::alloc::Global;
use std::marker::Brand;

/// The workers.properties of a site whose files aren't named: one worker that is listed itself, with retries 1.
pub(crate) const DEFAULT_WORKERS: &[u8] = b"worker.list=w1\nworker.w1.retries=1\n";

/// The uriworkermap.properties of that site: the worker is mounted everywhere.
pub(crate) const DEFAULT_MAP: &[u8] = b"/*=w1\n";

/// What a client sends, and what the first link to a member has to come.
#[derive(Clone, Copy)]
pub(crate) struct Wire<'t> {
    pub request: &'t [u8],
    pub reply: &'t [u8],
}

/// What is told of a session: its lines, and a row for each request that was answered.
#[derive(Drop)]
pub(crate) struct Ran {
    pub lines: Bytes,
    pub rows: ServedList,
}

// Serves the client. The clock answers 0 whenever it is asked.
fn serve<N: ReplyName>(
    alloc: Global,
    site: &AcceptedSite,
    peer: &Peer,
    desk: &mut PlainDesk,
    reach: &mut OneReply<N>,
    client: &mut MemLink,
) -> Result<(SessionEnd, ServedList), NoMemory>
    requires peer { peer.now.addr ≡ codes "127.0.0.1" }
    requires desk { IsFirstDesk site.now.workers.config.lbs desk.old }
    requires reach { IsFirstReach site.now.workers.config.lbs reach.old }
    requires client { IsFirstClient client.old }
    ensures { IfOk result (λ ran. RunsIfCalm site.now.workers.config site.now.rules N.reply client.old client.new reach.new ran.0 ran.1.rows) }
{
    let mut clock = StepClock::new(NumberList::new(alloc));
    let mut inbox = Inbox::new(alloc)?;
    let site = SessionSite {
        cfg: &site.workers.config,
        map: &site.rules,
        session: 0,
        peer,
        dated: false,
    };
    let mut around = Surroundings {
        desk,
        clock: &mut clock,
        reach,
        client,
        inbox: &mut inbox,
    };
    let mut rows = ServedList::new(alloc);
    let end = serve_session(alloc, &site, &mut around, &mut rows);
    reach.vouch();
    Ok((end, rows))
}

// Whether no call of a link failed. Within a talk none is to fail, and a session makes no call outside of a talk; its
// contract doesn't say the latter, so it is checked here.
fn is_calm<N: ReplyName>(reach: &OneReply<N>, client: &MemLink) -> bool
    ensures { result ≡ true → (reach.now.faults ≡ 0) × (client.now.faults ≡ 0) }
{
    reach.faults() == 0 && client.faults() == 0
}

fn tell_end<N: ReplyName>(
    alloc: Global,
    end: SessionEnd,
    reach: &OneReply<N>,
    client: &MemLink,
) -> Result<Bytes, NoMemory>
    ensures { IfOk result (λ text. IsSomeAnd (end_words end) (λ words. text ≡ dry_text reach.now.book.talks client.now.sent words)) }
{
    let words = words_of(alloc, end)?;
    lines_of(alloc, reach.talks(), client.sent(), words.as_slice())
}

fn tell<N: ReplyName>(
    alloc: Global,
    site: &AcceptedSite,
    desk: &mut PlainDesk,
    reach: &mut OneReply<N>,
    client: &mut MemLink,
) -> Result<Ran, NoMemory>
    requires desk { IsFirstDesk site.now.workers.config.lbs desk.old }
    requires reach { IsFirstReach site.now.workers.config.lbs reach.old }
    requires client { IsFirstClient client.old }
    ensures { IfOk result (λ r. Runs site.now.workers.config site.now.rules client.old.incoming N.reply r.lines r.rows.rows) }
{
    let peer = Peer {
        addr: Bytes::from_slice(alloc, b"127.0.0.1")?,
    };
    let (end, rows) = serve(alloc, site, &peer, desk, reach, client)?;
    if !is_calm(reach, client) {
        return Err(NoMemory);
    }
    let lines = tell_end(alloc, end, reach, client)?;
    Ok(Ran { lines, rows })
}

fn with_client<N: ReplyName>(
    alloc: Global,
    site: &AcceptedSite,
    request: &[u8],
    desk: &mut PlainDesk,
    reach: &mut OneReply<N>,
) -> Result<Ran, NoMemory>
    requires desk { IsFirstDesk site.now.workers.config.lbs desk.old }
    requires reach { IsFirstReach site.now.workers.config.lbs reach.old }
    ensures { IfOk result (λ r. Runs site.now.workers.config site.now.rules request.now N.reply r.lines r.rows.rows) }
{
    tell(alloc, site, desk, reach, &mut link_of(alloc, request)?)
}

fn with_desk<N: ReplyName>(
    alloc: Global,
    site: &AcceptedSite,
    request: &[u8],
    reach: &mut OneReply<N>,
) -> Result<Ran, NoMemory>
    requires reach { IsFirstReach site.now.workers.config.lbs reach.old }
    ensures { IfOk result (λ r. Runs site.now.workers.config site.now.rules request.now N.reply r.lines r.rows.rows) }
{
    let lbs = site.workers.config.lbs.as_slice();
    with_client(alloc, site, request, &mut desk_of(alloc, lbs)?, reach)
}

/// A session over this site.
pub(crate) fn with_reach<N: ReplyName>(
    alloc: Global,
    site: &AcceptedSite,
    request: &[u8],
    reply: &[u8],
) -> Result<Ran, NoMemory>
    requires reply { reply.now ≡ N.reply }
    ensures { IfOk result (λ r. Runs site.now.workers.config site.now.rules request.now reply.now r.lines r.rows.rows) }
{
    let lbs = site.workers.config.lbs.as_slice();
    match reach_of::<N>(alloc, lbs, reply) {
        Ok(mut reach) => {
            let told = with_desk(alloc, site, request, &mut reach);
            let_go(reach);
            told
        }
        Err(NoMemory) => Err(NoMemory),
    }
}

// The lines of a session over this site.
fn of_site(alloc: Global, site: &AcceptedSite, wire: Wire<'_>) -> Result<Bytes, NoMemory>
    ensures { IfOk result (Dries site.now.workers.config site.now.rules wire.entry.request.now wire.entry.reply.now) }
{
    let Ran { lines, .. } = with_reach::<Brand>(alloc, site, wire.request, wire.reply)?;
    Ok(lines)
}

// What is printed over what was found of a site's files.
fn lines_over(alloc: Global, found: &SiteFound, wire: Wire<'_>) -> Result<Bytes, NoMemory>
    ensures { IfOk result (PrintsSite (λ c rules out. Dries c rules wire.entry.request.now wire.entry.reply.now out) found.now) }
{
    match found {
        SiteFound::Workers(_) => Ok(Bytes::new(alloc)),
        SiteFound::Site(site) => of_site(alloc, site, wire),
        SiteFound::WorkersRefused(r) => workers_refusal_text(alloc, r.refusal),
        SiteFound::MapRefused(r) => map_refusal_text(alloc, r.refusal),
    }
}

/// What `dry` prints: the lines of a session, or of the first refusal of the site's files.
pub(crate) fn report_dry(
    alloc: Global,
    workers: Bytes,
    map: Bytes,
    wire: Wire<'_>,
) -> Result<Report, NoMemory>
    requires short { (length workers ≤ MAX_INPUT_BYTES) × (length map ≤ MAX_INPUT_BYTES) }
    ensures text { IfOk result (λ r. ReportsDry wire.entry.request.now wire.entry.reply.now workers map r.text (is_refused r.found)) }
    ensures found { IfOk result (λ r. FindsSite workers map r.found) }
{
    let found = judge_site(alloc, workers, map)?;
    let text = lines_over(alloc, &found, wire)?;
    Ok(Report { text, found })
}
