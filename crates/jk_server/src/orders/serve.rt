//! `serve`: clients served over the balancers of a site.
ghost use Rattle.std.specs.Prelude.{◌≡◌, ◌≤◌, [], IsSome, None, Some, length};
ghost use Rattle.std.specs.Option.{option_copied};
ghost use Rattle.jk_io.specs.Told.{HasCause};
ghost use Rattle.request_log.specs.Formats.{refusal_line as line_of_refusal};
ghost use Rattle.site_reports.specs.Found.{refusing_line as line_of_files};
ghost use Rattle.jk_server.specs.Commands.{cut_at, format_text as text_of_format, telling, wants_by, HandsOnSite, ServesOrder, WorksSite, WritesLine};
ghost use Rattle.jk_server.specs.Ends.{end_of_run, returned, status_of};
ghost use Rattle.jk_server.specs.Watches.{watch_plan};
ghost use Rattle.gear_parts.specs.Wants.{wants_of};
ghost use Rattle.gear_parts.specs.Worlds.{HandsAndTakes, world_side};

use crate::orders::ends::{CommandEnd, NO_MEMORY, OUTPUT_FAULT, REFUSED, end_by, end_of_run};
use crate::runs::ends::{Closing, SiteRun};
use crate::runs::parts::{SitePlan, WatchPlan};
use crate::runs::serve::serve_gears;
use gear_parts::{GearOf, GearOrder, ToldWorld, World, give_back, log_gears, take_gears};
use jk_cli::ServeOrder;
use jk_io::{Bytes, Door, Files, IoError, NoMemory, Sink, write_all};
use request_log::{Format, FormatError, read_format, refusal_line};
use site_config::Config;
use site_reports::{AcceptedSite, Judged, SiteFound, read_site, refusing_line};
use std::alloc::Global;
use std::marker::Brand;
use std::sync::Wait;
use std::thread::Threads;

/// How `serve` ended, and what it found of its files, where one of them is refused.
#[derive(Drop)]
pub struct ServeRun {
    pub end: CommandEnd<Brand>,
    pub refused: Option<SiteFound>,
}

/// An end at which no file was found to be refused.
fn none_refused(end: CommandEnd<Brand>) -> ServeRun
    ensures { (result.end ≡ end) × (result.refused ≡ None) }
{
    ServeRun { end, refused: None }
}

/// The format of the logs, as it is written.
fn format_text(text: &Option<Bytes>) -> &[u8]
    ensures { result.now ≡ text_of_format text.now }
{
    match text {
        Some(text) => text.as_slice(),
        None => b"%w %m %U%q %s %b",
    }
}

/// Writes the line that refuses a format at this place.
fn refuse_format<O: Sink>(alloc: Global, at: u64, out: &mut O) -> CommandEnd<Brand>
    ensures { WritesLine (O.sent out.old) (O.sent out.new) (O.faults out.old) (O.faults out.new) (line_of_refusal at) result }
{
    match refusal_line(alloc, at) {
        Ok(line) => refuse(out, &line),
        Err(NoMemory) => CommandEnd::Status(NO_MEMORY),
    }
}

/// The number of kept entries at which a journal is cut, by the word that says how many may be lost; 65,536 without one.
pub fn cut_at(most: Option<u64>) -> u32
    ensures { result ≡ cut_at most }
{
    match most {
        Some(most) => u32::try_from(most.saturating_sub(3).max(1)).unwrap_or(u32::MAX),
        None => 65_536,
    }
}

/// How idle links are looked after, by the words that say so; where no looks are given a link may stay idle for ten.
fn watch_plan(seconds: Option<u64>, looks: Option<u32>) -> Option<WatchPlan>
    ensures { result ≡ watch_plan seconds looks }
{
    Some(WatchPlan {
        every: seconds?,
        limit: looks.unwrap_or(10),
    })
}

/// Writes the line that refuses a site's files.
fn refuse<O: Sink>(out: &mut O, line: &Bytes) -> CommandEnd<Brand>
    ensures { WritesLine (O.sent out.old) (O.sent out.new) (O.faults out.old) (O.faults out.new) line.now result }
{
    match write_all(out, line.as_slice()) {
        Ok(()) => CommandEnd::Status(REFUSED),
        Err(IoError::Failed) => CommandEnd::Status(OUTPUT_FAULT),
        Err(IoError::NoMemory) => CommandEnd::Status(NO_MEMORY),
    }
}

/// Writes the line of files that are refused, by what was found of them.
fn refuse_site<O: Sink>(alloc: Global, found: &Option<SiteFound>, out: &mut O) -> CommandEnd<Brand>
    ensures { WritesLine (O.sent out.old) (O.sent out.new) (O.faults out.old) (O.faults out.new) (line_of_files found.now) result }
{
    match refusing_line(alloc, found) {
        Ok(line) => refuse(out, &line),
        Err(NoMemory) => CommandEnd::Status(NO_MEMORY),
    }
}

/// Gives the gears of a run back, unless its closing wanted memory.
fn give_by<W: World>(world: &mut W, closing: &Closing<Brand>, gears: Vec<GearOf<W>>)
    requires out { length (returned closing.now gears.items) ≤ W.out world.old }
    ensures given { let at = world_side W.World in
        HandsAndTakes (at world.old) (at world.new) [] (returned closing.now gears.items) }
    ensures calm { W.faults world.new ≡ W.faults world.old }
    ensures unshown { W.shown world.new ≡ W.shown world.old }
{
    match closing {
        Closing::NoMemory => {}
        Closing::Kept | Closing::ShelfFault | Closing::Differs(_) => give_back(world, gears),
    }
}

/// Gives the gears of a run back, and answers how it ended.
fn settle<W: World>(world: &mut W, run: SiteRun<Brand, GearOf<W>>) -> CommandEnd<Brand>
    requires out { length (returned run.closing run.gears.items) ≤ W.out world.old }
    ensures given { let at = world_side W.World in
        HandsAndTakes (at world.old) (at world.new) [] (returned run.closing run.gears.items) }
    ensures calm { W.faults world.new ≡ W.faults world.old }
    ensures ended { result ≡ end_of_run run.workers run.closing }
    ensures unshown { W.shown world.new ≡ W.shown world.old }
{
    let SiteRun {
        workers,
        closing,
        gears,
    } = run;
    give_by(world, &closing, gears);
    end_of_run(workers.into_vec(), closing)
}

/// What the gears are asked for, over this configuration.
fn gear_order<'a>(order: &'a ServeOrder, cfg: &'a Config) -> GearOrder<'a>
    ensures wanted { wants_of result ≡ wants_by order.now }
    ensures site { (option_copied result.cfg ≡ Some cfg.now) × IsSome result.cfg }
{
    GearOrder {
        address: &order.address,
        clients: order.clients,
        journal: order.journal.as_ref(),
        log: order.log.as_ref(),
        cfg: Some(cfg),
        limits: order.limits,
        control: order.control.as_ref(),
        grace: order.grace,
    }
}

/// Serves the clients of a site by a worker for each gear, and gives the gears back.
fn serve_site<W: World, R: Threads + Wait + Sync>(
    rt: &R,
    alloc: Global,
    order: &ServeOrder,
    format: &Format,
    site: &AcceptedSite,
    world: &mut W,
) -> CommandEnd<Brand>
where
    <W::D as Door>::L: Send,
    ensures works { WorksSite ⟦<W as ToldWorld>⟧.told
        order.now format.now site.now world.old world.new result }
    ensures unshown { W.shown world.new ≡ W.shown world.old }
{
    let threads = order.threads.get();
    let asked = gear_order(order, &site.workers.config);
    let gears = match take_gears(alloc, world, threads, &asked) {
        Ok(gears) => gears,
        Err(error) => return end_by(error),
    };
    let gears = match log_gears(alloc, world, threads, asked.log, gears) {
        Ok(gears) => gears,
        Err(error) => return end_by(error),
    };
    let plan = SitePlan {
        cfg: &site.workers.config,
        map: &site.rules,
        cut: cut_at(order.cut),
        format,
        watch: watch_plan(order.watch, order.idle),
    };
    match serve_gears(rt, alloc, plan, gears) {
        Ok(ran) => settle(world, ran),
        Err(gears) => {
            give_back(world, gears);
            CommandEnd::Status(NO_MEMORY)
        }
    }
}

/// `serve`, over the files WORKERS and MAP. A format that is none is refused before any file is read. The world is shown the site
/// before a gear is asked for; of files that are refused what was found is handed on, also where their line couldn't be written.
pub fn serve<F: Files, O: Sink, W: World, R: Threads + Wait + Sync>(
    rt: &R,
    alloc: Global,
    order: &ServeOrder,
    files: &mut F,
    out: &mut O,
    world: &mut W,
) -> ServeRun
where
    <W::D as Door>::L: Send,
    ensures serves { ServesOrder (telling F.Files O.Meanings ⟦<W as ToldWorld>⟧.told)
        order.now (files.old, out.old, world.old) (files.new, out.new, world.new) result.end }
    ensures refused { HandsOnSite (telling F.Files O.Meanings ⟦<W as ToldWorld>⟧.told)
        order.now (files.old, out.old, world.old) (files.new, out.new, world.new) (status_of result.end) result.refused }
{
    let format = match read_format(alloc, format_text(&order.format)) {
        Ok(format) => format,
        Err(FormatError::BadFormat { at }) => return none_refused(refuse_format(alloc, at, out)),
        Err(FormatError::NoMemory) => return none_refused(CommandEnd::Status(NO_MEMORY)),
    };
    match read_site(alloc, files, &order.workers, &order.map) {
        Ok(Judged::Site(site)) => {
            world.show_site(alloc, &site);
            none_refused(serve_site(rt, alloc, order, &format, &site, world))
        }
        Ok(Judged::Refused(refused)) => {
            let end = refuse_site(alloc, &refused, out);
            ServeRun { end, refused }
        }
        Err(error) => none_refused(end_by(error)),
    }
}
