//! Files of segments and of logs, and gears of the real world over the loopback.
ghost use Rattle.std.specs.Prelude.{◌≤◌, IsSome, length};

use crate::ports::free_port;
use anyhow::Result;
use check_rows::files::print_claim;
use gear_parts::{GearOrder, World};
use gear_worlds::{FileShelf, RealNewFiles, SegmentTurns};
use jk_io::{
    Bytes, Files, IoError, ListOf, MAX_INPUT_BYTES, NoMemory, Sink, put_decimal, write_all,
};
use journal_text::read_segments;
use lb_model::Segment;
use lb_shared::Shelf;
use outside_checks::answers_a_dial;
use real_io::{Notices, RealFiles};
use site_config::Config;
use site_workers::read_workers;
use std::alloc::Global;
use std::fs;
use std::net::{Net, TcpListener, TcpStream};
use std::rt::Files as SystemFiles;
use std::sync::Wait;
use std::time::Clock;

/// A journal's text with one segment.
#[derive(Clone, Copy)]
enum Sample {
    /// With which the journal begins.
    First,
    /// Whose entries come after others.
    Later,
}

impl Sample {
    fn text(self) -> &'static [u8] {
        match self {
            Sample::First => {
                b"jkj 2\nlb app B 1 1 0 1 1 1\nmember z z 1 0 A - 1 ok 0\nfrom 0 0 0 -\nend 0\n"
            }
            Sample::Later => {
                b"jkj 2\nlb app B 1 1 0 1 1 1\nmember z z 1 0 A - 1 ok 0\nfrom 7 9 0 0\nend 0\n"
            }
        }
    }

    /// The file of its segment.
    fn file(self) -> &'static str {
        match self {
            Sample::First => "./app-000000000000000.jkj",
            Sample::Later => "./app-000000000000007.jkj",
        }
    }
}

/// A site with a balancer of the name of the samples.
const WORKERS: &[u8] =
    b"worker.list=app\nworker.app.type=lb\nworker.app.balance_workers=z\nworker.z.port=8009\n";

/// The file of a log.
const LOG: &str = "./worker-3.log";

fn segment_in(alloc: Global, text: &[u8]) -> Option<Segment> {
    if text.len() > MAX_INPUT_BYTES {
        return None;
    }
    let mut segments = read_segments(alloc, text).ok()?;
    let (_, segment) = segments.pop()?;
    Some(segment)
}

/// Whether a file of the system holds these bytes.
pub fn holds<F: Files>(alloc: Global, files: &mut F, path: &str, bytes: &[u8]) -> bool {
    let Ok(name) = Bytes::from_slice(alloc, path.as_bytes()) else {
        return false;
    };
    match files.read_file(alloc, &name) {
        Ok(held) => held.as_slice() == bytes,
        Err(_) => false,
    }
}

/// Whether a shelf keeps the segment for this balancer.
fn keeps<S: Shelf>(alloc: Global, shelf: &mut S, lb: u32, sample: Sample) -> bool {
    match segment_in(alloc, sample.text()) {
        Some(segment) => shelf.keep(lb, segment) == Ok(()),
        None => false,
    }
}

/// Whether a sample's file has its text.
fn is_kept<F: Files>(alloc: Global, files: &mut F, sample: Sample) -> bool {
    holds(alloc, files, sample.file(), sample.text())
}

/// Whether the segment is in its file once it was kept, a second one of its number is refused and leaves the file as it is,
/// and so is one of a balancer without a name.
fn keeps_once<S: Shelf, F: Files>(
    alloc: Global,
    shelf: &mut S,
    files: &mut F,
    sample: Sample,
) -> bool {
    keeps(alloc, shelf, 0, sample)
        && is_kept(alloc, files, sample)
        && !keeps(alloc, shelf, 0, sample)
        && is_kept(alloc, files, sample)
        && !keeps(alloc, shelf, 1, sample)
        && shelf.failed() == 2
}

/// The shelf of a balancer named app, in the directory of the run.
fn shelf_here<'r, R: SystemFiles + Wait + Clock>(
    rt: &'r R,
    alloc: Global,
) -> Result<FileShelf<'r, R, RealNewFiles<'r, R>>, NoMemory> {
    let mut names = ListOf::new(alloc);
    names.push(Bytes::from_slice(alloc, b"app")?)?;
    let dir = Bytes::from_slice(alloc, b".")?;
    let turns = SegmentTurns::new(alloc, 1, 7)?;
    let files = RealNewFiles::new(rt);
    Ok(FileShelf::new(rt, files, dir, names, Notices::new(alloc)?, turns))
}

/// Whether a segment goes into a file of its own, which no other one is written over.
fn keep_a_segment<R: SystemFiles + Net + Wait + Clock>(rt: &R, alloc: Global) -> bool {
    match shelf_here(rt, alloc) {
        Ok(shelf) => {
            let mut shelf = shelf;
            let kept = keeps_once(alloc, &mut shelf, &mut RealFiles::new(rt), Sample::Later);
            kept && fs::remove_file(rt, Sample::Later.file()).is_ok()
        }
        Err(_) => false,
    }
}

fn is_logged<O: Sink>(log: &mut O, line: &[u8]) -> bool {
    write_all(log, line) == Ok(())
}

/// Whether a line is written by a log of the world, which is opened for it.
fn logs<W: World>(alloc: Global, world: &mut W, line: &[u8]) -> bool {
    let Ok(dir) = Bytes::from_slice(alloc, b".") else {
        return false;
    };
    match world.log(alloc, &dir, 3) {
        Ok(log) => {
            let mut log = log;
            is_logged(&mut log, line)
        }
        Err(_) => false,
    }
}

/// Whether a log that is opened again goes on at its end.
fn goes_on<W: World, F: Files>(alloc: Global, world: &mut W, files: &mut F) -> bool {
    logs(alloc, world, b"one\n")
        && logs(alloc, world, b"two\n")
        && holds(alloc, files, LOG, b"one\ntwo\n")
}

/// Whether a log of the world keeps what is written in its file, and goes on at its end.
fn go_on_with_a_log<R: SystemFiles + Net, W: World>(rt: &R, alloc: Global, world: &mut W) -> bool {
    let went_on = goes_on(alloc, world, &mut RealFiles::new(rt));
    went_on && fs::remove_file(rt, LOG).is_ok()
}

fn address_of(alloc: Global, port: u16) -> Result<Bytes, NoMemory> {
    let mut address = Bytes::from_slice(alloc, b"127.0.0.1:")?;
    put_decimal(&mut address, u128::from(port))?;
    Ok(address)
}

/// Whether a gear for one client at this address accepts its own dial.
fn gear_answers<W: World>(alloc: Global, world: &mut W, address: &Bytes, port: u16) -> bool {
    match world.gear(alloc, 0, &GearOrder::of_container(address, Some(1))) {
        Ok(gear) => {
            let mut gear = gear;
            let answered = answers_a_dial(alloc, &mut gear.door, &mut gear.dial, port);
            world.back(gear);
            answered
        }
        Err(_) => false,
    }
}

/// Whether a gear of the world accepts who dials its address by host and port.
fn accept_by_a_gear<R: Net<Listener = TcpListener, Stream = TcpStream>, W: World>(
    rt: &R,
    alloc: Global,
    world: &mut W,
) -> bool {
    let Some(port) = free_port(rt) else {
        return false;
    };
    match address_of(alloc, port) {
        Ok(address) => gear_answers(alloc, world, &address, port),
        Err(_) => false,
    }
}

/// A site with one balancer.
fn site(alloc: Global) -> Option<Config> {
    if WORKERS.len() > MAX_INPUT_BYTES {
        return None;
    }
    read_workers(alloc, WORKERS).ok()
}

/// What a gear is asked for that serves nobody of this site, and keeps its journal in this directory.
fn site_order<'a>(address: &'a Bytes, dir: &'a Bytes, site: &'a Config) -> GearOrder<'a>
    ensures { IsSome result.cfg }
{
    let of_none = GearOrder::of_container(address, Some(0));
    GearOrder {
        address,
        clients: Some(0),
        journal: Some(dir),
        log: None,
        cfg: Some(site),
        limits: of_none.limits,
        control: None,
        grace: of_none.grace,
    }
}

/// Whether the shelf of a gear that is ordered so keeps a segment once.
fn gear_keeps<W: World, F: Files>(
    alloc: Global,
    world: &mut W,
    files: &mut F,
    order: &GearOrder<'_>,
) -> bool
    requires { IsSome order.now.cfg }
{
    match world.gear(alloc, 0, order) {
        Ok(gear) => {
            let mut gear = gear;
            let kept = keeps_once(alloc, &mut gear.shelf, files, Sample::First);
            world.back(gear);
            kept
        }
        Err(_) => false,
    }
}

/// Whether a gear that is ordered so isn't given.
fn is_refused<W: World>(alloc: Global, world: &mut W, order: &GearOrder<'_>) -> bool
    requires { IsSome order.now.cfg }
{
    matches!(world.gear(alloc, 0, order), Err(IoError::Failed))
}

/// Whether a gear of this site keeps the first segment in its file, and where it is there no other gear is given.
fn keeps_new<W: World, F: Files>(
    alloc: Global,
    world: &mut W,
    files: &mut F,
    site: &Config,
    address: &Bytes,
) -> bool {
    let Ok(dir) = Bytes::from_slice(alloc, b".") else {
        return false;
    };
    let order = site_order(address, &dir, site);
    gear_keeps(alloc, world, files, &order)
        && is_refused(alloc, world, &order)
        && is_kept(alloc, files, Sample::First)
}

/// Whether a gear of the world keeps the segments of its site in new files.
fn keep_by_a_gear<R: SystemFiles + Net<Listener = TcpListener, Stream = TcpStream>, W: World>(
    rt: &R,
    alloc: Global,
    world: &mut W,
) -> bool {
    let (Some(port), Some(site)) = (free_port(rt), site(alloc)) else {
        return false;
    };
    match address_of(alloc, port) {
        Ok(address) => {
            let kept = keeps_new(alloc, world, &mut RealFiles::new(rt), &site, &address);
            kept && fs::remove_file(rt, Sample::First.file()).is_ok()
        }
        Err(_) => false,
    }
}

/// Shows each claim on what a worker gets of the real world, and whether it holds.
pub fn judge<R, W: World>(rt: &R, world: &mut W) -> Result<()>
where
    R: Print
        + AllocGlobal
        + Net<Listener = TcpListener, Stream = TcpStream>
        + SystemFiles
        + Wait
        + Clock,
{
    let alloc = rt.alloc();
    let kept = keep_a_segment(rt, alloc);
    print_claim(
        rt,
        "a segment goes into a file of its own, which is never written over",
        kept,
    )?;
    let went_on = go_on_with_a_log(rt, alloc, world);
    print_claim(rt, "a log goes on at the end of its file", went_on)?;
    let accepted = accept_by_a_gear(rt, alloc, world);
    print_claim(rt, "a gear accepts who dials its address", accepted)?;
    let kept = keep_by_a_gear(rt, alloc, world);
    print_claim(
        rt,
        "a gear keeps a segment of its site in a new file, and where that is there no gear is given",
        kept,
    )
}
