//! What a person is told, in a file of the directory of the run: by sinks over it, and on standard error, in whose place it stands.
use crate::gears::holds;
use crate::ports::{dialled, free_port};
use anyhow::Result;
use check_rows::files::print_claim;
use gear_parts::World;
use jk_cli::{Order, WordsError, read_words};
use jk_commands::{SiteTeller, TellingWorld, let_go};
use jk_io::{Bytes, Dial, IoError, ListOf, MAX_INPUT_BYTES, NoMemory, Sink, write_all};
use libc::close;
use real_io::{Ending, Notices, Outbox, RealFiles, TcpDial};
use remarks::{MarkedSink, WriteSink};
use site_reports::{AcceptedSite, SiteFound, judge_site};
use std::alloc::Global;
use std::fmt::Write;
use std::io::{self, ErrorKind, Write as WriteBytes};
use std::net::{Net, TcpListener, TcpStream};
use std::rt::Files as SystemFiles;
use std::time::{Clock, Duration};
use std::{fs, thread};

/// The file.
const TOLD: &str = "./told.txt";

/// The descriptor of standard error.
const STANDARD_ERROR: i32 = 2;

/// More milliseconds than stand between two lines of a kind.
const LATER_MILLIS: u64 = 1_100;

/// The file of which it is said that it can't be written.
const UNWRITTEN: &str = "./unwritten";

/// The files of a site of which one line has no effect.
const WORKERS: &[u8] = b"worker.list=z\nworker.z.port=8009\nworker.z.cachesize=5\n";

const MAP: &[u8] = b"/*=z\n";

/// The line that says so.
const NO_EFFECT: &[u8] = b"jkd: w, line 3: worker.z.cachesize is not supported and has no effect\n";

/// Whether two lines and an empty one are written, in pieces that don't end with a line.
fn writes_lines<O: Sink>(out: &mut O) -> bool {
    write_all(out, b"one\ntw") == Ok(()) && write_all(out, b"o\n\n") == Ok(())
}

/// Whether the file holds this text. It is taken away.
fn is_told<R: SystemFiles + Net>(rt: &R, alloc: Global, text: &[u8]) -> bool {
    let held = holds(alloc, &mut RealFiles::new(rt), TOLD, text);
    fs::remove_file(rt, TOLD).is_ok() && held
}

/// Whether a sink over a file that is opened to be read alone fails.
fn fails_unwritten<R: SystemFiles>(rt: &R) -> bool {
    match fs::open(rt, TOLD) {
        Ok(file) => write_all(&mut WriteSink::new(file), b"x") == Err(IoError::Failed),
        Err(_) => false,
    }
}

/// Whether a sink over a file writes what it takes there, and fails where it can't.
fn write_plainly<R: SystemFiles + Net>(rt: &R, alloc: Global) -> bool {
    let written = match fs::create(rt, TOLD) {
        Ok(file) => writes_lines(&mut WriteSink::new(file)),
        Err(_) => false,
    };
    let failed = fails_unwritten(rt);
    is_told(rt, alloc, b"one\ntwo\n\n") && written && failed
}

/// Whether a sink that marks lines does so once for each.
fn write_marked<R: SystemFiles + Net>(rt: &R, alloc: Global) -> bool {
    let written = match fs::create(rt, TOLD) {
        Ok(file) => writes_lines(&mut MarkedSink::new(file)),
        Err(_) => false,
    };
    is_told(rt, alloc, b"jkd: one\njkd: two\njkd: \n") && written
}

/// The words of an order to serve the site of these files.
fn words_here(alloc: Global) -> Result<ListOf<Bytes>, NoMemory> {
    let mut words = ListOf::new(alloc);
    for word in ["serve", "w", "m", "127.0.0.1:1", "1"] {
        words.push(Bytes::from_slice(alloc, word.as_bytes())?)?;
    }
    Ok(words)
}

/// That order.
fn order_here(alloc: Global) -> Result<Order, WordsError> {
    let words = words_here(alloc)?;
    read_words(alloc, words.as_slice())
}

fn site_here(alloc: Global) -> Option<AcceptedSite> {
    if WORKERS.len() > MAX_INPUT_BYTES || MAP.len() > MAX_INPUT_BYTES {
        return None;
    }
    let workers = Bytes::from_slice(alloc, WORKERS).ok()?;
    let map = Bytes::from_slice(alloc, MAP).ok()?;
    match judge_site(alloc, workers, map) {
        Ok(SiteFound::Site(site)) => Some(site),
        _ => None,
    }
}

/// Shows a site twice to a world round this one, which tells of it.
fn show_twice<W: World + Drop, E: WriteBytes + Drop>(
    alloc: Global,
    world: W,
    asked: &Result<Order, WordsError>,
    err: E,
    site: &AcceptedSite,
) {
    let mut world = TellingWorld::new(world, SiteTeller::of(asked, err));
    world.show_site(alloc, site);
    world.show_site(alloc, site);
    let_go(world);
}

/// Whether a world round this one says once which line of a site's files has no effect.
fn tell_in_a_world<R: SystemFiles + Net, W: World + Drop>(rt: &R, alloc: Global, world: W) -> bool {
    let asked = order_here(alloc);
    let shown = match (fs::create(rt, TOLD), site_here(alloc)) {
        (Ok(file), Some(site)) => {
            show_twice(alloc, world, &asked, file, &site);
            true
        }
        _ => false,
    };
    let_go(asked);
    is_told(rt, alloc, NO_EFFECT) && shown
}

/// Whether a member that nobody is can't be reached, twice, and can once somebody listens.
fn comes_back<R: Net<Listener = TcpListener, Stream = TcpStream>, D: Dial>(
    rt: &R,
    alloc: Global,
    dial: &mut D,
    port: u16,
) -> bool {
    let lost = dialled(alloc, dial, port).is_err() && dialled(alloc, dial, port).is_err();
    match TcpListener::bind(rt, ("127.0.0.1", port)) {
        Ok(_listener) => lost && dialled(alloc, dial, port).is_ok(),
        Err(_) => false,
    }
}

/// Says three times that a file can't be written, the third time a second later, and then that it is given up.
fn say_unwritten<R: Clock>(rt: &R, notices: &Notices) {
    let reason = io::Error::from(ErrorKind::TimedOut);
    notices.unkept(UNWRITTEN, &reason);
    notices.unkept(UNWRITTEN, &reason);
    thread::sleep(rt, Duration::from_millis(LATER_MILLIS));
    notices.unkept(UNWRITTEN, &reason);
    notices.given_up(UNWRITTEN, &reason);
}

/// Has notices say of a member that it can't be reached and is back, and of a file that it can't be written; says whether the
/// member came back.
fn say_all<R: Net<Listener = TcpListener, Stream = TcpStream> + Clock>(
    rt: &R,
    alloc: Global,
    port: u16,
) -> Result<bool, NoMemory> {
    let notices = Notices::new(alloc)?;
    let host = Bytes::from_slice(alloc, b"127.0.0.1")?;
    notices.name(&host, port, &Bytes::from_slice(alloc, b"n1")?)?;
    let outbox = Outbox::new(alloc)?;
    let ending = Ending::new(alloc)?;
    let mut dial = TcpDial::of_front(rt, outbox, ending, notices.share()?);
    let back = comes_back(rt, alloc, &mut dial, port);
    say_unwritten(rt, &notices);
    Ok(back)
}

/// What they say of a member at this port, and of the file.
fn all_said(alloc: Global, port: u16) -> Result<String, NoMemory> {
    let mut text = String::new(alloc);
    write!(
        text,
        "jkd: n1 at 127.0.0.1:{port} can't be reached: Connection refused (os error 111)\n"
    )?;
    write!(text, "jkd: n1 at 127.0.0.1:{port} is back\n")?;
    write!(
        text,
        "jkd: can't write ./unwritten: timed out; it is tried again for a minute\n"
    )?;
    write!(
        text,
        "jkd: can't write ./unwritten: timed out; it is tried again for a minute (left out before: 1)\n"
    )?;
    write!(
        text,
        "jkd: can't write ./unwritten: timed out; its worker ends\n"
    )?;
    Ok(text)
}

/// Whether notices say it all on standard error, a line a second of a kind. From then on standard error is closed.
fn say_on_standard_error<R>(rt: &R, alloc: Global) -> bool
where
    R: Net<Listener = TcpListener, Stream = TcpStream> + SystemFiles + Clock,
{
    let Some(port) = free_port(rt) else {
        return false;
    };
    // The next file that is opened gets the lowest number that is free.
    close(STANDARD_ERROR);
    let said = match fs::create(rt, TOLD) {
        Ok(_standard_error) => matches!(say_all(rt, alloc, port), Ok(true)),
        Err(_) => false,
    };
    match all_said(alloc, port) {
        Ok(text) => is_told(rt, alloc, text.as_bytes()) && said,
        Err(NoMemory) => false,
    }
}

/// Shows each claim on what a person is told, and whether it holds; one of them in a world round this one.
pub fn judge<R, W: World + Drop>(rt: &R, world: W) -> Result<()>
where
    R: Print + AllocGlobal + Net<Listener = TcpListener, Stream = TcpStream> + SystemFiles + Clock,
{
    let alloc = rt.alloc();
    let written = write_plainly(rt, alloc);
    print_claim(
        rt,
        "a sink over a file writes what it takes there, and fails where that can't be written",
        written,
    )?;
    let marked = write_marked(rt, alloc);
    print_claim(rt, "a sink that marks lines does so once for each", marked)?;
    let told = tell_in_a_world(rt, alloc, world);
    print_claim(
        rt,
        "a world that tells says once which line of a site's files has no effect",
        told,
    )?;
    let said = say_on_standard_error(rt, alloc);
    print_claim(
        rt,
        "notices name a member that is lost and back and a file that can't be written, a line a second of a kind",
        said,
    )
}
