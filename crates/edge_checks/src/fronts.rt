//! A front of the real world, by the words of a row, before a container over the loopback: what a client gets that dials until
//! the front listens, and what the front leaves.
use crate::clients::{Asking, ClientEnd, Ports};
use crate::files::put_files;
use crate::ports::{free_port, port_text};
use crate::telling::{put_got, put_status};
use check_rows::row::{BlockRow, RowError};
use check_rows::texts::With;
use gear_worlds::{RealWorld, World};
use jk_cli::read_words;
use jk_commands::{let_go, run_jkd};
use jk_io::{Bytes, Door, FileList, ListOf, MemFiles, MemLink, NoMemory, NumberList};
use outside_checks::listener;
use real_io::TcpDoor;
use std::alloc::Global;
use std::fs;
use std::net::{Net, TcpListener, TcpStream};
use std::rt::Files;
use std::sync::Wait;
use std::thread::{JoinHandle, Threads};
use std::time::Clock;

/// A world that can be told that its run ended.
pub trait EndedWorld {
    /// Who asked for a stop is told of a good end.
    fn end(&self, status: u8);
}

impl<
    'r,
    R: Net<Stream = TcpStream, Listener = TcpListener> + Files + Clock + Wait + Eprint,
> EndedWorld for RealWorld<'r, R> {
    fn end(&self, status: u8) {
        if status == 0 {
            self.say_ended();
        } else {
            self.wait_for_lingering();
        }
    }
}

/// What orders a front, and its files.
#[derive(Drop)]
pub struct FrontOrder {
    words: ListOf<Bytes>,
    files: FileList,
}

/// What a row asks for: a front, a container that serves it at a door, and what a client asks it.
#[derive(Drop)]
pub struct BegunRow {
    pub order: FrontOrder,
    pub door: TcpDoor,
    pub asking: Asking,
}

/// What a front wrote, and its status.
#[derive(Drop)]
struct FrontEnd {
    status: u8,
    written: Bytes,
}

fn empty_link(alloc: Global) -> MemLink {
    MemLink::new(alloc, Bytes::new(alloc), NumberList::new(alloc))
}

/// Does what is ordered, in this world.
fn do_order<W: World + EndedWorld, R: Threads + Wait + Sync>(
    rt: &R,
    alloc: Global,
    order: FrontOrder,
    world: &mut W,
) -> Result<FrontEnd, NoMemory>
where
    <W::D as Door>::L: Send,
{
    let FrontOrder { words, files } = order;
    let mut files = MemFiles::new(files, NumberList::new(alloc));
    let mut input = empty_link(alloc);
    let mut out = empty_link(alloc);
    let asked = read_words(alloc, words.as_slice());
    let (end, site) = run_jkd(rt, alloc, &asked, &mut files, &mut input, &mut out, world);
    let_go(asked);
    let_go(site);
    let status = end.status();
    let_go(end);
    world.end(status);
    let written = Bytes::from_slice(alloc, out.sent())?;
    Ok(FrontEnd { status, written })
}

/// Adds what a client got, what the front wrote, its status, and what who asked for a stop was answered.
fn put_end(asked: &ClientEnd, ended: &FrontEnd, out: &mut Bytes) -> Result<(), NoMemory> {
    put_got(asked.got.as_slice(), out)?;
    out.extend(ended.written.as_slice())?;
    put_status(ended.status, out)?;
    out.extend(asked.stopped.as_slice())
}

/// What the client of a row asks.
fn asking_of(alloc: Global, row: BlockRow<'_>, ports: Ports) -> Result<Asking, RowError> {
    let control = match row.value("stopped") {
        Some(path) => Some(Bytes::from_slice(alloc, path.as_bytes())?),
        None => None,
    };
    Ok(Asking {
        ports,
        bytes: row.file(alloc, "client")?,
        control,
    })
}

/// Takes the control socket of a row away, if it has one.
fn take_socket<R: Files>(rt: &R, row: BlockRow<'_>) {
    if let Some(path) = row.value("stopped") {
        let _ = fs::remove_file(rt, path);
    }
}

/// As a row is with these ports for `\1` and `\2`.
fn with_ports<'r>(row: BlockRow<'r>, first: &'r str, second: &'r str) -> BlockRow<'r> {
    BlockRow {
        lines: row.lines,
        with: With { first, second },
    }
}

/// What a row asks for, at ports of its own.
pub fn begin<R: Net<Listener = TcpListener, Stream = TcpStream>>(
    rt: &R,
    alloc: Global,
    row: BlockRow<'_>,
) -> Result<BegunRow, RowError> {
    let (Ok((door, back)), Some(front)) = (listener(rt), free_port(rt)) else {
        return Err(RowError::Unreadable);
    };
    let first = port_text(alloc, back)?;
    let second = port_text(alloc, front)?;
    let row = with_ports(row, first.as_str(), second.as_str());
    let order = FrontOrder {
        words: row.words(alloc)?,
        files: row.files(alloc)?,
    };
    Ok(BegunRow {
        order,
        door: TcpDoor::new(door, Some(1)),
        asking: asking_of(alloc, row, Ports { front, back })?,
    })
}

/// What comes out of a row in this world, while others serve the front and ask it.
pub fn told<W: World + EndedWorld, R: Threads + Wait + Sync + Files + Net>(
    rt: &R,
    alloc: Global,
    row: BlockRow<'_>,
    order: FrontOrder,
    world: &mut W,
    others: JoinHandle<Result<ClientEnd, RowError>>,
) -> Result<Bytes, RowError>
where
    <W::D as Door>::L: Send,
{
    let ended = do_order(rt, alloc, order, world);
    let asked = others.join(rt);
    take_socket(rt, row);
    let mut told = Bytes::new(alloc);
    put_end(&asked?, &ended?, &mut told)?;
    put_files(rt, alloc, row, &mut told)?;
    Ok(told)
}
