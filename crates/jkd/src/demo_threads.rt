//! The threads of `demo`: one for each container, one for the front, and one that waits for the end of the input. `main` starts
//! them, since it alone has a runtime that may be sent to a thread.
ghost use Rattle.std.specs.Prelude.{◌≡◌, IfErr, IfOk, IfSome, OnErr};
ghost use Rattle.jkd.specs.Demo.{IsUnopened};

use crate::demo::{DemoContainer, DemoPorts, contain_demo, demo_files, serve_demo};
use crossbeam_channel::{Receiver, RecvError, Sender};
use gear_worlds::World;
use jk_cli::{Order, WordsError};
use jk_commands::{NO_MEMORY, let_go};
use jk_io::{Bytes, Door, Source};
use libc::net::{POLLIN, poll};
use libc::types::pollfd;
use real_io::{StdIn, StdOut};
use std::alloc::Global;
use std::io::{self, Input};
use std::net::{Net, TcpListener, TcpStream};
use std::sync::Wait;
use std::thread::Threads;

/// The status of a demo whose input ended.
const DONE: u8 = 0;

/// The status of an address that can't be had.
const FAULT: u8 = 4;

/// The demo's front, before containers at these ports. The status with which it ends goes to `to`.
#[derive(Drop)]
pub(crate) struct DemoFront {
    address: Bytes,
    ports: DemoPorts,
    to: Sender<u8, Global>,
}

/// What a thread of the demo does.
#[derive(Drop)]
pub(crate) enum DemoPart {
    Container(DemoContainer),
    Front(DemoFront),
    /// It waits for the end of the input, of which it tells.
    Input(Sender<u8, Global>),
}

/// The status with which a part of the demo ends all of it.
#[derive(Drop)]
pub(crate) struct PartEnd {
    status: u8,
    to: Sender<u8, Global>,
}

/// A demo whose threads aren't started.
#[derive(Drop)]
pub(crate) struct Demo {
    pub parts: Vec<DemoPart>,
    /// Where the status comes with which the demo ends.
    pub ends: Receiver<u8, Global>,
}

/// Two ports of this machine that the system gives. They are let go again, for the containers.
fn free_ports<R: Net<Stream = TcpStream, Listener = TcpListener>>(rt: &R) -> io::Result<DemoPorts> {
    let a = TcpListener::bind(rt, "127.0.0.1:0")?;
    let b = TcpListener::bind(rt, "127.0.0.1:0")?;
    Ok(DemoPorts {
        a: a.local_addr()?.port(),
        b: b.local_addr()?.port(),
    })
}

/// A demo of a front at this address before containers at these ports; none where memory is wanted.
fn demo_at(alloc: Global, address: &Bytes, ports: DemoPorts) -> Option<Demo> {
    let address = address.copy().ok()?;
    let (input, ends) = crossbeam_channel::unbounded(alloc).ok()?;
    let to = input.clone().ok()?;
    let front = DemoFront { address, ports, to };
    let mut parts = Vec::new(alloc);
    parts
        .push(DemoPart::Container(DemoContainer::A(ports.a)))
        .ok()?;
    parts
        .push(DemoPart::Container(DemoContainer::B(ports.b)))
        .ok()?;
    parts.push(DemoPart::Front(front)).ok()?;
    parts.push(DemoPart::Input(input)).ok()?;
    Some(Demo { parts, ends })
}

/// The demo that is asked for, or the status where it can't be had; none where none is.
pub(crate) fn demo_of<R: Net<Stream = TcpStream, Listener = TcpListener> + Eprint + AllocGlobal>(
    rt: &R,
    asked: &Result<Order, WordsError>,
) -> Option<Result<Demo, u8>>
    ensures { IfSome result (λ demo. IfErr demo IsUnopened) }
{
    match asked {
        Ok(Order::Demo { address }) => Some(open_demo(rt, address)),
        _ => None,
    }
}

/// The demo of a front at this address, of which it says what to type; or the status where it can't be had.
fn open_demo<R: Net<Stream = TcpStream, Listener = TcpListener> + Eprint + AllocGlobal>(
    rt: &R,
    address: &Bytes,
) -> Result<Demo, u8>
    ensures { IfErr result IsUnopened }
{
    let Ok(ports) = free_ports(rt) else {
        return Err(FAULT);
    };
    tell_demo(rt, address, ports);
    match demo_at(rt.alloc(), address, ports) {
        Some(demo) => Ok(demo),
        None => Err(NO_MEMORY),
    }
}

/// Says what to type.
fn tell_demo<R: Eprint>(rt: &R, address: &Bytes, ports: DemoPorts) {
    let address = str::from_utf8(address.as_slice()).unwrap_or("?");
    let DemoPorts { a, b } = ports;
    let _ = eprintln!(rt;
        "jkd: container a at 127.0.0.1:{a}, container b at 127.0.0.1:{b}, and a front before them. Try:"
    );
    let _ = eprintln!(rt;
        "  curl http://{address}/who                        # a or b; b twice as often"
    );
    let _ = eprintln!(rt;
        "  curl -c jar -b jar http://{address}/session      # new; once more: old, from the same container"
    );
    let _ = eprintln!(rt;
        "  curl http://{address}/jk-status                  # what the balancer knows of both"
    );
    let _ = eprintln!(rt; "It ends with its input, or by Ctrl-C.");
}

/// Does a part of the demo in this world. What is answered ends the demo, once it is sent.
pub(crate) fn run_part<W: World, R: Print + Input + AllocGlobal + Threads + Wait + Sync>(
    rt: &R,
    part: DemoPart,
    world: &mut W,
) -> Option<PartEnd>
where
    <W::D as Door>::L: Send,
{
    match part {
        DemoPart::Container(which) => {
            run_container(rt, which, world);
            None
        }
        DemoPart::Front(front) => Some(run_front(rt, front, world)),
        DemoPart::Input(to) => watch_input(rt, to),
    }
}

/// A container. It doesn't end by itself.
fn run_container<W: World, R: Print + AllocGlobal + Threads + Wait + Sync>(
    rt: &R,
    which: DemoContainer,
    world: &mut W,
)
where
    <W::D as Door>::L: Send,
{
    let alloc: Global = rt.alloc();
    let Ok(mut files) = demo_files(alloc, DemoPorts { a: 0, b: 0 }) else {
        return;
    };
    let mut out = StdOut::new(rt);
    let end = contain_demo(rt, alloc, which, &mut files, &mut out, world);
    let_go(end);
}

/// Serves at the front's address, and answers the status.
fn serve_front<W: World, R: Print + AllocGlobal + Threads + Wait + Sync>(
    rt: &R,
    address: &Bytes,
    ports: DemoPorts,
    world: &mut W,
) -> u8
where
    <W::D as Door>::L: Send,
{
    let alloc: Global = rt.alloc();
    let Ok(mut files) = demo_files(alloc, ports) else {
        return NO_MEMORY;
    };
    let mut out = StdOut::new(rt);
    let end = serve_demo(rt, alloc, address, &mut files, &mut out, world);
    let status = end.status();
    let_go(end);
    status
}

/// Runs the front to its end.
fn run_front<W: World, R: Print + AllocGlobal + Threads + Wait + Sync>(
    rt: &R,
    front: DemoFront,
    world: &mut W,
) -> PartEnd
where
    <W::D as Door>::L: Send,
{
    let DemoFront { address, ports, to } = front;
    PartEnd {
        status: serve_front(rt, &address, ports, world),
        to,
    }
}

/// Whether standard input has something to read now, or has ended.
fn is_input_at_hand() -> bool {
    let mut input = [pollfd {
        fd: 0,
        events: POLLIN,
        revents: 0,
    }];
    0 < poll(&mut input, 0)
}

/// Waits for the end of standard input. Whether it came; of an input that had ended before, or that can't be read, it doesn't.
fn is_input_ended<R: Input + Wait>(rt: &R) -> bool {
    let mut is_old = is_input_at_hand();
    let mut input = StdIn::new(rt.reader());
    let mut piece = [0u8; 512];
    for _ in rt.forever() {
        match input.read(&mut piece) {
            Ok(0) => return !is_old,
            Ok(_) => is_old = false,
            Err(_) => return false,
        }
    }
    false
}

/// Waits for the end of the input, by which the demo is done.
fn watch_input<R: Input + Wait>(rt: &R, to: Sender<u8, Global>) -> Option<PartEnd>
    ensures { IfSome result (λ end. end.status ≡ 0) }
{
    if is_input_ended(rt) {
        Some(PartEnd { status: DONE, to })
    } else {
        None
    }
}

/// Sends the status of a part that ended, which ends the demo.
pub(crate) fn send_end<R: Wait>(rt: &R, end: Option<PartEnd>) {
    if let Some(PartEnd { status, to }) = end {
        let _ = to.send(rt, status);
    }
}

/// The status that came from a part of the demo; that of a fault where none comes any more.
fn status_in(received: Result<u8, RecvError>) -> u8
    ensures sent { IfOk received (λ status. result ≡ status) }
    ensures lost { OnErr received (result ≡ 4) }
{
    received.unwrap_or(FAULT)
}

/// Waits for the status with which the demo ends.
pub(crate) fn end_of<R: Wait>(rt: &R, ends: &Receiver<u8, Global>) -> u8 {
    status_in(ends.recv(rt))
}
