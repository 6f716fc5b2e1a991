//! `demo`: two containers and a front before them, each as the command of its kind does it.
ghost use Rattle.std.specs.Prelude.{◌≡◌, ◌≤◌, ◌++◌, ◌∷◌, [], codes, decimal, length, IfOk, OnOk};
ghost use Rattle.jk_cli.specs.declared.ranges.TheConstants.{MOST_ROUTE_BYTES};
ghost use Rattle.jk_server.specs.Commands.{telling};
ghost use Rattle.jkd.specs.Demo.{ContainsDemo, ServesDemo, demo_container, demo_files, demo_front, demo_workers, port_of, route_of};

use gear_parts::ToldWorld;
use gear_worlds::World;
use jk_cli::{ContainerRoute, Order, ServeOrder, ThreadCount};
use jk_commands::{EndOf, JkdEnd, NO_MEMORY, let_go, run_jkd};
use jk_io::{
    Bytes, ClientLimits, Door, FileList, Files, MemFiles, MemLink, NoMemory, NumberList, Sink,
    put_decimal,
};
use std::alloc::Global;
use std::sync::Wait;
use std::thread::Threads;

/// Where the two containers are, on this machine.
#[derive(Clone, Copy)]
pub(crate) struct DemoPorts {
    pub a: u16,
    pub b: u16,
}

/// A container of the demo, at this port.
#[derive(Clone, Copy)]
pub(crate) enum DemoContainer {
    A(u16),
    B(u16),
}

/// How many worker threads the front has, and each container.
pub(crate) const DEMO_THREADS: u32 = 8;

/// The name of the demo's workers.properties.
const WORKERS: &[u8] = b"workers.properties";

/// The name of its uriworkermap.properties.
const MAP: &[u8] = b"uriworkermap.properties";

/// The text of the demo's workers.properties.
fn workers_text(alloc: Global, ports: DemoPorts) -> Result<Bytes, NoMemory>
    ensures { IfOk result (λ text. text ≡ demo_workers ports.a ports.b) }
{
    let mut text = Bytes::from_slice(
        alloc,
        b"worker.list=demo,jk-status\nworker.demo.type=lb\nworker.demo.balance_workers=a,b\nworker.demo.sticky_session=true\nworker.a.host=127.0.0.1\nworker.a.lbfactor=1\nworker.a.port=",
    )?;
    put_decimal(&mut text, u128::from(ports.a))?;
    text.extend(b"\nworker.b.host=127.0.0.1\nworker.b.lbfactor=2\nworker.b.port=")?;
    put_decimal(&mut text, u128::from(ports.b))?;
    text.extend(b"\nworker.jk-status.type=status\n")?;
    Ok(text)
}

/// Adds a file.
fn put_file(alloc: Global, files: &mut FileList, name: &[u8], text: Bytes) -> Result<(), NoMemory>
    ensures { OnOk result (files.new ≡ files.old ++ (name.now, text) ∷ []) }
{
    let name = Bytes::from_slice(alloc, name)?;
    files.push((name, text))?;
    Ok(())
}

/// The demo's files.
pub(crate) fn demo_files(alloc: Global, ports: DemoPorts) -> Result<MemFiles, NoMemory>
    ensures { IfOk result (λ made. made.files ≡ demo_files ports.a ports.b) }
{
    let map = Bytes::from_slice(alloc, b"/*=demo\n/jk-status=jk-status\n")?;
    let mut files = FileList::new(alloc);
    put_file(alloc, &mut files, WORKERS, workers_text(alloc, ports)?)?;
    put_file(alloc, &mut files, MAP, map)?;
    Ok(MemFiles::new(files, NumberList::new(alloc)))
}

/// What the front is asked for.
fn front_order(alloc: Global, address: &Bytes) -> Result<Order, NoMemory>
    ensures { IfOk result (λ made. made ≡ demo_front address.now) }
{
    Ok(Order::Serve(ServeOrder {
        workers: Bytes::from_slice(alloc, WORKERS)?,
        map: Bytes::from_slice(alloc, MAP)?,
        address: address.copy()?,
        threads: ThreadCount::new(DEMO_THREADS),
        clients: None,
        journal: None,
        watch: None,
        idle: None,
        log: None,
        format: None,
        cut: None,
        limits: ClientLimits {
            head: 20,
            keep: 60,
            rate: 500,
            waiting: 10_000,
        },
        control: None,
        grace: 30,
    }))
}

/// The route of its session ids.
fn route_of(which: DemoContainer) -> &'static [u8]
    ensures route { result.now ≡ route_of which }
    ensures short { length result.now ≤ MOST_ROUTE_BYTES }
{
    match which {
        DemoContainer::A(_) => b"a",
        DemoContainer::B(_) => b"b",
    }
}

/// Where it is on this machine.
fn port_of(which: DemoContainer) -> u16
    ensures { result ≡ port_of which }
{
    match which {
        DemoContainer::A(port) | DemoContainer::B(port) => port,
    }
}

/// The address of a port of this machine.
fn local_address(alloc: Global, port: u16) -> Result<Bytes, NoMemory>
    ensures { IfOk result (λ text. text ≡ codes "127.0.0.1:" ++ decimal port) }
{
    let mut text = Bytes::from_slice(alloc, b"127.0.0.1:")?;
    put_decimal(&mut text, u128::from(port))?;
    Ok(text)
}

/// What a container is asked for.
fn container_order(alloc: Global, which: DemoContainer) -> Result<Order, NoMemory>
    ensures { IfOk result (λ made. made ≡ demo_container which) }
{
    Ok(Order::Container {
        route: ContainerRoute::new(Bytes::from_slice(alloc, route_of(which))?),
        address: local_address(alloc, port_of(which))?,
        threads: ThreadCount::new(DEMO_THREADS),
        clients: None,
    })
}

/// An input from which nothing comes.
fn no_input(alloc: Global) -> MemLink {
    MemLink::new(alloc, Bytes::new(alloc), NumberList::new(alloc))
}

/// The demo's front, over its files: what `serve` does with them, for clients at this address.
pub(crate) fn serve_demo<F: Files, O: Sink, W: World, R: Threads + Wait + Sync>(
    rt: &R,
    alloc: Global,
    address: &Bytes,
    files: &mut F,
    out: &mut O,
    world: &mut W,
) -> JkdEnd
where
    <W::D as Door>::L: Send,
    ensures serves { ServesDemo (telling F.Files O.Meanings ⟦<W as ToldWorld>⟧.told) address.now
        (files.old, out.old, world.old) (files.new, out.new, world.new) result }
{
    match front_order(alloc, address) {
        Ok(order) => {
            let asked = Ok(order);
            let run = run_jkd(rt, alloc, &asked, files, &mut no_input(alloc), out, world);
            let_go(asked);
            let (end, site) = run;
            let_go(site);
            end
        }
        Err(NoMemory) => EndOf::Status(NO_MEMORY),
    }
}

/// One of the demo's containers: what `container` does, with its route. It reads no file.
pub(crate) fn contain_demo<F: Files, O: Sink, W: World, R: Threads + Wait + Sync>(
    rt: &R,
    alloc: Global,
    which: DemoContainer,
    files: &mut F,
    out: &mut O,
    world: &mut W,
) -> JkdEnd
where
    <W::D as Door>::L: Send,
    ensures contains { ContainsDemo (telling F.Files O.Meanings ⟦<W as ToldWorld>⟧.told) which
        (files.old, out.old, world.old) (files.new, out.new, world.new) result }
{
    match container_order(alloc, which) {
        Ok(order) => {
            let asked = Ok(order);
            let run = run_jkd(rt, alloc, &asked, files, &mut no_input(alloc), out, world);
            let_go(asked);
            let (end, site) = run;
            let_go(site);
            end
        }
        Err(NoMemory) => EndOf::Status(NO_MEMORY),
    }
}
