//! Two workers side by side: the member answers the first only once the second's client has its own answer.
//!
//! All that owns gears is written over any links, so that only the links themselves speak of the gate.
ghost use Rattle.std.specs.Prelude.{◌≡◌, ◌<◌, true, vec_len, IfOk};
ghost use Rattle.site_mounts.specs.Sites.{stands_in};

use crate::worlds::{client_by, link_of, push};
use check_rows::row::{BlockRow, RowError};
use conn_pool::NoTape;
use gear_worlds::Gear;
use jk_commands::let_go;
use jk_io::{
    Bytes, ClientList, Dial, Gate, GateLink, IoError, Link, ListOf, MAX_INPUT_BYTES, MemDoor,
    MemLink, NoMemory, NumberList, StepClock, Turn,
};
use jk_server::{SitePlan, cut_at, serve_gears};
use lb_shared::{KeptList, MemShelf};
use site_config::Config;
use site_mounts::{MapError, UriMap, read_map};
use site_workers::{PropsError, read_workers};
use std::alloc::Global;
use std::sync::Wait;
use std::thread::Threads;
use std::time::Clock;

/// A link that says what was sent on it.
pub trait Shown {
    fn sent(&self) -> &[u8];
}

impl Shown for MemLink {
    fn sent(&self) -> &[u8] {
        MemLink::sent(self)
    }
}

impl<'g, 'r, L: Link + Shown + Drop, R> Shown for GateLink<'g, 'r, L, R> {
    fn sent(&self) -> &[u8] {
        self.link().sent()
    }
}

/// A dial that gives one link.
#[derive(Drop)]
pub struct OneDial<L> {
    link: Option<L>,
}

impl<L: Link + Drop + Send> Dial for OneDial<L> {
    type L = L;

    ghost faults = { λ _. 0 };

    fn dial(&mut self, _alloc: Global, _host: &Bytes, _port: u16) -> Result<L, IoError> {
        self.link.take().ok_or(IoError::NoMemory)
    }

    fn await_dial(&mut self, _millis: u64, _keepalive: bool) {}
}

/// The links of a worker: its client's, and the one to its member.
#[derive(Drop)]
struct Ends<L> {
    client: L,
    member: L,
}

/// What a worker works with, where no request is logged.
type OverLinks<L> = Gear<MemDoor<L>, OneDial<L>, NoTape, StepClock, MemShelf, MemLink>;

/// The place that the second worker's client raises.
const SECOND_IS_ANSWERED: u32 = 0;
/// A place that is raised from the beginning.
const OPEN: u32 = 1;
/// A place that is raised, and for which nobody waits.
const NOBODY_WAITS: u32 = 2;

/// The place at which the member's answer to a worker waits, and the one that the worker's client raises once it has its answer.
#[derive(Clone, Copy)]
struct Places {
    member: u32,
    client: u32,
    ghost known: { (member < 64) × (client < 64) },
}

/// A worker's links, over the texts of these files of a row: its client's, and the next, which is its member's.
fn ends_of(alloc: Global, row: BlockRow<'_>, file: usize) -> Result<Ends<MemLink>, RowError> {
    let client = link_of(alloc, row, file)?;
    let member = link_of(alloc, row, file.saturating_add(1))?;
    Ok(Ends { client, member })
}

/// The same links, at these places of a gate.
fn meeting<'g, 'r, L: Link + Drop, R>(
    ends: Ends<L>,
    gate: &'g Gate<'r, R>,
    places: Places,
) -> Ends<GateLink<'g, 'r, L, R>> {
    let Ends { client, member } = ends;
    Ends {
        client: GateLink::new(client, gate, places.client, Turn::Raises),
        member: GateLink::new(member, gate, places.member, Turn::Waits),
    }
}

/// The one client of a worker.
fn clients_of<L: Drop>(alloc: Global, link: L) -> Result<ClientList<L>, NoMemory> {
    let client = client_by(alloc, link)?;
    let mut clients = ClientList::new(alloc);
    push(&mut clients, client)?;
    Ok(clients)
}

fn gear_of<L: Drop>(alloc: Global, ends: Ends<L>) -> Result<OverLinks<L>, NoMemory> {
    let Ends { client, member } = ends;
    let clients = clients_of(alloc, client)?;
    Ok(Gear {
        door: MemDoor::new(alloc, clients, NumberList::new(alloc)),
        dial: OneDial { link: Some(member) },
        tape: NoTape,
        clock: StepClock::new(NumberList::new(alloc)),
        shelf: MemShelf::new(KeptList::new(alloc), NumberList::new(alloc)),
        log: None,
    })
}

fn gears_of<L: Drop>(
    alloc: Global,
    first: Ends<L>,
    second: Ends<L>,
) -> Result<Vec<OverLinks<L>>, NoMemory>
    ensures { IfOk result (λ gears. vec_len gears ≡ 2) }
{
    let mut gears = Vec::with_capacity(alloc, 2)?;
    gears.push_reserved(gear_of(alloc, first)?);
    gears.push_reserved(gear_of(alloc, second)?);
    Ok(gears)
}

/// The configuration in a row; it must be read.
fn config_of(alloc: Global, row: BlockRow<'_>) -> Result<Config, RowError> {
    let text = row.file(alloc, "w")?;
    if text.len() > MAX_INPUT_BYTES {
        return Err(RowError::Unreadable);
    }
    match read_workers(alloc, text.as_slice()) {
        Ok(config) => Ok(config),
        Err(PropsError::Refused { .. }) => Err(RowError::Unreadable),
        Err(PropsError::NoMemory) => Err(RowError::NoMemory),
    }
}

/// The map in a row; it must be read.
fn map_of(alloc: Global, row: BlockRow<'_>, config: &Config) -> Result<UriMap, RowError>
    ensures { IfOk result (λ map. stands_in config.now map ≡ true) }
{
    let text = row.file(alloc, "m")?;
    if text.len() > MAX_INPUT_BYTES {
        return Err(RowError::Unreadable);
    }
    match read_map(alloc, text.as_slice(), config) {
        Ok(map) => Ok(map),
        Err(MapError::Refused { .. }) => Err(RowError::Unreadable),
        Err(MapError::NoMemory) => Err(RowError::NoMemory),
    }
}

/// Adds what was sent on each link that was left at a gear's door.
fn put_left<L: Shown>(gear: &OverLinks<L>, out: &mut Bytes) -> Result<(), NoMemory> {
    for link in gear.door.left() {
        out.extend(b"left\n")?;
        out.extend(link.sent())?;
        out.extend(b"\n")?;
    }
    Ok(())
}

/// What was sent on all links that were left.
fn sent_of<L: Shown>(alloc: Global, gears: &[OverLinks<L>]) -> Result<Bytes, NoMemory> {
    let mut out = Bytes::new(alloc);
    for gear in gears {
        put_left(gear, &mut out)?;
    }
    Ok(out)
}

/// The site that the workers serve.
#[derive(Clone, Copy)]
struct Served<'a> {
    config: &'a Config,
    map: &'a UriMap,
    ghost stands: { stands_in config.now map.now ≡ true },
}

/// Serves the clients of two workers by a thread each, and says what was sent on the links that were left.
fn over_links<L: Link + Shown + Drop + Send, R: Threads + Wait + Sync>(
    rt: &R,
    alloc: Global,
    served: Served<'_>,
    first: Ends<L>,
    second: Ends<L>,
) -> Result<Bytes, NoMemory> {
    let gears = gears_of(alloc, first, second)?;
    let format = ListOf::new(alloc);
    let plan = SitePlan {
        cfg: served.config,
        map: served.map,
        cut: cut_at(None),
        format: &format,
        watch: None,
    };
    match serve_gears(rt, alloc, plan, gears) {
        Ok(run) => {
            let sent = sent_of(alloc, run.gears.as_slice());
            let_go(run);
            sent
        }
        Err(_) => Err(NoMemory),
    }
}

/// As `over_links`, with links that meet at a gate. The member answers the first once the second's client has its answer,
/// and the second at once: the place that it waits for is raised from the beginning.
fn over_gate<L: Link + Shown + Drop + Send, R: Threads + Wait + Clock + Sync>(
    rt: &R,
    alloc: Global,
    gate: &Gate<'_, R>,
    served: Served<'_>,
    first: Ends<L>,
    second: Ends<L>,
) -> Result<Bytes, NoMemory> {
    gate.raise(OPEN);
    let places = Places {
        member: SECOND_IS_ANSWERED,
        client: NOBODY_WAITS,
    };
    let first = meeting(first, gate, places);
    let places = Places {
        member: OPEN,
        client: SECOND_IS_ANSWERED,
    };
    over_links(rt, alloc, served, first, meeting(second, gate, places))
}

/// As `over_gate`, at a gate of their own, where all four links could be made.
fn over_ends<L: Link + Shown + Drop + Send, R: Threads + Wait + Clock + Sync>(
    rt: &R,
    alloc: Global,
    served: Served<'_>,
    first: Result<Ends<L>, RowError>,
    second: Result<Ends<L>, RowError>,
) -> Result<Bytes, RowError> {
    let first = first?;
    let second = second?;
    Ok(over_gate(rt, alloc, &Gate::new(rt), served, first, second)?)
}

fn over_row<R: Threads + Wait + Clock + Sync>(
    rt: &R,
    alloc: Global,
    row: BlockRow<'_>,
    served: Served<'_>,
) -> Result<Bytes, RowError> {
    let first = ends_of(alloc, row, 0);
    let second = ends_of(alloc, row, 2);
    over_ends(rt, alloc, served, first, second)
}

fn over_config<R: Threads + Wait + Clock + Sync>(
    rt: &R,
    alloc: Global,
    row: BlockRow<'_>,
    config: &Config,
) -> Result<Bytes, RowError> {
    let map = map_of(alloc, row, config)?;
    over_row(rt, alloc, row, Served { config, map: &map })
}

/// What was sent to both clients.
pub fn told<R: Threads + Wait + Clock + Sync>(
    rt: &R,
    alloc: Global,
    row: BlockRow<'_>,
) -> Result<Bytes, RowError> {
    over_config(rt, alloc, row, &config_of(alloc, row)?)
}
