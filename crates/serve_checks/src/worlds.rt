//! The world of a row: what its gears are made of.
use check_rows::row::{BlockRow, RowError};
use gear_worlds::{MemPlan, MemPlanList, MemWorld};
use jk_io::{
    Bytes, ClientList, ListOf, MemDial, MemLink, MemLinkList, NoMemory, NumberList, Peer,
    StepClock, parse_decimal,
};
use lb_shared::{KeptList, MemShelf};
use std::alloc::Global;

fn number_in(text: &str) -> Result<u64, RowError> {
    parse_decimal(text.as_bytes()).ok_or(RowError::Unreadable)
}

/// What a line `gear` says: how many clients and links there are, and whether the first accept at this door fails.
#[derive(Clone, Copy)]
struct GearLine {
    clients: u64,
    links: u64,
    refuses: bool,
}

fn gear_line(text: &str) -> Result<GearLine, RowError> {
    let (clients, rest) = text.split_once(' ').ok_or(RowError::Unreadable)?;
    let (links, refuses) = match rest.strip_suffix(" refuses") {
        Some(links) => (links, true),
        None => (rest, false),
    };
    Ok(GearLine {
        clients: number_in(clients)?,
        links: number_in(links)?,
        refuses,
    })
}

/// Which accepts fail at the door of a gear.
fn refused_of(alloc: Global, row: BlockRow<'_>, line: GearLine) -> Result<NumberList, RowError> {
    let mut refused = row.numbers(alloc, "door-fails")?;
    if line.refuses {
        push(&mut refused, 0)?;
    }
    Ok(refused)
}

/// A link that gives the text of the file with this number.
pub fn link_of(alloc: Global, row: BlockRow<'_>, file: usize) -> Result<MemLink, RowError> {
    let text = row.text(alloc, "file", file)?;
    Ok(MemLink::new(alloc, text, NumberList::new(alloc)))
}

/// Adds an item; where memory is wanted it is let go.
pub fn push<T: Drop>(list: &mut ListOf<T>, item: T) -> Result<(), NoMemory> {
    list.push(item)?;
    Ok(())
}

/// A client, which comes by this link.
pub fn client_by<L: Drop>(alloc: Global, link: L) -> Result<(L, Peer), NoMemory> {
    let addr = Bytes::from_slice(alloc, b"127.0.0.1")?;
    Ok((link, Peer { addr }))
}

fn push_client(
    alloc: Global,
    row: BlockRow<'_>,
    file: usize,
    clients: &mut ClientList<MemLink>,
) -> Result<(), RowError> {
    let client = client_by(alloc, link_of(alloc, row, file)?)?;
    Ok(push(clients, client)?)
}

/// `count` clients, whose bytes are those of the files from this one on.
fn clients_of(
    alloc: Global,
    row: BlockRow<'_>,
    count: u64,
    file: &mut usize,
) -> Result<ClientList<MemLink>, RowError> {
    let mut clients = ClientList::new(alloc);
    for _ in 0..count {
        push_client(alloc, row, *file, &mut clients)?;
        *file = file.saturating_add(1);
    }
    Ok(clients)
}

fn push_link(
    alloc: Global,
    row: BlockRow<'_>,
    file: usize,
    links: &mut MemLinkList,
) -> Result<(), RowError> {
    let link = link_of(alloc, row, file)?;
    Ok(push(links, link)?)
}

fn links_of(
    alloc: Global,
    row: BlockRow<'_>,
    count: u64,
    file: &mut usize,
) -> Result<MemLinkList, RowError> {
    let mut links = ListOf::new(alloc);
    for _ in 0..count {
        push_link(alloc, row, *file, &mut links)?;
        *file = file.saturating_add(1);
    }
    Ok(links)
}

fn dial_of(
    alloc: Global,
    row: BlockRow<'_>,
    count: u64,
    file: &mut usize,
) -> Result<MemDial, RowError> {
    let links = links_of(alloc, row, count, file)?;
    Ok(MemDial::new(links, row.numbers(alloc, "dial-fails")?))
}

fn shelf_of(alloc: Global, row: BlockRow<'_>) -> Result<MemShelf, RowError> {
    let failing = row.numbers(alloc, "shelf-fails")?;
    Ok(MemShelf::new(KeptList::new(alloc), failing))
}

fn set<T: Drop>(place: &mut T, value: T) {
    *place = value;
}

/// Sets what a line `gear` says of an empty plan.
fn fill_plan(
    alloc: Global,
    row: BlockRow<'_>,
    gear: &str,
    file: &mut usize,
    plan: &mut MemPlan<MemLink>,
) -> Result<(), RowError> {
    let line = gear_line(gear)?;
    let clients = clients_of(alloc, row, line.clients, file)?;
    set(&mut plan.clients, clients);
    let refused = refused_of(alloc, row, line)?;
    set(&mut plan.refused, refused);
    let dial = dial_of(alloc, row, line.links, file)?;
    set(&mut plan.dial, dial);
    let answers = row.numbers(alloc, "clock")?;
    set(&mut plan.clock, StepClock::new(answers));
    let shelf = shelf_of(alloc, row)?;
    set(&mut plan.shelf, shelf);
    Ok(())
}

fn plan_of(
    alloc: Global,
    row: BlockRow<'_>,
    gear: &str,
    file: &mut usize,
) -> Result<MemPlan<MemLink>, RowError> {
    let mut plan = MemPlan::empty(alloc);
    fill_plan(alloc, row, gear, file, &mut plan)?;
    Ok(plan)
}

fn push_plan(
    alloc: Global,
    row: BlockRow<'_>,
    gear: &str,
    file: &mut usize,
    plans: &mut MemPlanList<MemLink>,
) -> Result<(), RowError> {
    let plan = plan_of(alloc, row, gear, file)?;
    Ok(push(plans, plan)?)
}

fn plans_of(alloc: Global, row: BlockRow<'_>) -> Result<MemPlanList<MemLink>, RowError> {
    let mut plans = MemPlanList::new(alloc);
    let mut file = 0;
    for line in row.lines.lines() {
        if let Some(gear) = line.strip_prefix("gear ") {
            push_plan(alloc, row, gear, &mut file, &mut plans)?;
        }
    }
    Ok(plans)
}

/// A log that takes all, or in which a write fails after as many bytes as its row says.
fn log_of(alloc: Global, row: BlockRow<'_>) -> Result<MemLink, RowError> {
    let failing = row.numbers(alloc, "log-fails")?;
    Ok(MemLink::failing_at(alloc, Bytes::new(alloc), NumberList::new(alloc), failing)?)
}

fn push_log(alloc: Global, row: BlockRow<'_>, logs: &mut MemLinkList) -> Result<(), RowError> {
    let log = log_of(alloc, row)?;
    Ok(push(logs, log)?)
}

/// A log for each gear of a row.
fn logs_of(alloc: Global, row: BlockRow<'_>) -> Result<MemLinkList, RowError> {
    let mut logs = ListOf::new(alloc);
    for line in row.lines.lines() {
        if line.starts_with("gear ") {
            push_log(alloc, row, &mut logs)?;
        }
    }
    Ok(logs)
}

/// The world that hands out the gears of a row.
pub fn world_of(alloc: Global, row: BlockRow<'_>) -> Result<MemWorld<MemLink>, RowError> {
    let plans = plans_of(alloc, row)?;
    let logs = logs_of(alloc, row)?;
    let failing = row.numbers(alloc, "gear-fails")?;
    Ok(MemWorld::new(alloc, plans, logs, failing))
}
