//! The plan of a gear in memory: its clients, its accepts that fail, its dial, clock and shelf.
ghost use Rattle.std.specs.Prelude.{◌≡◌, [], None};
ghost use Rattle.gear_worlds.specs.Worlds.{at_most, empty_plan, gear_of};

use conn_pool::MemTape;
use gear_parts::Gear;
use jk_io::{ClientList, ListOf, MemDial, MemDoor, MemLink, NumberList, StepClock};
use lb_shared::MemShelf;
use std::alloc::Global;

/// What a gear in memory is made of: the clients that come to its door, by links of type L, the accepts of the door, numbered
/// from 0, that are to fail, and the rest of the gear. Its tape is empty.
#[derive(Drop)]
pub struct MemPlan<L> {
    pub clients: ClientList<L>,
    pub refused: NumberList,
    pub dial: MemDial,
    pub clock: StepClock,
    pub shelf: MemShelf,
}

/// Plans of gears, in the order in which they are handed out.
pub type MemPlanList<L> = ListOf<MemPlan<L>>;

/// A gear in memory.
pub type MemGear<L> = Gear<MemDoor<L>, MemDial, MemTape, StepClock, MemShelf, MemLink>;

impl<L: Drop> MemPlan<L> {
    /// A plan of which no client comes and nothing fails; its clock stands at 0. No memory is taken.
    pub fn empty(alloc: Global) -> MemPlan<L>
        ensures { result ≡ empty_plan }
    {
        MemPlan {
            clients: ListOf::new(alloc),
            refused: NumberList::new(alloc),
            dial: MemDial::new(ListOf::new(alloc), NumberList::new(alloc)),
            clock: StepClock::new(NumberList::new(alloc)),
            shelf: MemShelf::new(ListOf::new(alloc), NumberList::new(alloc)),
        }
    }
}

/// The gear of a plan, with `most` of its clients at most if that is given. No memory is taken.
pub(crate) fn gear_of<L: Drop>(alloc: Global, plan: MemPlan<L>, most: Option<u64>) -> MemGear<L>
    ensures { result ≡ gear_of most plan }
{
    let MemPlan {
        clients,
        refused,
        dial,
        clock,
        shelf,
    } = plan;
    Gear {
        door: MemDoor::new(alloc, at_most(clients, most), refused),
        dial,
        tape: MemTape::new(alloc),
        clock,
        shelf,
        log: None,
    }
}

fn at_most<L: Drop>(clients: ClientList<L>, most: Option<u64>) -> ClientList<L>
    ensures { result ≡ at_most most clients }
{
    let Some(most) = most else {
        return clients;
    };
    let mut clients = clients.into_vec();
    clients.truncate(most as usize);
    ClientList::from_vec(clients)
}
