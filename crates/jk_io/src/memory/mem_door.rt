//! A door in memory.
ghost use Rattle.std.specs.Prelude.{◌≡◌, ◌↔◌, ◌+◌, ◌<◌, ◌≤◌, ◌^◌, [], ◌∷◌, ◌++◌, reverse, Contains, IsOk, IfOk, OnErr, IsErrOf, IfSome, IfNone};
ghost use Rattle.jk_io.specs.Told.{HasCause};
ghost use Rattle.jk_io.specs.Memory.{counted};

use crate::failures::IoError;
use crate::list_of::{ListOf, NumberList};
use crate::memory::call_count::CallCount;
use crate::traits::streams::Link;
use crate::traits::surroundings::{Door, Peer};
use std::alloc::Global;
use std::marker::Model;

/// Clients, each a link and its peer.
pub type ClientList<L> = ListOf<(L, Peer)>;

/// A door that gives its clients in turn, says closed after the last, and keeps the links that are left.
#[derive(Drop)]
pub struct MemDoor<L> {
    /// The clients to come, the next one last.
    clients: Vec<(L, Peer)>,
    left: Vec<L>,
    /// How many links may still be left; the room for them is taken.
    out: usize,
    failing: NumberList,
    count: CallCount,
}

impl<L> Model for MemDoor<L> {
    ghost use Rattle.std.specs.Prelude.{◌+◌, ◌≤◌, reverse, vec_len, vec_capacity};
    ghost use Rattle.jk_io.specs.MemDoors.{MemDoorState};

    ghost Value = { MemDoorState L };

    ghost view = { λ d. record { coming = reverse d.clients.items; left = d.left.items; room = d.out; failing = d.failing; calls = d.count.calls; faults = d.count.failed } };

    ghost invariant = { λ d. vec_len d.left + d.out ≤ vec_capacity d.left };
}

impl<L> MemDoor<L> {
    /// The accepts of `failing`, numbered from 0, fail.
    pub fn new(alloc: Global, clients: ClientList<L>, failing: NumberList) -> MemDoor<L>
        ensures { result ≡ record { coming = clients; left = []; room = 0; failing = failing; calls = 0; faults = 0 } }
    {
        let mut clients = clients.into_vec();
        clients.reverse();
        MemDoor {
            clients,
            left: Vec::new(alloc),
            out: 0,
            failing,
            count: CallCount::new(),
        }
    }

    /// How many accepts failed.
    pub fn faults(&self) -> u64
        ensures { result ≡ self.now.faults }
    {
        self.count.failed
    }

    /// The links that were left, in order.
    pub fn left(&self) -> &[L]
        ensures { result.now ≡ self.now.left }
    {
        self.left.as_slice()
    }
}

impl<L: Link + Drop> Door for MemDoor<L> {
    ghost use Rattle.std.specs.Prelude.{Some};

    type L = L;

    ghost coming = { λ d. Some d.coming };

    ghost left = { λ d. Some d.left };

    ghost room = { λ d. d.room };

    ghost faults = { λ d. d.faults };

    fn accept(&mut self, _alloc: Global) -> Result<Option<(L, Peer)>, IoError>
        // The clients come in their order, and closed comes after the last.
        ensures client { IfOk result (λ answer. IfSome answer (λ c. self.old.coming ≡ c ∷ self.new.coming)) }
        ensures one_more { IfOk result (λ answer. IfSome answer (λ _. self.new.room ≡ self.old.room + 1)) }
        ensures closed { IfOk result (λ answer. IfNone answer ((self.old.coming ≡ []) × (self.new.coming ≡ []))) }
        ensures no_more { IfOk result (λ answer. IfNone answer (self.new.room ≡ self.old.room)) }
        ensures kept_on_error { OnErr result ((self.new.coming ≡ self.old.coming) × (self.new.room ≡ self.old.room)) }
        ensures same { (self.new.left ≡ self.old.left) × (self.new.failing ≡ self.old.failing) }

        // It fails exactly at the accepts that it was told to fail.
        ensures planned { IsErrOf result IoError.Failed ↔ Contains self.old.failing self.old.calls }
        ensures counted { self.new.calls ≡ counted self.old.calls }
        ensures cause { HasCause self.old.faults self.new.faults result }
        ensures clean { IsOk result → self.new.faults ≡ self.old.faults }
        ensures steady { self.old.failing ≡ [] → self.new.faults ≡ self.old.faults }
    {
        if self.count.fails(&self.failing) {
            return Err(IoError::Failed);
        }
        self.left.reserve(self.out + 1)?;
        Ok(next_client(&mut self.clients, &mut self.out))
    }

    fn leave(&mut self, link: L)
        requires { 0 < self.old.room }
        ensures left { self.new.left ≡ self.old.left ++ link ∷ [] }
        ensures one_less { self.new.room + 1 ≡ self.old.room }
        ensures same { (self.new.coming ≡ self.old.coming) × (self.new.failing ≡ self.old.failing) × (self.new.calls ≡ self.old.calls)
            × (self.new.faults ≡ self.old.faults) }
    {
        self.out -= 1;
        let Ok(()) = self.left.push(link) else {
            unreachable!()
        };
    }
}

// The next client, whose link may be left.
fn next_client<L>(clients: &mut Vec<(L, Peer)>, out: &mut usize) -> Option<(L, Peer)>
    requires { out.old + 1 < 2 ^ 64 }
    ensures client { IfSome result (λ c. reverse clients.old.items ≡ c ∷ reverse clients.new.items) }
    ensures closed { IfNone result ((reverse clients.old.items ≡ []) × (reverse clients.new.items ≡ [])) }
    ensures one_more { IfSome result (λ _. out.new ≡ out.old + 1) }
    ensures no_more { IfNone result (out.new ≡ out.old) }
    ensures at_most { out.new ≤ out.old + 1 }
{
    let client = clients.pop()?;
    *out += 1;
    Some(client)
}
