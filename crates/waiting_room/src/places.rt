//! The places of a waiting room: plain data, by which no client is lost.
ghost use Rattle.std.specs.Prelude.{◌≡◌, ◌+◌, ◌++◌, [], ◌∷◌, IfOk, IfErr, IfNone, IfSome, IsOk, IsSome, None, OnErr, OnOk, Some, length, slice_get, slice_set, true, false};
ghost use Rattle.waiting_room.specs.Longest.{GoesFirst, LongestIn};
ghost use Rattle.waiting_room.specs.Rooms.{Changes, GivesBack, IsFreed, IsLookedOver, Stirs, TakesPlace, stay_at, stay_in};
ghost use Rattle.waiting_room.specs.Stays.{IsOver};

use crate::stay::{Limits, Phase, Stay};
use jk_io::NoMemory;
use std::alloc::Global;
use std::collections::VecDeque;
use std::marker::Model;
use std::mem;

/// One place of a room.
#[derive(Drop)]
pub enum Place<C> {
    Free,
    /// The client waits here.
    Waits(Stay, C),
    /// The client is ready, or a worker has it. True: something came since.
    Away(bool),
}

impl<C> Place<C> {
    // The client who waits here; the place again where none does.
    fn into_client(self) -> Result<(Stay, C), Place<C>>
        ensures ok { IfOk result (λ c. self ≡ Place.Waits c.0 c.1) }
        ensures err { IfErr result (λ other. (other ≡ self) × (stay_in (Some self) ≡ None)) }
    {
        match self {
            Place::Waits(stay, client) => Ok((stay, client)),
            Place::Free => Err(Place::Free),
            Place::Away(came) => Err(Place::Away(came)),
        }
    }
}

/// The places of a room, and the clients that are ready for a worker, in order.
#[derive(Drop)]
pub struct Places<C> {
    places: Vec<Place<C>>,
    /// Numbers of places that were free once they were noted.
    free: Vec<usize>,
    ready: VecDeque<(usize, Stay, C)>,
}

impl<C> Model for Places<C> {
    ghost use Rattle.waiting_room.specs.Rooms.{RoomState};

    ghost Value = { RoomState C };

    ghost view = { λ p. record { places = p.places.items; ready = p.ready.items } };
}

impl<C> Places<C> {
    /// A room without a place.
    pub fn new(alloc: Global) -> Places<C>
        ensures { result ≡ record { places = []; ready = [] } }
    {
        Places {
            places: Vec::new(alloc),
            free: Vec::new(alloc),
            ready: VecDeque::new(alloc),
        }
    }

    /// How many places there are.
    pub fn len(&self) -> usize
        ensures { result ≡ length self.now.places }
    {
        self.places.len()
    }

    /// How many clients are ready.
    pub fn ready(&self) -> usize
        ensures { result ≡ length self.now.ready }
    {
        self.ready.len()
    }
}

impl<C: Drop> Places<C> {
    /// A client comes in, and waits at the place of the answer. For want of memory it comes back.
    pub fn put(&mut self, stay: Stay, client: C) -> Result<usize, C>
        ensures put { IfOk result (λ at. TakesPlace self.old.places at (Place.Waits stay client) self.new.places) }
        ensures err { IfErr result (λ back. (back ≡ client) × (self.new.places ≡ self.old.places)) }
        ensures ready { self.new.ready ≡ self.old.ready }
    {
        match self.free_place() {
            Some(at) => {
                self.places[at] = Place::Waits(stay, client);
                Ok(at)
            }
            None => self.add(stay, client),
        }
    }

    // A place that was noted as free, if it is.
    fn free_place(&mut self) -> Option<usize>
        ensures free { IfSome result (λ at. slice_get self.new.places at ≡ Some Place.Free) }
        ensures same { self.new ≡ self.old }
    {
        let at = self.free.pop()?;
        match self.places.get(at) {
            Some(Place::Free) => Some(at),
            _ => None,
        }
    }

    // One more place.
    fn add(&mut self, stay: Stay, client: C) -> Result<usize, C>
        ensures put { IfOk result (λ at. (at ≡ length self.old.places) × (self.new.places ≡ self.old.places ++ Place.Waits stay client ∷ [])) }
        ensures err { IfErr result (λ back. (back ≡ client) × (self.new.places ≡ self.old.places)) }
        ensures ready { self.new.ready ≡ self.old.ready }
    {
        if self.places.reserve(1).is_err() {
            return Err(client);
        }
        let at = self.places.len();
        self.places.push_reserved(Place::Waits(stay, client));
        Ok(at)
    }

    /// The next client that is ready goes to a worker; what came until now, the worker will see.
    pub fn take(&mut self) -> Option<(usize, Stay, C)>
        ensures next { IfSome result (λ c. self.old.ready ≡ c ∷ self.new.ready) }
        ensures seen { IfSome result (λ c. IsLookedOver self.old.places c.0 self.new.places) }
        ensures none { IfNone result ((self.old.ready ≡ []) × (self.new ≡ self.old)) }
    {
        let (at, stay, client) = self.ready.pop_front()?;
        self.see(at);
        Some((at, stay, client))
    }

    /// What came until now for the client of a place, who is away, is no news.
    pub fn see(&mut self, at: usize)
        ensures seen { IsLookedOver self.old.places at self.new.places }
        ensures ready { self.new.ready ≡ self.old.ready }
    {
        if let Some(Place::Away(_)) = self.places.get(at) {
            self.places[at] = Place::Away(false);
        }
    }

    /// Something came for the client of a place. One that waits is ready now.
    pub fn stir(&mut self, at: usize) -> Result<(), NoMemory>
        ensures ok { OnOk result (Stirs self.old at self.new) }
        ensures err { OnErr result (self.new ≡ self.old) }
    {
        match self.places.get(at) {
            Some(Place::Away(_)) => {
                self.places[at] = Place::Away(true);
                Ok(())
            }
            Some(Place::Waits(_, _)) => self.wake(at),
            _ => Ok(()),
        }
    }

    // The client who waits at a place is ready. Where there is none, nothing is done.
    fn wake(&mut self, at: usize) -> Result<(), NoMemory>
        ensures ok { OnOk result (Stirs self.old at self.new) }
        ensures err { OnErr result (self.new ≡ self.old) }
    {
        if self.ready.reserve(1).is_err() {
            return Err(NoMemory);
        }
        let Some(place) = self.places.get_mut(at) else {
            return Err(NoMemory);
        };
        match mem::replace(place, Place::Away(false)) {
            Place::Waits(stay, client) => {
                self.ready.push_back_reserved((at, stay, client));
                Ok(())
            }
            other => {
                *place = other;
                Err(NoMemory)
            }
        }
    }

    /// A worker gives its client back: it waits again, or is ready where something came since. For want of memory, or where
    /// the place isn't that of a client who is away, it comes back.
    pub fn give_back(&mut self, at: usize, stay: Stay, client: C) -> Result<(), C>
        ensures ok { OnOk result (GivesBack self.old at stay client self.new) }
        ensures err { IfErr result (λ back. (back ≡ client) × (self.new ≡ self.old)) }
        ensures waits { slice_get self.old.places at ≡ Some (Place.Away false) → IsOk result }
    {
        match self.places.get(at) {
            Some(Place::Away(false)) => {
                self.places[at] = Place::Waits(stay, client);
                Ok(())
            }
            Some(Place::Away(true)) => self.queue(at, stay, client),
            _ => Err(client),
        }
    }

    // The client of a place is ready.
    fn queue(&mut self, at: usize, stay: Stay, client: C) -> Result<(), C>
        requires { slice_get self.old.places at ≡ Some (Place.Away true) }
        ensures ok { OnOk result ((self.new.places ≡ slice_set self.old.places at (Place.Away false))
            × (self.new.ready ≡ self.old.ready ++ (at, stay, client) ∷ [])) }
        ensures err { IfErr result (λ back. (back ≡ client) × (self.new ≡ self.old)) }
    {
        if self.ready.reserve(1).is_err() {
            return Err(client);
        }
        self.places[at] = Place::Away(false);
        self.ready.push_back_reserved((at, stay, client));
        Ok(())
    }

    /// The client of a place who is away goes.
    pub fn free(&mut self, at: usize)
        ensures freed { IsFreed self.old.places at self.new.places }
        ensures ready { self.new.ready ≡ self.old.ready }
    {
        if let Some(Place::Away(_)) = self.places.get(at) {
            self.places[at] = Place::Free;
            self.note_free(at);
        }
    }

    // Notes that a place is free. For want of memory it isn't taken again.
    fn note_free(&mut self, at: usize)
        ensures { self.new ≡ self.old }
    {
        let _ = self.free.push(at);
    }

    /// The client who waits at a place goes.
    pub fn remove(&mut self, at: usize) -> Option<(Stay, C)>
        ensures some { IfSome result (λ c. Changes self.old.places at (Place.Waits c.0 c.1) Place.Free self.new.places) }
        ensures none { IfNone result ((stay_at self.old.places at ≡ None) × (self.new ≡ self.old)) }
        ensures ready { self.new.ready ≡ self.old.ready }
    {
        let place = self.places.get_mut(at)?;
        match mem::replace(place, Place::Free).into_client() {
            Ok(gone) => {
                self.note_free(at);
                Some(gone)
            }
            Err(other) => {
                *place = other;
                None
            }
        }
    }

    /// The client who waits at a place is away for a moment.
    pub fn lift(&mut self, at: usize) -> Option<(Stay, C)>
        ensures some { IfSome result (λ c. Changes self.old.places at (Place.Waits c.0 c.1) (Place.Away false) self.new.places) }
        ensures none { IfNone result ((stay_at self.old.places at ≡ None) × (self.new ≡ self.old)) }
        ensures ready { self.new.ready ≡ self.old.ready }
    {
        let place = self.places.get_mut(at)?;
        match mem::replace(place, Place::Away(false)).into_client() {
            Ok(gone) => Some(gone),
            Err(other) => {
                *place = other;
                return None;
            }
        }
    }

    /// The client who waits at a place goes, if it has waited too long.
    pub fn remove_over(&mut self, at: usize, limits: Limits, now: u64) -> Option<(Stay, C)>
        ensures some { IfSome result (λ c. IsOver limits c.0 now × Changes self.old.places at (Place.Waits c.0 c.1) Place.Free self.new.places) }
        ensures late { IfSome (stay_at self.old.places at) (λ stay. IsOver limits stay now → IsSome result) }
        ensures none { IfNone result (self.new ≡ self.old) }
        ensures ready { self.new.ready ≡ self.old.ready }
    {
        if self.stay_at(at)?.is_over(limits, now) {
            return self.remove(at);
        }
        None
    }

    /// The wait of the client who waits at a place.
    pub fn stay_at(&self, at: usize) -> Option<Stay>
        ensures { result ≡ stay_at self.now.places at }
    {
        match self.places.get(at) {
            Some(Place::Waits(stay, _)) => Some(*stay),
            _ => None,
        }
    }

    /// The place of the client who goes where too many wait: of those between two requests the one that waited longest; where there is
    /// none, of those whose head isn't whole.
    pub fn longest(&self) -> Option<usize>
        ensures { GoesFirst self.now.places result }
    {
        match self.longest_in(Phase::Between) {
            Some(at) => Some(at),
            None => self.longest_in(Phase::Head),
        }
    }

    // The place of the one that waited longest in a phase.
    fn longest_in(&self, phase: Phase) -> Option<usize>
        ensures { LongestIn phase self.now.places (length self.now.places) result }
    {
        let mut best = None;
        for at in 0..self.len() {
            best = self.longer(phase, best, at);
        }
        best
    }

    // The place of the one that waited longest in a phase at the first places, with one place more.
    fn longer(&self, phase: Phase, best: Option<usize>, at: usize) -> Option<usize>
        requires { LongestIn phase self.now.places at best }
        ensures { LongestIn phase self.now.places (at + 1) result }
    {
        let Some(stay) = self.stay_at(at) else {
            return best;
        };
        if stay.phase != phase {
            return best;
        }
        self.longer_of(phase, best, at, stay)
    }

    // The one of two places at which a client has waited longer in a phase.
    fn longer_of(&self, phase: Phase, best: Option<usize>, at: usize, stay: Stay) -> Option<usize>
        requires best { LongestIn phase self.now.places at best }
        requires waits { stay_at self.now.places at ≡ Some stay }
        requires phase { stay.phase ≡ phase }
        ensures { LongestIn phase self.now.places (at + 1) result }
    {
        let Some(first) = best else {
            return Some(at);
        };
        if stay.since < self.stay_at(first).unwrap().since {
            Some(at)
        } else {
            best
        }
    }
}
