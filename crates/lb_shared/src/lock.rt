//! The lock and its seats.
ghost use Rattle.std.specs.Prelude.{◌≡◌, ◌≢◌, ◌++◌, ℕ, true, false, List, [], ◌∷◌, Some, IfErr};
ghost use Rattle.lb_shared.specs.Seats.{IsLast, IsToldLast, Took, by_seat, seated, united};

use crate::plays::{Come, Enter, Law, Leave, Telling, Unite};
use crate::view::View;
use atomic_table::{Refused, Seat, Table};
use std::alloc::Global;
use std::hint::spin_loop;
use std::sync::Wait;

// How often a thread looks before it sleeps.
const LOOKS: u32 = 100;

const FREE: u64 = 0;

const HELD: u64 = 1;

// The lock is held, and a thread may sleep.
const AWAITED: u64 = 2;

/// A seat at a lock. It has no bytes and borrows nothing.
pub type LockSeat<S, E> = Seat<Option<S>, View<E>>;

/// A value that one thread at a time may have, with its history.
#[derive(Drop)]
pub struct HistoryLock<S, E, T: Telling<S, E>> {
    pub table: Table<Option<S>, View<E>, (), Law<T>, Global>,
    pub ghost one_word: { table.shared.table_id.words ≡ 1 },
    pub ghost one_slot: { table.shared.table_id.slots ≡ 1 },
}

/// There was no memory for a lock. The value comes back.
#[derive(Drop)]
pub struct Unopened<S> {
    pub value: S,
}

impl<S: Drop, E, T: Telling<S, E>> HistoryLock<S, E, T> {
    /// Puts a value without a history behind a lock.
    pub fn open(alloc: Global, value: S) -> Result<HistoryLock<S, E, T>, Unopened<S>>
        requires { T.tells [] value }
        ensures { IfErr result (λ u. u.value ≡ value) }
    {
        let mut slots = Vec::new(alloc);
        match slots.push(Some(value)) {
            Ok(()) => {}
            Err(failed) => {
                return Err(Unopened {
                    value: failed.value.unwrap(),
                });
            }
        }
        match Table::new(alloc, &[FREE], slots, &()) {
            Ok((table, _first)) => Ok(HistoryLock { table }),
            Err(Refused { mut slots }) => Err(Unopened {
                value: slots.pop().unwrap().unwrap(),
            }),
        }
    }

    /// A seat of a number of its own, which has seen nothing.
    pub fn seat(&self) -> LockSeat<S, E>
        ensures of { result.table_id ≡ self.now.table.shared.table_id }
        ensures new { (number : ℕ) × (result.me ≡ (seated false number [], [])) }
    {
        self.table.shared.load_new_seat::<Come>(0).1
    }

    /// Waits until the lock is free, and takes the value.
    pub fn enter<R: Wait>(&self, rt: &R, seat: &mut LockSeat<S, E>)
        requires of { seat.old.table_id ≡ self.now.table.shared.table_id }
        requires out { seat.old.me.0.holds ≡ false }
        ensures of { seat.new.table_id ≡ seat.old.table_id }
        ensures took { Took T.tells seat.old.me.0 seat.old.me.1 seat.new.me }
    {
        if self.take(seat, HELD) {
            return;
        }
        for _ in 0..LOOKS {
            spin_loop();
            if self.table.shared.peek(0) == FREE && self.take(seat, HELD) {
                return;
            }
        }

        // It sleeps while the lock is held.
        for _ in rt.forever() {
            if self.table.shared.swap::<Enter<T>>(seat, 0, AWAITED) == FREE {
                return;
            }
            self.table.shared.park(rt, 0, AWAITED as u32);
        }
        unreachable!()
    }

    // Takes the value if the lock is free.
    fn take(&self, seat: &mut LockSeat<S, E>, word: u64) -> bool
        requires of { seat.old.table_id ≡ self.now.table.shared.table_id }
        requires out { seat.old.me.0.holds ≡ false }
        requires held { word ≢ 0 }
        ensures of { seat.new.table_id ≡ seat.old.table_id }
        ensures took { result ≡ true → Took T.tells seat.old.me.0 seat.old.me.1 seat.new.me }
        ensures missed { result ≡ false → seat.new.me ≡ seat.old.me }
    {
        self.table
            .shared
            .compare_exchange::<Enter<T>>(seat, 0, FREE, word)
            == FREE
    }

    /// Gives the value back, once it is what the history with its new entries says.
    pub fn leave(&self, seat: &mut LockSeat<S, E>)
        requires of { seat.old.table_id ≡ self.now.table.shared.table_id }
        requires told { IsToldLast T.tells T.news seat.old.me }
        ensures of { seat.new.table_id ≡ seat.old.table_id }
        ensures left { (number : ℕ) (seen : List (ℕ × E)) (y : S) → seat.old.me ≡ (seated true number seen, (0, Some y) ∷ [])
            → seat.new.me ≡ (seated false number (seen ++ by_seat number (T.news y)), []) }
    {
        if self.table.shared.swap::<Leave<T>>(seat, 0, FREE) == AWAITED {
            self.table.shared.wake_one(0);
        }
    }

    /// Brings the claims of two seats together.
    pub fn join(&self, seat: &mut LockSeat<S, E>, other: LockSeat<S, E>)
        requires of { (seat.old.table_id ≡ self.now.table.shared.table_id) × (other.table_id ≡ self.now.table.shared.table_id) }
        requires out { (seat.old.me.0.holds ≡ false) × (other.me.0.holds ≡ false) × (other.me.1 ≡ []) }
        ensures of { seat.new.table_id ≡ seat.old.table_id }
        ensures both { seat.new.me ≡ (united seat.old.me.0 other.me.0, seat.old.me.1) }
    {
        self.table.shared.join_seat::<Unite>(seat, other);
    }

    /// Takes the value out. The seat's claims are then true of the whole history.
    pub fn close<R: Wait>(self, rt: &R, seat: LockSeat<S, E>) -> S
        requires of { seat.table_id ≡ self.table.shared.table_id }
        requires out { (seat.me.0.holds ≡ false) × (seat.me.1 ≡ []) }
        ensures { IsLast T.tells seat.me.0.claims result }
    {
        let mut seat = seat;
        self.enter(rt, &mut seat);
        self.table.shared.exchange(&mut seat, 0, None).unwrap()
    }
}
