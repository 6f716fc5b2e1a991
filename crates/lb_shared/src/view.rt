//! The view of a seat at the lock. No value of these types is made.

use std::collections::LinkedList;

/// A seat's number, and the history that it has seen: each entry with the number of the seat that added it.
pub struct Claim<E> {
    pub number: u64,
    pub seen: LinkedList<(u64, E)>,
}

/// Whether the seat has the lock's value, and its claims: one, and after a join those of both seats.
pub struct View<E> {
    pub holds: bool,
    pub claims: LinkedList<Claim<E>>,
}
