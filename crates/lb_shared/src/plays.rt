//! The rule of the lock's table, and what each step on it tells.

use crate::view::View;
use atomic_table::{Join, Play, TableRule};
use std::marker::PhantomData;

/// What a history says of a value.
pub trait Telling<S, E> {
    ghost use Rattle.std.specs.Prelude.{List, ℕ};

    // the value is what this history made of it, each entry with the number of the seat that added it
    ghost tells: { List (ℕ × E) → S → Type 0 };

    // the entries that the last hold added
    ghost news: { S → List E };
}

/// The rule of a lock's table.
pub struct Law<T> {
    of: PhantomData<T>,
}

impl<S, E, T: Telling<S, E>> TableRule<Option<S>, View<E>, ()> for Law<T> {
    ghost use Rattle.lb_shared.specs.Seats.{IsKept, nobody};

    ghost holds = { λ _. IsKept T.tells };

    ghost first = { λ _. nobody };
}

/// The lock was asked for, and taken where it was free.
pub(crate) struct Enter<T> {
    of: PhantomData<T>,
}

impl<S, E, T: Telling<S, E>> Play<Option<S>, View<E>> for Enter<T> {
    ghost use Rattle.lb_shared.specs.Seats.{Enters};

    ghost then = { λ _ me found after. Enters T.tells me found after };
}

/// The lock was given back.
pub(crate) struct Leave<T> {
    of: PhantomData<T>,
}

impl<S, E, T: Telling<S, E>> Play<Option<S>, View<E>> for Leave<T> {
    ghost use Rattle.lb_shared.specs.Seats.{Leaves};

    ghost then = { λ _ me _ after. Leaves T.news me after };
}

/// A seat came.
pub(crate) struct Come;

impl<S, E> Play<Option<S>, View<E>> for Come {
    ghost use Rattle.lb_shared.specs.Seats.{Comes};

    ghost then = { λ _ _ _ after. Comes after };
}

/// Two seats become one.
pub(crate) struct Unite;

impl<E> Join<View<E>> for Unite {
    ghost use Rattle.lb_shared.specs.Seats.{nobody, united};

    ghost both = { united };

    ghost spent = { nobody };
}
