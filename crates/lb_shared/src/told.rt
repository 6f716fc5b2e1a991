//! The lock of a Site, and what its history says of it: a list of steps, each an entry that was added to a balancer, or a cut of its journal.

use crate::locked::Locked;
use crate::site::SiteName;
use crate::{HistoryLock, LockSeat, Telling};
use lb_model::Entry;
use std::marker::PhantomData;

/// What a history of steps says of a Site.
pub(crate) struct SiteTells<L> {
    of: PhantomData<L>,
}

impl<L: SiteName> Telling<Locked<L>, (u32, Option<Entry>)> for SiteTells<L> {
    ghost use Rattle.lb_shared.specs.Holds.{IsToldBy, last_steps};

    ghost tells = { λ steps locked. IsToldBy L.starts steps locked };

    ghost news = { λ locked. last_steps locked };
}

pub(crate) type SiteLock<L> = HistoryLock<Locked<L>, (u32, Option<Entry>), SiteTells<L>>;

pub(crate) type SiteSeat<L> = LockSeat<Locked<L>, (u32, Option<Entry>)>;
