//! The clients of a room, with how many may still come.
ghost use Rattle.std.specs.Prelude.{◌≡◌, ◌-◌, ◌↔◌, IfSome, IsSome, IsTrue, [], false};
ghost use Rattle.waiting_room.specs.Counts.{HasLeisure, MayComeIn, admitted, one_fewer, one_more};
ghost use Rattle.waiting_room.specs.Turns.{Ends};

use crate::client::Client;
use crate::places::Places;
use std::alloc::Global;

/// The word of a room's table that no client comes any more. It alone gives it.
#[derive(Clone, Copy, Debug, PartialEq, Eq)]
pub struct RoomEnd {
    /// The room was stopped; else all clients that were to come have gone.
    is_stopped: bool,
}

/// The clients of a room.
#[derive(Drop)]
pub struct Table {
    pub places: Places<Client>,
    /// How many doors there are, each of a worker.
    pub doors: u64,
    /// How many clients are served or wait, those that linger not among them.
    pub clients: u64,
    /// How many of them the workers have.
    pub away: u64,
    /// How many links linger.
    pub lingering: u64,
    /// How many clients came until now.
    pub came: u64,
    /// How many clients may still come; none: without end.
    pub left: Option<u64>,
    pub is_stopped: bool,
}

impl Table {
    pub fn new(alloc: Global) -> Table
        ensures { (result.doors ≡ 0) × (result.clients ≡ 0) × (result.away ≡ 0) × (result.lingering ≡ 0) × (result.came ≡ 0) × (result.left ≡ Some 0) × (result.is_stopped ≡ false) }
    {
        Table {
            places: Places::new(alloc),
            doors: 0,
            clients: 0,
            away: 0,
            lingering: 0,
            came: 0,
            left: Some(0),
            is_stopped: false,
        }
    }

    /// So many clients more may come; none: without end.
    pub fn admit(&mut self, more: Option<u64>)
        ensures { self.new ≡ record self.old { left = admitted self.old.left more } }
    {
        self.left = match (self.left, more) {
            (Some(left), Some(more)) => Some(left.saturating_add(more)),
            _ => None,
        };
    }

    /// There is a door more.
    pub fn note_door(&mut self)
        ensures { self.new ≡ record self.old { doors = one_more self.old.doors } }
    {
        self.doors = self.doors.saturating_add(1);
    }

    /// Whether a worker may look at its own client for a moment: nobody is ready, and there are four workers for each client.
    pub fn has_leisure(&self) -> bool
        ensures { IsTrue result ↔ HasLeisure self.now }
    {
        !self.is_stopped && self.places.ready() == 0 && self.clients <= self.doors / 4
    }

    /// Whether another client may come.
    pub fn is_open(&self) -> bool
        ensures { IsTrue result ↔ MayComeIn self.now }
    {
        !self.is_stopped && !matches!(self.left, Some(0))
    }

    /// Whether no client is there, and none comes any more.
    pub fn is_over(&self) -> bool
        ensures { IsTrue result ↔ ((MayComeIn self.now → ⊥) × (self.now.clients ≡ 0)) }
    {
        !self.is_open() && self.clients == 0
    }

    /// Its word that no client comes any more, if none does: it was stopped, or no client is there and none may come.
    pub fn end(&self) -> Option<RoomEnd>
        ensures ends { IsSome result ↔ Ends self.now }
        ensures why { IfSome result (λ end. end.is_stopped ≡ self.now.is_stopped) }
    {
        if self.is_stopped || self.is_over() {
            Some(RoomEnd {
                is_stopped: self.is_stopped,
            })
        } else {
            None
        }
    }

    /// How many clients wait.
    pub fn waiting(&self) -> u64
        ensures { result ≡ self.now.clients - self.now.away }
    {
        self.clients.saturating_sub(self.away)
    }

    /// A client came.
    pub fn note_come(&mut self)
        ensures { self.new ≡ record self.old { clients = one_more self.old.clients; came = one_more self.old.came; left = one_fewer self.old.left } }
    {
        self.clients = self.clients.saturating_add(1);
        self.came = self.came.saturating_add(1);
        self.left = match self.left {
            Some(left) => Some(left.saturating_sub(1)),
            None => None,
        };
    }

    /// A client went who waited.
    pub fn note_gone(&mut self)
        ensures { self.new ≡ record self.old { clients = self.old.clients - 1 } }
    {
        self.clients = self.clients.saturating_sub(1);
    }

    /// A client went to a worker.
    pub fn note_away(&mut self)
        ensures { self.new ≡ record self.old { away = one_more self.old.away } }
    {
        self.away = self.away.saturating_add(1);
    }

    /// A worker's client waits again, or goes.
    pub fn note_back(&mut self)
        ensures { self.new ≡ record self.old { away = self.old.away - 1 } }
    {
        self.away = self.away.saturating_sub(1);
    }
}
