//! The words of a command that have a range, each of a type that keeps it.
ghost use Rattle.std.specs.Prelude.{◌≡◌, ◌≤◌, IfOk, None, Some, if◌then◌else◌, length, nat_le};
ghost use Rattle.jk_cli.specs.Ranges.{most_requests, most_route_bytes, most_threads};

use jk_io::{Bytes, NoMemory};
use std::alloc::Global;
use std::marker::Model;

/// The most threads of a program.
pub const MOST_THREADS: u32 = 64;

/// The most requests of a drill.
pub const MOST_REQUESTS: u32 = 1_000_000;

/// The most bytes of a container's route.
pub const MOST_ROUTE_BYTES: usize = 1_024;

/// How many threads work, 1 to 64. Contracts see the number.
#[derive(Clone, Copy, Drop)]
pub struct ThreadCount {
    count: u32,
}

impl Model for ThreadCount {
    ghost use Rattle.std.specs.Prelude.{ℕ, ◌≤◌};
    ghost use Rattle.jk_cli.specs.Ranges.{most_threads};

    ghost Value = { ℕ };

    ghost view = { λ t. t.count };

    ghost inverse = { λ n. record { count = n } };

    ghost invariant = { λ t. (1 ≤ t.count) × (t.count ≤ most_threads) };
}

impl ThreadCount {
    pub fn new(count: u32) -> ThreadCount
        requires { (1 ≤ count) × (count ≤ most_threads) }
        ensures { result ≡ count }
    {
        ThreadCount { count }
    }

    /// The number.
    pub fn get(&self) -> u32
        ensures value { result ≡ self.now }
        ensures range { (1 ≤ result) × (result ≤ most_threads) }
    {
        self.count
    }
}

/// How many requests a drill makes, 1 to 1,000,000. Contracts see the number.
#[derive(Clone, Copy, Drop)]
pub struct DrillRequests {
    count: u32,
}

impl Model for DrillRequests {
    ghost use Rattle.std.specs.Prelude.{ℕ, ◌≤◌};
    ghost use Rattle.jk_cli.specs.Ranges.{most_requests};

    ghost Value = { ℕ };

    ghost view = { λ r. r.count };

    ghost inverse = { λ n. record { count = n } };

    ghost invariant = { λ r. (1 ≤ r.count) × (r.count ≤ most_requests) };
}

impl DrillRequests {
    pub fn new(count: u32) -> DrillRequests
        requires { (1 ≤ count) × (count ≤ most_requests) }
        ensures { result ≡ count }
    {
        DrillRequests { count }
    }

    /// The number.
    pub fn get(&self) -> u32
        ensures value { result ≡ self.now }
        ensures range { (1 ≤ result) × (result ≤ most_requests) }
    {
        self.count
    }
}

/// A container's route where it stands in the words, of at most 1,024 bytes. Contracts see the bytes.
#[derive(Drop)]
pub(crate) struct RouteWord<'a> {
    text: &'a [u8],
}

impl<'a> Model for RouteWord<'a> {
    ghost use Rattle.std.specs.Prelude.{List, ℕ, length, ◌≤◌};
    ghost use Rattle.jk_cli.specs.Ranges.{most_route_bytes};

    ghost Value = { List ℕ };

    ghost view = { λ r. r.text.now };

    ghost invariant = { λ r. length r.text.now ≤ most_route_bytes };
}

impl<'a> RouteWord<'a> {
    /// The word, where it isn't too long.
    pub fn of(text: &'a [u8]) -> Option<RouteWord<'a>>
        ensures { result ≡ (if nat_le (length text.now) most_route_bytes then Some text.now else None) }
    {
        if text.len() <= MOST_ROUTE_BYTES {
            Some(RouteWord { text })
        } else {
            None
        }
    }

    /// The route, which owns its bytes.
    pub fn route(&self, alloc: Global) -> Result<ContainerRoute, NoMemory>
        ensures { IfOk result (λ route. route ≡ self.now) }
    {
        Ok(ContainerRoute {
            text: Bytes::from_slice(alloc, self.text)?,
        })
    }
}

/// A container's route, of at most 1,024 bytes. Contracts see the bytes.
#[derive(Drop)]
pub struct ContainerRoute {
    text: Bytes,
}

impl Model for ContainerRoute {
    ghost use Rattle.std.specs.Prelude.{List, ℕ, length, ◌≤◌};
    ghost use Rattle.jk_cli.specs.Ranges.{most_route_bytes};

    ghost Value = { List ℕ };

    ghost view = { λ r. r.text };

    ghost invariant = { λ r. length r.text ≤ most_route_bytes };
}

impl ContainerRoute {
    pub fn new(text: Bytes) -> ContainerRoute
        requires { length text ≤ most_route_bytes }
        ensures { result ≡ text }
    {
        ContainerRoute { text }
    }

    /// Its bytes.
    pub fn text(&self) -> &Bytes
        ensures value { result.now ≡ self.now }
        ensures short { length result.now ≤ most_route_bytes }
    {
        &self.text
    }
}
