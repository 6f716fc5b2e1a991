//! The configuration that a workers.properties gives.
ghost use Rattle.std.specs.Prelude.{◌≡◌, ◌≤◌, length, true};
ghost use Rattle.site_config.specs.Places.{are_places};

use crate::balancer::LbList;
use crate::ignored::IgnoredList;
use jk_io::{Bytes, ListOf};

/// A worker that shows and changes the balancers' state.
#[derive(Drop)]
pub struct Status {
    pub name: Bytes,
    /// Whether it shows alone, and changes nothing.
    pub read_only: bool,
    /// Whether nobody may see it: its directives name users, and jkd knows none.
    pub closed: bool,
}

/// What a listed name stands for, by its place.
#[derive(Clone, Copy, PartialEq, Eq)]
pub enum Named {
    Balancer(u32),
    Status(u32),
}

/// Status workers, by index.
pub type StatusList = ListOf<Status>;

/// The names of `worker.list`, in order, each once.
pub type NamedList = ListOf<(Bytes, Named)>;

/// The balancers and status workers of a site.
#[derive(Drop)]
pub struct Config {
    /// At most 1,024.
    pub lbs: LbList,
    pub statuses: StatusList,
    /// Each is a place of `lbs` or of `statuses`.
    pub listed: NamedList,
    /// Seconds between two maintenances, 1 to 86,400.
    pub maintain: u64,
    /// The lines whose keys have no effect, each with its key.
    pub ignored: IgnoredList,
    pub ghost few: { length lbs ≤ 1024 },
    pub ghost placed: { are_places (length lbs) (length statuses) listed ≡ true },
    pub ghost maintain_above: { 1 ≤ maintain },
    pub ghost maintain_below: { maintain ≤ 86400 },
}

impl Config {
    ghost use Rattle.site_config.specs.Places.{named_among};

    /// What a listed name stands for.
    pub fn find(&self, name: &[u8]) -> Option<Named>
        ensures { result ≡ named_among name.now self.now.listed }
    {
        for entry in self.listed.as_slice() {
            if entry.0.as_slice() == name {
                return Some(entry.1);
            }
        }
        None
    }
}
