//! The order by which each gear of a run is taken of the world.
ghost use Rattle.std.specs.Prelude.{IsSome};

use jk_io::{Bytes, ClientLimits};
use site_config::Config;

/// What the gears of a run are ordered for. Each gear of the run is asked for by the same order.
#[derive(Clone, Copy)]
pub struct GearOrder<'a> {
    /// Where clients are waited for, HOST:PORT.
    pub address: &'a Bytes,
    /// After how many clients each worker ends; none: it doesn't.
    pub clients: Option<u64>,
    /// The directory into which cut journals are written, if into any. They are named after the site's balancers.
    pub journal: Option<&'a Bytes>,
    /// The directory of the logs of its requests, if there are any.
    pub log: Option<&'a Bytes>,
    /// The site whose clients are served; a container has none.
    pub cfg: Option<&'a Config>,
    /// What a client may take.
    pub limits: ClientLimits,
    /// Where the run is told to stop, if anywhere: the path of a socket.
    pub control: Option<&'a Bytes>,
    /// For how many seconds after a stop the requests under way are waited for.
    pub grace: u64,
    pub ghost named: { IsSome journal → IsSome cfg },
}

impl<'a> GearOrder<'a> {
    ghost use Rattle.std.specs.Prelude.{◌≡◌, None};
    ghost use Rattle.gear_parts.specs.Wants.{container_wants, wants_of};

    /// An order for a container's gears: no journal, no log, no site, no limits, and nothing that tells it to stop.
    pub fn of_container(address: &'a Bytes, clients: Option<u64>) -> GearOrder<'a>
        ensures wanted { wants_of result ≡ container_wants address.now clients }
        ensures none { (result.journal ≡ None) × (result.cfg ≡ None) }
    {
        GearOrder {
            address,
            clients,
            journal: None,
            log: None,
            cfg: None,
            limits: ClientLimits {
                head: 0,
                keep: 0,
                rate: 0,
                waiting: 0,
            },
            control: None,
            grace: 0,
        }
    }
}
