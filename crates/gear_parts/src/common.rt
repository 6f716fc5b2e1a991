//! The values that all workers of a run share: the Site, the pools, the configuration, the watch, the logs' format.
ghost use Rattle.std.specs.Prelude.{◌≡◌, ◌<◌};
ghost use Rattle.std.specs.Option.{ForSome};
ghost use Rattle.conn_pool.specs.Idle.{counts};
ghost use Rattle.conn_pool.specs.Looks.{ends_of};

use conn_pool::{Idle, Pools, Watch};
use jk_io::Dial;
use lb_shared::{SharedSite, SiteName};
use request_log::Format;
use site_config::Config;

/// What all workers ask: the balancers, the pools of idle links and how these are looked after, and the format of their logs.
#[derive(Drop)]
pub struct Common<'s, 'r, L: SiteName, G: Dial, R> {
    pub site: &'s SharedSite<'r, L, R>,
    pub pools: &'s Pools<'r, Idle<G::L>, R>,
    pub cfg: &'s Config,
    /// When each worker looks at the idle links, if it does.
    pub watch: Option<Watch>,
    pub format: &'s Format,
    pub ghost every: { ForSome watch (λ w. 0 < w.every) },
    pub ghost ends: { counts pools.now ≡ ends_of cfg.now.lbs },
}
