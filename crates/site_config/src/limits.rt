//! How long a member's links are waited for.
ghost use Rattle.std.specs.Prelude.{◌≡◌, true, false, None};
ghost use Rattle.site_config.specs.Bounds.{is_at_most, lesser, or_default};

/// The limit of a dial and of a CPong where no directive gives another.
const DEFAULT_MILLIS: u64 = 10_000;

/// What a member's directives say of its time limits, each where it is set, in the directive's own unit.
#[derive(Clone, Copy, PartialEq, Eq)]
pub struct MemberLimits {
    /// Milliseconds for a dial, over all addresses of the host; 0 is none.
    pub socket_connect_timeout: Option<u64>,
    /// Milliseconds for the CPong after a dial; 0 is what `ping_timeout` says.
    pub connect_timeout: Option<u64>,
    /// Milliseconds for the CPong before a request; 0 is what `ping_timeout` says.
    pub prepost_timeout: Option<u64>,
    /// Milliseconds for a CPong; 0 is 10,000.
    pub ping_timeout: Option<u64>,
    /// Seconds for each wait on a link; 0 is none.
    pub socket_timeout: Option<u64>,
    /// Milliseconds for each wait for the container's next message; 0 is none.
    pub reply_timeout: Option<u64>,
    pub socket_keepalive: Option<bool>,
    /// Seconds after which an idle link is closed; 0 is none.
    pub connection_pool_timeout: Option<u64>,
    /// Seconds between two pings of an idle link; 0 is none.
    pub connection_ping_interval: Option<u64>,
    pub ghost dial_below: { is_at_most 86400000 socket_connect_timeout ≡ true },
    pub ghost first_pong_below: { is_at_most 86400000 connect_timeout ≡ true },
    pub ghost each_pong_below: { is_at_most 86400000 prepost_timeout ≡ true },
    pub ghost ping_below: { is_at_most 86400000 ping_timeout ≡ true },
    pub ghost wait_below: { is_at_most 86400 socket_timeout ≡ true },
    pub ghost reply_below: { is_at_most 86400000 reply_timeout ≡ true },
    pub ghost pool_below: { is_at_most 86400 connection_pool_timeout ≡ true },
    pub ghost interval_below: { is_at_most 86400 connection_ping_interval ≡ true },
}

/// The lesser of two limits, of which 0 is none.
fn lesser(one: u64, other: u64) -> u64
    ensures { result ≡ lesser one other }
{
    if one == 0 {
        other
    } else if other == 0 {
        one
    } else {
        one.min(other)
    }
}

/// A limit that is set and isn't 0, else the default.
fn or_default(limit: Option<u64>, default: u64) -> u64
    ensures { result ≡ or_default limit default }
{
    match limit {
        Some(0) | None => default,
        Some(millis) => millis,
    }
}

impl MemberLimits {
    ghost use Rattle.site_config.specs.Limits.{dial_limit, each_pong_limit, first_pong_limit, keeps_alive, reply_limit, wait_limit};

    /// No directive sets a limit.
    pub fn none() -> MemberLimits
        ensures dial { result.socket_connect_timeout ≡ None }
        ensures first_pong { result.connect_timeout ≡ None }
        ensures each_pong { result.prepost_timeout ≡ None }
        ensures ping { result.ping_timeout ≡ None }
        ensures wait { result.socket_timeout ≡ None }
        ensures reply { result.reply_timeout ≡ None }
        ensures keepalive { result.socket_keepalive ≡ None }
        ensures pool { result.connection_pool_timeout ≡ None }
        ensures interval { result.connection_ping_interval ≡ None }
    {
        MemberLimits {
            socket_connect_timeout: None,
            connect_timeout: None,
            prepost_timeout: None,
            ping_timeout: None,
            socket_timeout: None,
            reply_timeout: None,
            socket_keepalive: None,
            connection_pool_timeout: None,
            connection_ping_interval: None,
        }
    }

    /// Milliseconds for a dial; 0 is without limit.
    pub fn dial(&self) -> u64
        ensures { result ≡ dial_limit self.now }
    {
        self.socket_connect_timeout.unwrap_or(DEFAULT_MILLIS)
    }

    /// Milliseconds for each wait on a link; 0 is without limit.
    pub fn each_wait(&self) -> u64
        ensures { result ≡ wait_limit self.now }
    {
        match self.socket_timeout {
            Some(seconds) => seconds * 1000,
            None => 0,
        }
    }

    /// Milliseconds for a CPong that is asked for with no more said.
    fn pong(&self) -> u64
        ensures { result ≡ or_default self.now.ping_timeout 10000 }
    {
        or_default(self.ping_timeout, DEFAULT_MILLIS)
    }

    /// Milliseconds for the CPong of a link that was just dialled.
    pub fn first_pong(&self) -> u64
        ensures { result ≡ first_pong_limit self.now }
    {
        lesser(
            or_default(self.connect_timeout, self.pong()),
            self.each_wait(),
        )
    }

    /// Milliseconds for the CPong before a request.
    pub fn each_pong(&self) -> u64
        ensures { result ≡ each_pong_limit self.now }
    {
        lesser(
            or_default(self.prepost_timeout, self.pong()),
            self.each_wait(),
        )
    }

    /// Milliseconds for each wait for the container's next message; 0 is without limit. What a mount says goes first.
    pub fn reply(&self, mounted: Option<u64>) -> u64
        ensures { result ≡ reply_limit mounted self.now }
    {
        let limit = mounted.or(self.reply_timeout).unwrap_or(0);
        lesser(limit, self.each_wait())
    }

    /// Whether the system is to see that a link's other end is still there.
    pub fn keeps_alive(&self) -> bool
        ensures { result ≡ keeps_alive self.now }
    {
        self.socket_keepalive.unwrap_or(false)
    }
}
