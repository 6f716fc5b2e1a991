//! The directives of a worker that are built, and the keys that give them.
ghost use Rattle.std.specs.Prelude.{◌≡◌, ◌≢◌, ◌<◌, IfSome, IfNone};
ghost use Rattle.std.specs.Option.{option_map};
ghost use Rattle.std.specs.Str.{bytes_eq};
ghost use Rattle.site_config.specs.Directives.{name_of, slot_of, directive_among, directive_of, behind_worker, worker_part, list_key, maintain_key};

use crate::cut::cut_at;

/// How many directives there are.
pub const DIRECTIVE_COUNT: usize = 36;

/// A directive of a worker.
#[derive(Clone, Copy, PartialEq, Eq)]
pub enum Directive {
    Kind,
    Reference,
    Host,
    Port,
    Factor,
    Distance,
    Route,
    Redirect,
    Activation,
    PoolSize,
    Retries,
    PacketSize,
    Secret,
    PingMode,
    RecoveryOptions,
    FailOnStatus,
    BalanceWorkers,
    Method,
    Sticky,
    Force,
    RecoverTime,
    Cookie,
    Path,
    ReadOnly,
    DialTimeout,
    ConnectTimeout,
    PrepostTimeout,
    PingTimeout,
    SocketTimeout,
    ReplyTimeout,
    Keepalive,
    PoolTimeout,
    PingInterval,
    User,
    Good,
    Bad,
}

pub const DIRECTIVES: [Directive; DIRECTIVE_COUNT] = [
    Directive::Kind,
    Directive::Reference,
    Directive::Host,
    Directive::Port,
    Directive::Factor,
    Directive::Distance,
    Directive::Route,
    Directive::Redirect,
    Directive::Activation,
    Directive::PoolSize,
    Directive::Retries,
    Directive::PacketSize,
    Directive::Secret,
    Directive::PingMode,
    Directive::RecoveryOptions,
    Directive::FailOnStatus,
    Directive::BalanceWorkers,
    Directive::Method,
    Directive::Sticky,
    Directive::Force,
    Directive::RecoverTime,
    Directive::Cookie,
    Directive::Path,
    Directive::ReadOnly,
    Directive::DialTimeout,
    Directive::ConnectTimeout,
    Directive::PrepostTimeout,
    Directive::PingTimeout,
    Directive::SocketTimeout,
    Directive::ReplyTimeout,
    Directive::Keepalive,
    Directive::PoolTimeout,
    Directive::PingInterval,
    Directive::User,
    Directive::Good,
    Directive::Bad,
];

impl Directive {
    /// Its name in the Tomcat Connectors reference.
    #[tactic(auto, unfolding(crate::specs::Directives::name_of))]
    pub fn name(self) -> &'static [u8]
        ensures { result.now ≡ name_of self }
    {
        match self {
            Directive::Kind => b"type",
            Directive::Reference => b"reference",
            Directive::Host => b"host",
            Directive::Port => b"port",
            Directive::Factor => b"lbfactor",
            Directive::Distance => b"distance",
            Directive::Route => b"route",
            Directive::Redirect => b"redirect",
            Directive::Activation => b"activation",
            Directive::PoolSize => b"connection_pool_size",
            Directive::Retries => b"retries",
            Directive::PacketSize => b"max_packet_size",
            Directive::Secret => b"secret",
            Directive::PingMode => b"ping_mode",
            Directive::RecoveryOptions => b"recovery_options",
            Directive::FailOnStatus => b"fail_on_status",
            Directive::BalanceWorkers => b"balance_workers",
            Directive::Method => b"method",
            Directive::Sticky => b"sticky_session",
            Directive::Force => b"sticky_session_force",
            Directive::RecoverTime => b"recover_time",
            Directive::Cookie => b"session_cookie",
            Directive::Path => b"session_path",
            Directive::ReadOnly => b"read_only",
            Directive::DialTimeout => b"socket_connect_timeout",
            Directive::ConnectTimeout => b"connect_timeout",
            Directive::PrepostTimeout => b"prepost_timeout",
            Directive::PingTimeout => b"ping_timeout",
            Directive::SocketTimeout => b"socket_timeout",
            Directive::ReplyTimeout => b"reply_timeout",
            Directive::Keepalive => b"socket_keepalive",
            Directive::PoolTimeout => b"connection_pool_timeout",
            Directive::PingInterval => b"connection_ping_interval",
            Directive::User => b"user",
            Directive::Good => b"good",
            Directive::Bad => b"bad",
        }
    }

    /// Its place in `DIRECTIVES`.
    pub fn slot(self) -> usize
        ensures place { result ≡ slot_of self }
        ensures within { result < DIRECTIVE_COUNT }
    {
        self as usize
    }
}

/// The first of these directives that has this name.
fn directive_among(among: &[Directive], text: &[u8]) -> Option<Directive>
    ensures { result ≡ directive_among among.now text.now }
{
    for d in among {
        if d.name() == text {
            return Some(*d);
        }
    }
    None
}

/// The directive of this name.
pub fn directive_of(text: &[u8]) -> Option<Directive>
    ensures { result ≡ directive_of text.now }
{
    directive_among(&DIRECTIVES, text)
}

/// What follows `worker.` at the start of a text.
#[tactic(auto, unfolding(crate::specs::Directives::worker_prefix))]
pub fn behind_worker(text: &[u8]) -> Option<&[u8]>
    ensures { option_map (λ t. t.now) result ≡ behind_worker text.now }
{
    text.strip_prefix(b"worker.")
}

/// NAME and DIRECTIVE of a key `worker.NAME.DIRECTIVE`.
pub fn worker_part(key: &[u8]) -> Option<(&[u8], &[u8])>
    ensures { option_map (λ parts. (parts.0.now, parts.1.now)) result ≡ worker_part key.now }
{
    match behind_worker(key) {
        Some(text) => cut_at(text, b'.'),
        None => None,
    }
}

#[tactic(auto, unfolding(crate::specs::Directives::list_key))]
pub fn is_list_key(key: &[u8]) -> bool
    ensures { result ≡ bytes_eq key.now list_key }
{
    key == b"worker.list".as_slice()
}

#[tactic(auto, unfolding(crate::specs::Directives::maintain_key))]
pub fn is_maintain_key(key: &[u8]) -> bool
    ensures { result ≡ bytes_eq key.now maintain_key }
{
    key == b"worker.maintain".as_slice()
}
