//! Orders: the commands with their words read.
use crate::ranges::{ContainerRoute, DrillRequests, ThreadCount};
use jk_io::{Bytes, ClientLimits, NoMemory};
use thiserror::Error;

/// What `serve` is asked for.
#[derive(Drop)]
pub struct ServeOrder {
    pub workers: Bytes,
    pub map: Bytes,
    pub address: Bytes,
    pub threads: ThreadCount,
    /// Each worker thread ends after this many clients.
    pub clients: Option<u64>,
    /// The directory of the journals.
    pub journal: Option<Bytes>,
    /// Seconds from one look through the idle links to the next, 1 to 86,400.
    pub watch: Option<u64>,
    /// Looks after which an idle link is closed, 1 to 1,000,000; given only with `watch`.
    pub idle: Option<u32>,
    /// The directory of the request logs.
    pub log: Option<Bytes>,
    /// The format of their lines; given only with `log`.
    pub format: Option<Bytes>,
    /// The most entries of a balancer that a kill may lose, 1 to 65,536; fewer than 4 as 4.
    pub cut: Option<u64>,
    /// What its clients may take.
    pub limits: ClientLimits,
    /// The path of the socket by which it is told to end.
    pub control: Option<Bytes>,
    /// The most seconds for the requests under way once it is told to end.
    pub grace: u64,
}

/// What a command line asks for. Names of files are bytes as they were written.
#[derive(Drop)]
pub enum Order {
    /// `play`: plays a script of a balancer.
    Play,
    /// `dry REQUEST REPLY`, or `dry REQUEST REPLY WORKERS MAP`: one session over memory.
    Dry {
        request: Bytes,
        reply: Bytes,
        /// The files WORKERS and MAP.
        site: Option<(Bytes, Bytes)>,
    },
    /// `config WORKERS`, or `config WORKERS MAP`: shows what was understood of a site.
    Config {
        workers: Bytes,
        map: Option<Bytes>,
    },
    /// `match WORKERS MAP`: the worker of each path of the input.
    Match {
        workers: Bytes,
        map: Bytes,
        /// Whether the rule that gives it is said too: `-v`.
        verbose: bool,
    },
    /// `check`: judges the text of a journal.
    Check,
    /// `log FORMAT REQUEST REPLY WORKERS MAP`: the request log of one session.
    Log {
        format: Bytes,
        request: Bytes,
        reply: Bytes,
        workers: Bytes,
        map: Bytes,
    },
    /// `follow`: the status page of a journal.
    Follow,
    /// `drill SEED THREADS REQUESTS`, or these and `journal` or `passes`.
    Drill {
        seed: u64,
        threads: ThreadCount,
        requests: DrillRequests,
        /// Whether the journal's text is printed, and not the summary.
        text: bool,
        /// Whether the threads share a book of passes.
        passes: bool,
    },
    /// `serve WORKERS MAP ADDRESS THREADS`.
    Serve(ServeOrder),
    /// `container ROUTE ADDRESS THREADS`.
    Container {
        route: ContainerRoute,
        address: Bytes,
        threads: ThreadCount,
        /// Each worker thread ends after this many clients.
        clients: Option<u64>,
    },
    /// `stop PATH`: tells the front whose control socket this is to end.
    Stop {
        path: Bytes,
    },
    /// `demo`, or `demo ADDRESS`: a front and two containers to try.
    Demo {
        address: Bytes,
    },
}

/// Why words give no order.
#[derive(Clone, Copy, Debug, Error)]
pub enum WordsError {
    /// They are no command with its words and options.
    #[error("no command")]
    Bad,
    #[error("out of memory")]
    NoMemory,
}

impl From<NoMemory> for WordsError {
    ghost use Rattle.std.specs.Prelude.{◌≡◌};
    ghost use Rattle.jk_cli.specs.declared.order.WordsError.TheVariants as Refused;

    ghost from_gives = { λ _ e. e ≡ Refused.NoMemory };

    fn from(_e: NoMemory) -> WordsError {
        WordsError::NoMemory
    }
}
