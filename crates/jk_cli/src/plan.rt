//! An order as it is read off the words, before any of them is copied.
ghost use Rattle.std.specs.Prelude.{◌≡◌, IfOk, option_map};
ghost use Rattle.std.specs.Option.{option_copied};
ghost use Rattle.jk_cli.specs.Names.{command_in};
ghost use Rattle.jk_cli.specs.declared.order.Order.TheVariants as orders;
ghost use Rattle.jk_cli.specs.Plans.{log_order, serve_order, container_order, order_in};

use crate::name::CommandName;
use crate::order::{Order, ServeOrder};
use crate::ranges::{DrillRequests, RouteWord, ThreadCount};
use jk_io::{Bytes, ClientLimits, NoMemory};
use std::alloc::Global;

/// The options of `serve`.
#[derive(Clone, Copy)]
pub(crate) struct Options<'a> {
    pub clients: Option<u64>,
    pub journal: Option<&'a [u8]>,
    pub watch: Option<u64>,
    pub idle: Option<u32>,
    pub log: Option<&'a [u8]>,
    pub format: Option<&'a [u8]>,
}

/// What else `serve` is told.
#[derive(Clone, Copy)]
pub(crate) struct Front<'a> {
    pub cut: Option<u64>,
    pub limits: ClientLimits,
    pub control: Option<&'a [u8]>,
    pub grace: u64,
}

/// An order `log`.
#[derive(Clone, Copy)]
pub(crate) struct LogPlan<'a> {
    pub format: &'a [u8],
    pub request: &'a [u8],
    pub reply: &'a [u8],
    pub workers: &'a [u8],
    pub map: &'a [u8],
}

/// An order `serve`.
#[derive(Clone, Copy)]
pub(crate) struct ServePlan<'a> {
    pub workers: &'a [u8],
    pub map: &'a [u8],
    pub address: &'a [u8],
    pub threads: ThreadCount,
    pub given: Options<'a>,
    pub front: Front<'a>,
}

/// An order `container`.
#[derive(Drop)]
pub(crate) struct ContainerPlan<'a> {
    pub route: RouteWord<'a>,
    pub address: &'a [u8],
    pub threads: ThreadCount,
    pub clients: Option<u64>,
}

/// An order whose texts still stand in the words.
#[derive(Drop)]
pub(crate) enum Plan<'a> {
    Play,
    Dry {
        request: &'a [u8],
        reply: &'a [u8],
        site: Option<(&'a [u8], &'a [u8])>,
    },
    Config {
        workers: &'a [u8],
        map: Option<&'a [u8]>,
    },
    Match {
        workers: &'a [u8],
        map: &'a [u8],
        verbose: bool,
    },
    Check,
    Log(LogPlan<'a>),
    Follow,
    Drill {
        seed: u64,
        threads: ThreadCount,
        requests: DrillRequests,
        text: bool,
        passes: bool,
    },
    Serve(ServePlan<'a>),
    Container(ContainerPlan<'a>),
    Stop {
        path: &'a [u8],
    },
    Demo {
        address: &'a [u8],
    },
}

fn own(alloc: Global, text: Option<&[u8]>) -> Result<Option<Bytes>, NoMemory>
    ensures { IfOk result (λ owned. owned ≡ option_copied text.entry) }
{
    match text {
        None => Ok(None),
        Some(bytes) => Ok(Some(Bytes::from_slice(alloc, bytes)?)),
    }
}

fn own_pair(alloc: Global, first: &[u8], second: &[u8]) -> Result<(Bytes, Bytes), NoMemory>
    ensures { IfOk result (λ owned. (owned.0 ≡ first.now) × (owned.1 ≡ second.now)) }
{
    let first = Bytes::from_slice(alloc, first)?;
    Ok((first, Bytes::from_slice(alloc, second)?))
}

fn own_both(
    alloc: Global,
    texts: Option<(&[u8], &[u8])>,
) -> Result<Option<(Bytes, Bytes)>, NoMemory>
    ensures { IfOk result (λ owned. owned ≡ option_map (λ s. (s.0.now, s.1.now)) texts.entry) }
{
    match texts {
        None => Ok(None),
        Some((first, second)) => Ok(Some(own_pair(alloc, first, second)?)),
    }
}

fn dry_order(
    alloc: Global,
    request: &[u8],
    reply: &[u8],
    site: Option<(&[u8], &[u8])>,
) -> Result<Order, NoMemory>
    ensures { IfOk result (λ order. order ≡ orders.Dry request.now reply.now (option_map (λ s. (s.0.now, s.1.now)) site.entry)) }
{
    let site = own_both(alloc, site)?;
    let (request, reply) = own_pair(alloc, request, reply)?;
    Ok(Order::Dry {
        request,
        reply,
        site,
    })
}

fn config_order(alloc: Global, workers: &[u8], map: Option<&[u8]>) -> Result<Order, NoMemory>
    ensures { IfOk result (λ order. order ≡ orders.Config workers.now (option_copied map.entry)) }
{
    let map = own(alloc, map)?;
    Ok(Order::Config {
        workers: Bytes::from_slice(alloc, workers)?,
        map,
    })
}

fn match_order(alloc: Global, workers: &[u8], map: &[u8], verbose: bool) -> Result<Order, NoMemory>
    ensures { IfOk result (λ order. order ≡ orders.Match workers.now map.now verbose) }
{
    let (workers, map) = own_pair(alloc, workers, map)?;
    Ok(Order::Match {
        workers,
        map,
        verbose,
    })
}

impl LogPlan<'_> {
    fn order(self, alloc: Global) -> Result<Order, NoMemory>
        ensures { IfOk result (λ order. order ≡ log_order self.entry) }
    {
        let (request, reply) = own_pair(alloc, self.request, self.reply)?;
        let (workers, map) = own_pair(alloc, self.workers, self.map)?;
        Ok(Order::Log {
            format: Bytes::from_slice(alloc, self.format)?,
            request,
            reply,
            workers,
            map,
        })
    }
}

/// The texts of an order `serve` that may be missing.
#[derive(Drop)]
struct GivenTexts {
    journal: Option<Bytes>,
    log: Option<Bytes>,
    format: Option<Bytes>,
}

fn own_given(alloc: Global, given: Options<'_>) -> Result<GivenTexts, NoMemory>
    ensures journal { IfOk result (λ texts. texts.journal ≡ option_copied given.entry.journal) }
    ensures log { IfOk result (λ texts. texts.log ≡ option_copied given.entry.log) }
    ensures format { IfOk result (λ texts. texts.format ≡ option_copied given.entry.format) }
{
    let journal = own(alloc, given.journal)?;
    let log = own(alloc, given.log)?;
    Ok(GivenTexts {
        journal,
        log,
        format: own(alloc, given.format)?,
    })
}

impl ServePlan<'_> {
    fn order(self, alloc: Global) -> Result<Order, NoMemory>
        ensures { IfOk result (λ order. order ≡ serve_order self.entry) }
    {
        let given = self.given;
        let front = self.front;
        let texts = own_given(alloc, given)?;
        let control = own(alloc, front.control)?;
        let (workers, map) = own_pair(alloc, self.workers, self.map)?;
        Ok(Order::Serve(ServeOrder {
            workers,
            map,
            address: Bytes::from_slice(alloc, self.address)?,
            threads: self.threads,
            clients: given.clients,
            journal: texts.journal,
            watch: given.watch,
            idle: given.idle,
            log: texts.log,
            format: texts.format,
            cut: front.cut,
            limits: front.limits,
            control,
            grace: front.grace,
        }))
    }
}

impl ContainerPlan<'_> {
    fn order(self, alloc: Global) -> Result<Order, NoMemory>
        ensures { IfOk result (λ order. order ≡ container_order self.entry) }
    {
        Ok(Order::Container {
            route: self.route.route(alloc)?,
            address: Bytes::from_slice(alloc, self.address)?,
            threads: self.threads,
            clients: self.clients,
        })
    }
}

impl Plan<'_> {
    /// The command that is asked for.
    pub fn command(&self) -> CommandName
        ensures { result ≡ command_in (order_in self.now) }
    {
        match self {
            Plan::Play => CommandName::Play,
            Plan::Dry { .. } => CommandName::Dry,
            Plan::Config { .. } => CommandName::Config,
            Plan::Match { .. } => CommandName::Match,
            Plan::Check => CommandName::Check,
            Plan::Log(_) => CommandName::Log,
            Plan::Follow => CommandName::Follow,
            Plan::Drill { .. } => CommandName::Drill,
            Plan::Serve(_) => CommandName::Serve,
            Plan::Container(_) => CommandName::Container,
            Plan::Stop { .. } => CommandName::Stop,
            Plan::Demo { .. } => CommandName::Demo,
        }
    }

    /// The order, which owns its texts.
    pub fn order(self, alloc: Global) -> Result<Order, NoMemory>
        ensures { IfOk result (λ order. order ≡ order_in self.entry) }
    {
        match self {
            Plan::Play => Ok(Order::Play),
            Plan::Dry {
                request,
                reply,
                site,
            } => dry_order(alloc, request, reply, site),
            Plan::Config { workers, map } => config_order(alloc, workers, map),
            Plan::Match {
                workers,
                map,
                verbose,
            } => match_order(alloc, workers, map, verbose),
            Plan::Check => Ok(Order::Check),
            Plan::Log(plan) => plan.order(alloc),
            Plan::Follow => Ok(Order::Follow),
            Plan::Drill {
                seed,
                threads,
                requests,
                text,
                passes,
            } => Ok(Order::Drill {
                seed,
                threads,
                requests,
                text,
                passes,
            }),
            Plan::Serve(plan) => plan.order(alloc),
            Plan::Container(plan) => plan.order(alloc),
            Plan::Stop { path } => Ok(Order::Stop {
                path: Bytes::from_slice(alloc, path)?,
            }),
            Plan::Demo { address } => Ok(Order::Demo {
                address: Bytes::from_slice(alloc, address)?,
            }),
        }
    }
}
