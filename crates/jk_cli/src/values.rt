//! The values of words and options: numbers of a range, and the options of `serve`.
ghost use Rattle.std.specs.Prelude.{◌≡◌, ◌≤◌, IfSome, option_map, codes};
ghost use Rattle.std.specs.Option.{option_copied};
ghost use Rattle.jk_cli.specs.Parts.{parts_of};
ghost use Rattle.jk_cli.specs.Orders.{are_together, clients_of, front_options, limits_given, number_given, number_in, number_option, number_or, options_given, requests_of, serve_options, threads_of};
ghost use Rattle.jk_cli.specs.Plans.{front_in, options_in};

use crate::places::option_in;
use crate::plan::{Front, Options};
use crate::ranges::{DrillRequests, MOST_REQUESTS, MOST_THREADS, ThreadCount};
use jk_io::{Bytes, ClientLimits, parse_decimal};

/// The most seconds from one look through the idle links to the next: a day.
pub const MOST_WATCH_SECONDS: u64 = 86_400;

/// The most seconds of a client's limit, and of an end: a day.
pub const MOST_SECONDS: u64 = 86_400;

/// The most bytes a second that clients can be asked for.
pub const MOST_RATE: u64 = 1_000_000_000;

/// The most clients that a front can be told to let wait.
pub const MOST_WAITING: u64 = 1_000_000;

/// The most entries of a journal that aren't kept yet.
pub const MOST_ENTRIES: u64 = 65_536;

/// The most looks before an idle link is closed.
pub const MOST_IDLE_ROUNDS: u64 = 1_000_000;

/// A decimal number of a range.
pub(crate) fn number_in(least: u64, most: u64, text: &[u8]) -> Option<u64>
    ensures value { result ≡ number_in least most text.now }
    ensures range { IfSome result (λ n. (least ≤ n) × (n ≤ most)) }
{
    let number = parse_decimal(text)?;
    if least <= number && number <= most {
        Some(number)
    } else {
        None
    }
}

fn number_given(least: u64, most: u64, text: Option<&[u8]>) -> Option<Option<u64>>
    ensures value { result ≡ number_given least most (option_copied text.entry) }
    ensures small { IfSome result (λ given. IfSome given (λ n. n ≤ most)) }
{
    match text {
        None => Some(None),
        Some(text) => Some(Some(number_in(least, most, text)?)),
    }
}

fn number_option(words: &[Bytes], name: &[u8], least: u64, most: u64) -> Option<Option<u64>>
    ensures value { result ≡ number_option name.now least most (parts_of words.now) }
    ensures small { IfSome result (λ given. IfSome given (λ n. n ≤ most)) }
{
    number_given(least, most, option_in(words, name)?)
}

/// A number of threads.
pub(crate) fn threads_of(text: &[u8]) -> Option<ThreadCount>
    ensures { result ≡ threads_of text.now }
{
    let threads = number_in(1, u64::from(MOST_THREADS), text)?;
    Some(ThreadCount::new(threads as u32))
}

/// A number of requests of a drill.
pub(crate) fn requests_of(text: &[u8]) -> Option<DrillRequests>
    ensures { result ≡ requests_of text.now }
{
    let requests = number_in(1, u64::from(MOST_REQUESTS), text)?;
    Some(DrillRequests::new(requests as u32))
}

/// The option `--clients`.
pub(crate) fn clients_of(words: &[Bytes]) -> Option<Option<u64>>
    ensures { result ≡ clients_of (parts_of words.now) }
{
    number_option(words, b"clients", 0, u64::MAX)
}

fn idle_of(words: &[Bytes]) -> Option<Option<u32>>
    ensures { result ≡ number_option (codes "idle") 1 1000000 (parts_of words.now) }
{
    match number_option(words, b"idle", 1, MOST_IDLE_ROUNDS)? {
        None => Some(None),
        Some(rounds) => Some(Some(rounds as u32)),
    }
}

fn options_given<'a>(words: &'a [Bytes]) -> Option<Options<'a>>
    ensures { option_map options_in result ≡ options_given (parts_of words.now) }
{
    let clients = clients_of(words)?;
    let journal = option_in(words, b"journal")?;
    let watch = number_option(words, b"watch", 1, MOST_WATCH_SECONDS)?;
    let idle = idle_of(words)?;
    let log = option_in(words, b"log")?;
    let format = option_in(words, b"format")?;
    Some(Options {
        clients,
        journal,
        watch,
        idle,
        log,
        format,
    })
}

fn are_together(given: &Options) -> bool
    ensures { result ≡ are_together (options_in given.now) }
{
    (given.idle.is_none() || given.watch.is_some())
        && (given.format.is_none() || given.log.is_some())
}

/// The options of `serve`.
pub(crate) fn serve_options<'a>(words: &'a [Bytes]) -> Option<Options<'a>>
    ensures { option_map options_in result ≡ serve_options (parts_of words.now) }
{
    let given = options_given(words)?;
    if are_together(&given) {
        Some(given)
    } else {
        None
    }
}

/// An option whose value is a number of a range, or what it is where it doesn't stand.
fn number_or(words: &[Bytes], name: &[u8], least: u64, most: u64, default: u64) -> Option<u64>
    ensures { result ≡ number_or name.now least most default (parts_of words.now) }
{
    let given = number_option(words, name, least, most)?;
    Some(given.unwrap_or(default))
}

/// What a front lets its clients take.
fn limits_given(words: &[Bytes]) -> Option<ClientLimits>
    ensures { result ≡ limits_given (parts_of words.now) }
{
    let head = number_or(words, b"head", 0, MOST_SECONDS, 20)?;
    let keep = number_or(words, b"keep", 0, MOST_SECONDS, 60)?;
    let rate = number_or(words, b"rate", 0, MOST_RATE, 500)?;
    let waiting = number_or(words, b"waiting", 0, MOST_WAITING, 10_000)?;
    Some(ClientLimits {
        head,
        keep,
        rate,
        waiting,
    })
}

/// What else `serve` is told.
pub(crate) fn front_options<'a>(words: &'a [Bytes]) -> Option<Front<'a>>
    ensures { option_map front_in result ≡ front_options (parts_of words.now) }
{
    let cut = number_option(words, b"cut", 1, MOST_ENTRIES)?;
    let limits = limits_given(words)?;
    let control = option_in(words, b"control")?;
    let grace = number_or(words, b"grace", 0, MOST_SECONDS, 30)?;
    Some(Front {
        cut,
        limits,
        control,
        grace,
    })
}
