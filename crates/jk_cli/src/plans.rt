//! The plans of the words after each command's name.
ghost use Rattle.std.specs.Prelude.{◌≡◌, option_map};
ghost use Rattle.std.specs.List.{list_all};
ghost use Rattle.std.specs.Str.{is_utf8};
ghost use Rattle.jk_cli.specs.Parts.{parts_of, places_in};
ghost use Rattle.jk_cli.specs.Orders.{
  play_of,
  dry_of,
  config_of,
  match_of,
  stop_of,
  demo_of,
  check_of,
  log_of,
  follow_of,
  mode_named,
  mode_of,
  drill_of,
  serve_by,
  serve_of,
  container_of,
  order_by,
  order_from,
  order_of,
};
ghost use Rattle.jk_cli.specs.Plans.{order_in};

use crate::name::{CommandName, all_may_stand, name_of};
use crate::part::is;
use crate::places::{Places, flag_in};
use crate::plan::{ContainerPlan, LogPlan, Plan, ServePlan};
use crate::ranges::RouteWord;
use crate::values::{clients_of, front_options, requests_of, serve_options, threads_of};
use jk_io::{Bytes, parse_decimal};
use std::str;

fn play_of<'a>(places: &mut Places<'a>) -> Option<Plan<'a>>
    ensures { option_map order_in result ≡ play_of places.old }
{
    places.end()?;
    Some(Plan::Play)
}

fn dry_of<'a>(places: &mut Places<'a>) -> Option<Plan<'a>>
    ensures { option_map order_in result ≡ dry_of places.old }
{
    let request = places.next()?;
    let reply = places.next()?;
    let Some(workers) = places.next() else {
        return Some(Plan::Dry {
            request,
            reply,
            site: None,
        });
    };
    let map = places.next()?;
    places.end()?;
    Some(Plan::Dry {
        request,
        reply,
        site: Some((workers, map)),
    })
}

fn config_of<'a>(places: &mut Places<'a>) -> Option<Plan<'a>>
    ensures { option_map order_in result ≡ config_of places.old }
{
    let workers = places.next()?;
    let map = places.next();
    if map.is_some() {
        places.end()?;
    }
    Some(Plan::Config { workers, map })
}

fn match_of<'a>(words: &[Bytes], places: &mut Places<'a>) -> Option<Plan<'a>>
    ensures { option_map order_in result ≡ match_of (parts_of words.now) places.old }
{
    let workers = places.next()?;
    let map = places.next()?;
    places.end()?;
    let verbose = flag_in(words)?;
    Some(Plan::Match {
        workers,
        map,
        verbose,
    })
}

fn check_of<'a>(places: &mut Places<'a>) -> Option<Plan<'a>>
    ensures { option_map order_in result ≡ check_of places.old }
{
    places.end()?;
    Some(Plan::Check)
}

fn log_of<'a>(places: &mut Places<'a>) -> Option<Plan<'a>>
    ensures { option_map order_in result ≡ log_of places.old }
{
    let format = places.next()?;
    let request = places.next()?;
    let reply = places.next()?;
    let workers = places.next()?;
    let map = places.next()?;
    places.end()?;
    Some(Plan::Log(LogPlan {
        format,
        request,
        reply,
        workers,
        map,
    }))
}

fn follow_of<'a>(places: &mut Places<'a>) -> Option<Plan<'a>>
    ensures { option_map order_in result ≡ follow_of places.old }
{
    places.end()?;
    Some(Plan::Follow)
}

fn mode_named(word: &[u8]) -> Option<(bool, bool)>
    ensures { result ≡ mode_named word.now }
{
    if is(word, b"journal") {
        Some((true, false))
    } else if is(word, b"passes") {
        Some((false, true))
    } else {
        None
    }
}

fn mode_of(places: &mut Places) -> Option<(bool, bool)>
    ensures { result ≡ mode_of places.old }
{
    let Some(word) = places.next() else {
        return Some((false, false));
    };
    places.end()?;
    mode_named(word)
}

fn drill_of<'a>(places: &mut Places<'a>) -> Option<Plan<'a>>
    ensures { option_map order_in result ≡ drill_of places.old }
{
    let seed = places.next()?;
    let threads = places.next()?;
    let requests = places.next()?;
    let (text, passes) = mode_of(places)?;
    Some(Plan::Drill {
        seed: parse_decimal(seed)?,
        threads: threads_of(threads)?,
        requests: requests_of(requests)?,
        text,
        passes,
    })
}

fn serve_by<'a>(
    words: &'a [Bytes],
    workers: &'a [u8],
    map: &'a [u8],
    address: &'a [u8],
    threads: &[u8],
) -> Option<Plan<'a>>
    ensures { option_map order_in result ≡ serve_by (parts_of words.now) workers.entry.now map.entry.now address.entry.now threads.now }
{
    let threads = threads_of(threads)?;
    let given = serve_options(words)?;
    let front = front_options(words)?;
    Some(Plan::Serve(ServePlan {
        workers,
        map,
        address,
        threads,
        given,
        front,
    }))
}

fn serve_of<'a>(words: &'a [Bytes], places: &mut Places<'a>) -> Option<Plan<'a>>
    ensures { option_map order_in result ≡ serve_of (parts_of words.now) places.old }
{
    let workers = places.next()?;
    let map = places.next()?;
    let address = places.next()?;
    let threads = places.next()?;
    places.end()?;
    serve_by(words, workers, map, address, threads)
}

fn container_of<'a>(words: &'a [Bytes], places: &mut Places<'a>) -> Option<Plan<'a>>
    ensures { option_map order_in result ≡ container_of (parts_of words.now) places.old }
{
    let route = places.next()?;
    let address = places.next()?;
    let threads = places.next()?;
    places.end()?;
    let threads = threads_of(threads)?;
    let clients = clients_of(words)?;
    Some(Plan::Container(ContainerPlan {
        route: RouteWord::of(route)?,
        address,
        threads,
        clients,
    }))
}

fn stop_of<'a>(places: &mut Places<'a>) -> Option<Plan<'a>>
    ensures { option_map order_in result ≡ stop_of places.old }
{
    let path = places.next()?;
    places.end()?;
    Some(Plan::Stop { path })
}

fn demo_of<'a>(places: &mut Places<'a>) -> Option<Plan<'a>>
    ensures { option_map order_in result ≡ demo_of places.old }
{
    let Some(address) = places.next() else {
        return Some(Plan::Demo {
            address: b"127.0.0.1:8080",
        });
    };
    places.end()?;
    Some(Plan::Demo { address })
}

fn plan_by<'a>(
    command: CommandName,
    words: &'a [Bytes],
    places: &mut Places<'a>,
) -> Option<Plan<'a>>
    ensures { option_map order_in result ≡ order_by command (parts_of words.now) places.old }
{
    match command {
        CommandName::Play => play_of(places),
        CommandName::Dry => dry_of(places),
        CommandName::Config => config_of(places),
        CommandName::Match => match_of(words, places),
        CommandName::Check => check_of(places),
        CommandName::Log => log_of(places),
        CommandName::Follow => follow_of(places),
        CommandName::Drill => drill_of(places),
        CommandName::Serve => serve_of(words, places),
        CommandName::Container => container_of(words, places),
        CommandName::Stop => stop_of(places),
        CommandName::Demo => demo_of(places),
    }
}

fn plan_from<'a>(command: CommandName, words: &'a [Bytes]) -> Option<Plan<'a>>
    ensures { option_map order_in result ≡ order_from command (parts_of words.now) }
{
    if !all_may_stand(command, words) {
        return None;
    }
    plan_by(command, words, &mut Places::of(words))
}

fn is_text(word: &Bytes) -> bool
    ensures { result ≡ is_utf8 word.now }
{
    match str::from_utf8(word.as_slice()) {
        Ok(_) => true,
        Err(_) => false,
    }
}

fn are_texts(words: &[Bytes]) -> bool
    ensures { result ≡ list_all is_utf8 words.now }
{
    words.iter().all(|word| is_text(word))
}

/// What the words ask for. It takes no memory.
pub(crate) fn plan_of(words: &[Bytes]) -> Option<Plan<'_>>
    ensures { option_map order_in result ≡ order_of words.now }
{
    let (first, behind) = words.split_first()?;
    if !are_texts(words) {
        return None;
    }
    plan_from(name_of(first.as_slice())?, behind)
}
