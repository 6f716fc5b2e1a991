//! The answer of each plain command, from the texts that it read.
ghost use Rattle.std.specs.Prelude.{◌≡◌, ◌≤◌, ◌⊎◌, [], ◌∷◌, length, Some, None, true, IfOk, IsOk, IsErrOf};
ghost use Rattle.jk_cli.specs.declared.order.Order.TheVariants as order;
ghost use Rattle.jk_io.specs.Told.{Rose};
ghost use Rattle.plain_commands.specs.Causes.{IsJustCaused};
ghost use Rattle.plain_commands.specs.Endings.{OfAnswer, PlainOfFiles, PlainOfInput, PrintsOfInput, status_of, told_outside};
ghost use Rattle.plain_commands.specs.Plain.{is_plain, readings, HasFormat, InputIsDue, MatchesRead, Plain, StopsFront};
ghost use Rattle.site_reports.specs.Readings.{has_file, Input};
ghost use Rattle.jk_io.specs.declared.whole_input.TheConstants.{MAX_INPUT_BYTES};

use crate::answered::{PlainAnswer, alone, printed, too_long};
use crate::check::check;
use crate::dry::dry;
use crate::follow::follow;
use crate::log::{LogNames, log};
use crate::play::{Ending, Output, play};
use crate::texts::{read_input, read_pair, read_text};
use jk_cli::Order;
use jk_io::{Bytes, Files, IoError, Source};
use site_reports::{report_config, report_matches, report_site};
use std::alloc::Global;

// `play`
fn play_input<S: Source>(alloc: Global, input: &mut S) -> Result<PlainAnswer, IoError>
    ensures ok { IfOk result (λ o. PlainOfInput (S.incoming input.old) order.Play o) }
    ensures cause { IsJustCaused (S.faults input.old) (S.faults input.new) result }
{
    match read_input(alloc, input)? {
        None => too_long(alloc),
        Some(script) => Ok(alone(play(alloc, script.as_slice())?)),
    }
}

// `check`
fn check_input<S: Source>(alloc: Global, input: &mut S) -> Result<PlainAnswer, IoError>
    ensures ok { IfOk result (λ o. PlainOfInput (S.incoming input.old) order.Check o) }
    ensures cause { IsJustCaused (S.faults input.old) (S.faults input.new) result }
{
    match read_input(alloc, input)? {
        None => too_long(alloc),
        Some(text) => Ok(alone(check(alloc, text.as_slice())?)),
    }
}

// `follow`
fn follow_input<S: Source>(alloc: Global, input: &mut S) -> Result<PlainAnswer, IoError>
    ensures ok { IfOk result (λ o. PlainOfInput (S.incoming input.old) order.Follow o) }
    ensures cause { IsJustCaused (S.faults input.old) (S.faults input.new) result }
{
    match read_input(alloc, input)? {
        None => too_long(alloc),
        Some(text) => Ok(alone(follow(alloc, text.as_slice())?)),
    }
}

// `config WORKERS`
fn config_workers<F: Files>(
    alloc: Global,
    files: &mut F,
    workers: &Bytes,
) -> Result<PlainAnswer, IoError>
    ensures ok { IfOk result (λ o. PlainOfFiles (F.files files.old) (order.Config workers.now None) o) }
    ensures cause { IsJustCaused (F.faults files.old) (F.faults files.new) result }
{
    match read_text(alloc, files, workers)? {
        None => too_long(alloc),
        Some(workers) => printed(report_config(alloc, workers)),
    }
}

// `config WORKERS MAP`
fn config_site<F: Files>(
    alloc: Global,
    files: &mut F,
    workers: &Bytes,
    map: &Bytes,
) -> Result<PlainAnswer, IoError>
    ensures ok { IfOk result (λ o. PlainOfFiles (F.files files.old) (order.Config workers.now (Some map.now)) o) }
    ensures cause { IsJustCaused (F.faults files.old) (F.faults files.new) result }
{
    match read_pair(alloc, files, workers, map)? {
        None => too_long(alloc),
        Some((workers, map)) => printed(report_site(alloc, workers, map)),
    }
}

// `config`
fn config<F: Files>(
    alloc: Global,
    files: &mut F,
    workers: &Bytes,
    map: &Option<Bytes>,
) -> Result<PlainAnswer, IoError>
    ensures ok { IfOk result (λ o. PlainOfFiles (F.files files.old) (order.Config workers.now map.now) o) }
    ensures cause { IsJustCaused (F.faults files.old) (F.faults files.new) result }
{
    match map {
        None => config_workers(alloc, files, workers),
        Some(map) => config_site(alloc, files, workers, map),
    }
}

// The paths of `match`, after both files.
fn match_input<S: Source>(
    alloc: Global,
    input: &mut S,
    workers: Bytes,
    map: Bytes,
    verbose: bool,
) -> Result<PlainAnswer, IoError>
    requires short { (length workers ≤ MAX_INPUT_BYTES) × (length map ≤ MAX_INPUT_BYTES) }
    ensures ok { IfOk result (λ o. PrintsOfInput (S.incoming input.old) (Input ∷ []) (MatchesRead workers map verbose) o) }
    ensures cause { IsJustCaused (S.faults input.old) (S.faults input.new) result }
{
    match read_input(alloc, input)? {
        None => too_long(alloc),
        Some(paths) => printed(report_matches(alloc, workers, map, paths.as_slice(), verbose)),
    }
}

// `match WORKERS MAP`, `match -v WORKERS MAP`
fn match_paths<F: Files, S: Source>(
    alloc: Global,
    files: &mut F,
    input: &mut S,
    workers: &Bytes,
    map: &Bytes,
    verbose: bool,
) -> Result<PlainAnswer, IoError>
    ensures ok { IfOk result (OfAnswer (Plain (told_outside F.Files S.Meanings files.old input.old)
        (order.Match workers.now map.now verbose))) }
    ensures failed { IsErrOf result IoError.Failed → Rose (F.faults files.old) (F.faults files.new) ⊎ Rose (S.faults input.old) (S.faults input.new) }
    ensures wanted { IsErrOf result IoError.NoMemory → (F.faults files.new ≡ F.faults files.old) × (S.faults input.new ≡ S.faults input.old) }
    ensures steady { IsOk result → (F.faults files.new ≡ F.faults files.old) × (S.faults input.new ≡ S.faults input.old) }
    ensures input { (input.new ≡ input.old)
        ⊎ InputIsDue (told_outside F.Files S.Meanings files.old input.old) (order.Match workers.now map.now verbose) }
{
    match read_pair(alloc, files, workers, map)? {
        None => too_long(alloc),
        Some((workers, map)) => match_input(alloc, input, workers, map, verbose),
    }
}

// How a front that was told to end has answered.
fn stopped(alloc: Global, answer: &[u8]) -> Output
    ensures { StopsFront answer.now result.text (status_of result.ending) }
{
    let ending = if answer == b"ended\n".as_slice() {
        Ending::Done
    } else {
        Ending::Running
    };
    Output {
        text: Bytes::new(alloc),
        ending,
    }
}

// `stop PATH`
fn stop_front<F: Files>(alloc: Global, files: &mut F, path: &Bytes) -> Result<PlainAnswer, IoError>
    ensures ok { IfOk result (λ o. PlainOfFiles (F.files files.old) (order.Stop path.now) o) }
    ensures cause { IsJustCaused (F.faults files.old) (F.faults files.new) result }
{
    match read_text(alloc, files, path)? {
        None => too_long(alloc),
        Some(answer) => Ok(alone(stopped(alloc, answer.as_slice()))),
    }
}

/// What a plain command answers to what it reads.
pub(crate) fn answer<F: Files, S: Source>(
    alloc: Global,
    order: &Order,
    files: &mut F,
    input: &mut S,
) -> Result<PlainAnswer, IoError>
    requires built { is_plain order.now ≡ true }
    ensures ok { IfOk result (OfAnswer (Plain (told_outside F.Files S.Meanings files.old input.old) order.now)) }
    ensures failed { IsErrOf result IoError.Failed → Rose (F.faults files.old) (F.faults files.new) ⊎ Rose (S.faults input.old) (S.faults input.new) }
    ensures wanted { IsErrOf result IoError.NoMemory → (F.faults files.new ≡ F.faults files.old) × (S.faults input.new ≡ S.faults input.old) }
    ensures steady { IsOk result → (F.faults files.new ≡ F.faults files.old) × (S.faults input.new ≡ S.faults input.old) }
    ensures files { (files.new ≡ files.old) ⊎ (has_file (readings order.now) ≡ true) }
    ensures format { (files.new ≡ files.old) ⊎ HasFormat order.now }
    ensures input { (input.new ≡ input.old) ⊎ InputIsDue (told_outside F.Files S.Meanings files.old input.old) order.now }
{
    match order {
        Order::Play => play_input(alloc, input),
        Order::Config { workers, map } => config(alloc, files, workers, map),
        Order::Match {
            workers,
            map,
            verbose,
        } => match_paths(alloc, files, input, workers, map, *verbose),
        Order::Dry {
            request,
            reply,
            site,
        } => dry(alloc, files, request, reply, site),
        Order::Check => check_input(alloc, input),
        Order::Follow => follow_input(alloc, input),
        Order::Log {
            format,
            request,
            reply,
            workers,
            map,
        } => {
            let names = LogNames {
                request,
                reply,
                workers,
                map,
            };
            log(alloc, files, format, &names)
        }
        Order::Stop { path } => stop_front(alloc, files, path),
        _ => unreachable!(),
    }
}
