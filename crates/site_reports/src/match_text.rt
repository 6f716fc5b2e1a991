//! The answers to a list of paths.
ghost use Rattle.std.specs.Prelude.{◌≡◌, ◌++◌, IfOk, OnOk};
ghost use Rattle.std.specs.Option.{option_map};
ghost use Rattle.http_front.specs.Path.{clean_of};
ghost use Rattle.site_reports.specs.Matches.{answer_line, answer_of, deciding_words, line_words, match_line, match_text, path_in, worker_name};

use crate::path_lines::first_line;
use crate::words::put_number;
use http_front::{PathError, clean_path};
use jk_io::{Bytes, NoMemory};
use site_config::{Config, Named, cut_at};
use site_mounts::UriMap;
use std::alloc::Global;

fn worker_name(config: &Config, worker: Option<Named>) -> &[u8]
    ensures { result.now ≡ worker_name config.now worker }
{
    match worker {
        None => b"-",
        Some(Named::Balancer(place)) => match config.lbs.get(place as usize) {
            Some(lb) => lb.name.as_slice(),
            None => b"-",
        },
        Some(Named::Status(place)) => match config.statuses.get(place as usize) {
            Some(status) => status.name.as_slice(),
            None => b"-",
        },
    }
}

fn answer_of<'c>(config: &'c Config, map: &UriMap, path: Option<&[u8]>) -> &'c [u8]
    ensures { result.now ≡ answer_of config.now map.now (option_map (λ p. p.now) path.entry) }
{
    match path {
        Some(path) => worker_name(config, map.mount(path)),
        None => b"400",
    }
}

fn put_line_words(out: &mut Bytes, line: Option<u32>) -> Result<(), NoMemory>
    ensures { OnOk result (out.new ≡ out.old ++ line_words line) }
{
    match line {
        Some(line) => put_number(out, b" line ", u64::from(line)),
        None => Ok(()),
    }
}

/// Adds the line of the map that decides about a path.
fn put_deciding(out: &mut Bytes, map: &UriMap, path: Option<&[u8]>) -> Result<(), NoMemory>
    ensures { OnOk result (out.new ≡ out.old ++ deciding_words map.now (option_map (λ p. p.now) path.entry)) }
{
    match path {
        Some(path) => put_line_words(out, map.deciding_line(path)),
        None => Ok(()),
    }
}

/// What stands before a query.
fn path_in(raw: &[u8]) -> &[u8]
    ensures { result.now ≡ path_in raw.now }
{
    match cut_at(raw, b'?') {
        Some((path, _)) => path,
        None => raw,
    }
}

/// The clean path of a raw one; none where it can't be cleaned.
fn cleaned(alloc: Global, raw: &[u8]) -> Result<Option<Bytes>, NoMemory>
    ensures { IfOk result (λ path. path ≡ clean_of raw.now) }
{
    match clean_path(alloc, raw) {
        Ok(path) => Ok(Some(path)),
        Err(PathError::BadPath) => Ok(None),
        Err(PathError::NoMemory) => Err(NoMemory),
    }
}

/// Adds the line of a raw path that is cleaned to this one.
fn put_answer(
    out: &mut Bytes,
    config: &Config,
    map: &UriMap,
    verbose: bool,
    raw: &[u8],
    path: Option<&[u8]>,
) -> Result<(), NoMemory>
    ensures { OnOk result (out.new ≡ out.old ++ answer_line config.now map.now verbose raw.now (option_map (λ p. p.now) path.entry)) }
{
    out.extend(raw)?;
    out.extend(b" ")?;
    out.extend(answer_of(config, map, path))?;
    if verbose {
        put_deciding(out, map, path)?;
    }
    out.extend(b"\n")
}

fn put_line(
    alloc: Global,
    out: &mut Bytes,
    config: &Config,
    map: &UriMap,
    verbose: bool,
    raw: &[u8],
) -> Result<(), NoMemory>
    ensures { OnOk result (out.new ≡ out.old ++ match_line config.now map.now verbose raw.now) }
{
    let path = cleaned(alloc, path_in(raw))?;
    match &path {
        Some(path) => put_answer(out, config, map, verbose, raw, Some(path.as_slice())),
        None => put_answer(out, config, map, verbose, raw, None),
    }
}

/// Adds a line for each line of `paths`, which is a raw path, maybe with a query: the line, and the name of the worker at
/// which its clean path is mounted, `-` where none is, or `400` where it can't be cleaned; where it is `verbose`, also the
/// line of the map that decides about it.
pub fn put_matches(
    alloc: Global,
    out: &mut Bytes,
    config: &Config,
    map: &UriMap,
    paths: &[u8],
    verbose: bool,
) -> Result<(), NoMemory>
    ensures { OnOk result (out.new ≡ out.old ++ match_text config.now map.now verbose paths.now) }
{
    let mut rest = paths;
    while let Some((raw, behind)) = first_line(rest) {
        put_line(alloc, out, config, map, verbose, raw)?;
        rest = behind;
    }
    Ok(())
}
