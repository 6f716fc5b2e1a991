//! How many bytes a second are read of a uriworkermap.properties that has a rule a line.
ghost use Rattle.std.specs.Prelude.{◌≤◌, length};
ghost use Rattle.jk_io.specs.declared.whole_input.TheConstants.{MAX_INPUT_BYTES};

use crate::done::Done;
use crate::site::{LINE_BYTES, put_comment};
use jk_io::{MAX_INPUT_BYTES, NoMemory};
use site_mounts::read_map;
use site_workers::{Config, read_workers};
use std::alloc::Global;
use std::fmt::Write;

/// The workers that the rules name.
const WORKERS: &str =
    "worker.list=lb\nworker.lb.type=lb\nworker.lb.balance_workers=a,b\nworker.a.host=h\nworker.b.host=i\n";

/// Rules with a part, as long as one more line fits into `bytes` bytes.
fn put_rules(text: &mut String, bytes: u64) -> Result<(), NoMemory> {
    for i in 0..bytes {
        if bytes.saturating_sub(text.len() as u64) < LINE_BYTES {
            break;
        }
        write!(text, "/app{i}/servlet/*.jsp=lb;disabled=a\n")?;
    }
    Ok(())
}

/// A text of `bytes` bytes: rules, and a comment for the rest.
pub fn put_map(text: &mut String, bytes: u64) -> Result<(), NoMemory> {
    put_rules(text, bytes)?;
    put_comment(text, bytes)
}

/// How many rules a text has.
fn read_rules(alloc: Global, text: &[u8], config: &Config) -> Option<Done>
    requires { length text.now ≤ MAX_INPUT_BYTES }
{
    match read_map(alloc, text, config) {
        Ok(map) => Some(Done {
            amount: text.len() as u64,
            figures: [text.len() as u64, map.rules() as u64, 0],
        }),
        Err(_) => None,
    }
}

/// How many rules a text has that names the workers of `WORKERS`.
pub fn read(alloc: Global, text: &[u8]) -> Option<Done> {
    if text.len() > MAX_INPUT_BYTES {
        return None;
    }
    match read_workers(alloc, WORKERS.as_bytes()) {
        Ok(config) => read_rules(alloc, text, &config),
        Err(_) => None,
    }
}
