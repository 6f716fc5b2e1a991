//! The line that says, once all gears are there, where clients are waited for.
ghost use Rattle.std.specs.Prelude.{◌≡◌, ◌++◌, IfOk, OnOk, codes};
ghost use Rattle.std.specs.Option.{option_copied, option_map};
ghost use Rattle.gear_worlds.specs.Notices.{names_text, notice_text, threads_text, workers_text};

use jk_io::{Bytes, NoMemory, put_decimal};
use site_config::{Config, Named};
use std::alloc::Global;

/// The line for this address, number of threads and, of a connector, its workers.
pub(crate) fn notice(
    alloc: Global,
    address: &Bytes,
    threads: u32,
    cfg: Option<&Config>,
) -> Result<Bytes, NoMemory>
    ensures { IfOk result (λ line. line ≡ notice_text address.now threads (option_map (λ c. c.listed) (option_copied cfg.entry))) }
{
    let mut line = Bytes::from_slice(alloc, b"jkd: listening on ")?;
    line.extend(address.as_slice())?;
    line.extend(b" with ")?;
    put_threads(&mut line, threads)?;
    if let Some(cfg) = cfg {
        put_workers(&mut line, cfg.listed.as_slice())?;
    }
    Ok(line)
}

fn put_threads(line: &mut Bytes, threads: u32) -> Result<(), NoMemory>
    ensures { OnOk result (line.new ≡ line.old ++ threads_text threads) }
{
    put_decimal(line, u128::from(threads))?;
    if threads == 1 {
        line.extend(b" thread")
    } else {
        line.extend(b" threads")
    }
}

fn put_workers(line: &mut Bytes, listed: &[(Bytes, Named)]) -> Result<(), NoMemory>
    ensures { OnOk result (line.new ≡ line.old ++ codes "; workers" ++ names_text listed.now) }
{
    line.extend(b"; workers")?;
    for entry in listed {
        line.push(b' ')?;
        line.extend(entry.0.as_slice())?;
    }
    Ok(())
}
