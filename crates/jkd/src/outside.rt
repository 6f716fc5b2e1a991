//! What was read of the words, done over the system's files and streams and a world.
ghost use Rattle.std.specs.Prelude.{◌≡◌, ◌↔◌, Err};
ghost use Rattle.jk_commands.specs.Orders.{IfPlain, IfServed, IsNoCommand};
ghost use Rattle.jkd.specs.Process.{EndsProcess, ServesProcess};

use crate::telling::{asks_stop, reason, tell};
use gear_parts::ToldWorld;
use gear_worlds::{Trouble, World};
use jk_cli::{CommandName, Order, WordsError};
use jk_commands::{EndOf, JkdEnd, SiteTeller, TellingWorld, let_go, run_jkd};
use jk_io::{Bytes, Door};
use real_io::{RealFiles, StdIn, StdOut};
use remarks::{CountedInput, Ended, InputSeen, KeptFiles, ReadFile, command_asked};
use site_reports::SiteFound;
use std::alloc::Global;
use std::io::{Input, Write};
use std::net::Net;
use std::rt::Files as SystemFiles;
use std::sync::Wait;
use std::thread::Threads;

/// How many worker threads are asked for.
pub(crate) fn threads_of(asked: &Result<Order, WordsError>) -> u32 {
    match asked {
        Ok(Order::Serve(order)) => order.threads.get(),
        Ok(Order::Container { threads, .. }) => threads.get(),
        _ => 0,
    }
}

/// How what was read of the words ended in a world, and what it found of the files of a site.
#[derive(Drop)]
pub(crate) struct OrderEnd<W> {
    pub end: JkdEnd,
    pub site: Option<SiteFound>,
    pub world: W,
}

/// The files that what was read of the words is about: a stop goes to a socket alone.
fn files_of<'r, R: SystemFiles + Net>(
    rt: &'r R,
    asked: &Result<Order, WordsError>,
) -> RealFiles<'r, R>
    ensures { result.failed ≡ 0 }
{
    if asks_stop(asked) {
        RealFiles::sockets(rt)
    } else {
        RealFiles::new(rt)
    }
}

/// How a command ended: the word that names it, its status, what it read of the input, and the site that it judged.
#[derive(Drop)]
struct CommandEnded {
    command: Option<CommandName>,
    status: u8,
    input: InputSeen,
    site: Option<SiteFound>,
}

/// Tells a person of a command that ended.
fn tell_ended<'x, E: Write + Drop>(
    alloc: Global,
    err: E,
    words: &'x [Bytes],
    reads: &'x [ReadFile],
    reason: &'x [u8],
    how: &'x CommandEnded,
) {
    let site = how.site.as_ref();
    let ended = Ended {
        command: how.command,
        words,
        status: how.status,
        reads,
        input: how.input,
        site,
        reason,
    };
    tell(alloc, err, &ended);
}

/// Tells a person how what was read of the words ended.
fn tell_of<E: Write + Drop, R: SystemFiles + Net + AllocGlobal>(
    rt: &R,
    words: &[Bytes],
    asked: &Result<Order, WordsError>,
    reads: &[ReadFile],
    err: E,
    how: &CommandEnded,
) {
    if let Ok(reason) = reason(rt, asked, reads) {
        tell_ended(rt.alloc(), err, words, reads, reason.as_bytes(), how);
    }
}

/// Does what was read of the words in this world, over the system's files and streams, and answers how it ended. A person is told
/// before a site is served which lines of its files have no effect, and afterwards how the command ended, by the first and the
/// second of `errs`; neither changes anything.
pub(crate) fn do_outside<
    W: World + Drop,
    E: Write + Drop,
    R: Print + Input + SystemFiles + Net + AllocGlobal + Threads + Wait + Sync,
>(rt: &R, words: &[Bytes], asked: &Result<Order, WordsError>, world: W, errs: (E, E)) -> OrderEnd<W>
where
    <W::D as Door>::L: Send,
    // An order that asks for workers or threads, with what it hands on of a site.
    ensures serves { IfServed asked.now (λ o. ServesProcess ⟦<W as ToldWorld>⟧.told o world result.world result.end result.site) }

    // Any other order. The world isn't asked.
    ensures plain { IfPlain asked.now (λ o. EndsProcess o result.end result.site) }
    ensures world { IfPlain asked.now (λ _. result.world ≡ world) }

    // No command, exactly by what was read of the words; and no memory for the order. Nothing is done.
    ensures no_command { (result.end ≡ EndOf.Status 2) ↔ IsNoCommand asked.now }
    ensures nothing { result.end ≡ EndOf.Status 2 → result.world ≡ world }
    ensures no_memory { asked.now ≡ Err WordsError.NoMemory → (result.end ≡ EndOf.Status 6) × (result.world ≡ world) }
{
    let (of_site, err) = errs;
    let mut world = TellingWorld::new(world, SiteTeller::of(asked, of_site));
    let mut files = KeptFiles::new(rt.alloc(), files_of(rt, asked));
    let mut input = CountedInput::new(StdIn::new(rt.reader()));
    let mut out = StdOut::new(rt);
    let run = run_jkd(
        rt,
        rt.alloc(),
        asked,
        &mut files,
        &mut input,
        &mut out,
        &mut world,
    );
    let (end, site) = run;
    let how = CommandEnded {
        command: command_asked(asked),
        status: end.status(),
        input: input.seen(),
        site,
    };
    tell_of(rt, words, asked, files.reads(), err, &how);
    let_go(files);
    let CommandEnded { site, .. } = how;
    OrderEnd {
        end,
        site,
        world: world.into_world(),
    }
}

/// Tells what failed first in the real world.
pub(crate) fn tell_trouble<R: Eprint>(rt: &R, trouble: Option<&Trouble>) {
    if let Some(trouble) = trouble {
        let _ = eprintln!(rt; "jkd: {trouble}");
    }
}
