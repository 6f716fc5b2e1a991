//! jkd: a connector that balances requests over servlet containers.
//!
//! Here stand the words of the command line, which are read once, the real files, streams and world, over which `jk_commands`
//! does what they ask for, what is told of it on standard error, and the demo.
//!
//! Source: own rules for the demo and for what is told.
//! Contract: of `do_outside`, which does what was read and answers how it ended, of `words_of` and `end_by`, which `main` calls
//! before and after it, and of `serve_demo` and `contain_demo`, each by `run_jkd`. Read first: jk_commands' specs/Commands.antt;
//! then specs/Process.antt, specs/Words.antt and specs/Demo.antt.
//! Errors: the statuses 1 to 7, as `run_jkd` gives them.
#![tactic(auto)]

ghost use Rattle.std.specs.Prelude.{◌≡◌, None, IfErr, IfOk, IfSome, false, is_some};
ghost use Rattle.std.specs.Process.{exit_status};
ghost use Rattle.plain_commands.specs.AskedTexts.{asked_by};
ghost use Rattle.jk_commands.specs.Ends.{status_of};
ghost use Rattle.jkd.specs.Words.{IsDoneByWords, PrintsAsked, PrintsText, status_of_unread};

mod arguments;
mod demo;
mod demo_threads;
mod outside;
mod telling;

use arguments::{ArgumentsError, WordList, read_arguments};
use demo::DEMO_THREADS;
use demo_threads::{Demo, demo_of, end_of, run_part, send_end};
use gear_worlds::RealWorld;
use jk_cli::read_words;
use jk_commands::{JkdEnd, NO_COMMAND, NO_MEMORY, OUTPUT_FAULT, let_go};
use jk_io::{Bytes, IoError, NoMemory, Sink, write_all};
use outside::{OrderEnd, do_outside, tell_trouble, threads_of};
use plain_commands::{USAGE, asked_text};
use real_io::StdOut;
use std::alloc::Global;
use std::net::{Net, TcpListener, TcpStream};
use std::process::ExitCode;
use std::rt::{Env, Files};
use std::sync::Wait;
use std::thread;
use std::time::Clock;

/// Prints a text, and answers the status.
fn print_text<O: Sink>(out: &mut O, text: &[u8]) -> u8
    ensures { PrintsText O.Meanings out.old out.new text.now result }
{
    match write_all(out, text) {
        Ok(()) => 0,
        Err(IoError::Failed) => OUTPUT_FAULT,
        Err(IoError::NoMemory) => NO_MEMORY,
    }
}

/// Prints the text that the words ask for, and answers the status; none where they ask for no text.
fn print_asked<O: Sink>(alloc: Global, out: &mut O, words: &[Bytes]) -> Option<u8>
    ensures none { result ≡ None → (is_some (asked_by words.now) ≡ false) × (out.new ≡ out.old) }
    ensures some { IfSome result (λ status. PrintsAsked O.Meanings words.now out.old out.new status) }
{
    match asked_text(alloc, words) {
        Ok(None) => None,
        Ok(Some(text)) => Some(print_text(out, text.as_bytes())),
        Err(NoMemory) => Some(NO_MEMORY),
    }
}

/// The status where the words can't be read.
fn unread<R: Eprint>(rt: &R, error: ArgumentsError) -> u8
    ensures { result ≡ status_of_unread error }
{
    match error {
        ArgumentsError::NotText => {
            let _ = eprintln!(rt; "jkd: a word is not UTF-8");
            NO_COMMAND
        }
        ArgumentsError::NoMemory => NO_MEMORY,
    }
}

/// The words of a command, which ask for no text; where there is nothing more to do, the status.
fn words_of<R: Env + Print + Eprint + AllocGlobal>(rt: &R) -> Result<WordList, u8>
    ensures command { IfOk result (λ words. is_some (asked_by words) ≡ false) }
    ensures done { IfErr result IsDoneByWords }
{
    let words = match read_arguments(rt) {
        Ok(words) => words,
        Err(error) => return Err(unread(rt, error)),
    };
    match print_asked(rt.alloc(), &mut StdOut::new(rt), words.as_slice()) {
        None => Ok(words),
        Some(status) => Err(status),
    }
}

/// The end of the program. What it says of words that are no command, or of output that can't be written, goes to standard error,
/// which may be closed.
fn ended<R: Eprint>(rt: &R, status: u8) -> ExitCode
    ensures { exit_status result ≡ status }
{
    match status {
        NO_COMMAND => {
            let _ = eprint!(rt; "{USAGE}");
        }
        OUTPUT_FAULT => {
            let _ = eprintln!(rt; "jkd: standard output can't be written");
        }
        _ => {}
    }
    ExitCode::from(status)
}

/// Waits until no link of the world lingers any more. Who asked for a stop is told of a good end.
fn end_world<R>(world: RealWorld<'_, R>, status: u8)
where
    R: Net<Stream = TcpStream, Listener = TcpListener> + Files + Clock + Wait + Eprint,
{
    if status == 0 {
        world.say_ended();
    } else {
        world.wait_for_lingering();
    }
    let_go(world);
}

/// The end of the program, by how the command ended.
fn end_by<R>(rt: &R, world: RealWorld<'_, R>, end: JkdEnd) -> ExitCode
where
    R: Net<Stream = TcpStream, Listener = TcpListener> + Files + Clock + Wait + Eprint,
    ensures { exit_status result ≡ status_of end }
{
    let status = end.status();
    let_go(end);
    tell_trouble(rt, world.trouble());
    end_world(world, status);
    ended(rt, status)
}

fn main(rt: HostRuntime) -> ExitCode {
    let words = match words_of(&rt) {
        Ok(words) => words,
        Err(status) => return ended(&rt, status),
    };
    let words = words.as_slice();
    let asked = read_words(rt.alloc(), words);
    match demo_of(&rt, &asked) {
        None => {}
        Some(Err(status)) => {
            let_go(asked);
            return ended(&rt, status);
        }
        Some(Ok(Demo { parts, ends })) => {
            let_go(asked);
            for part in parts {
                let begun = thread::spawn(&rt, move || {
                    let mut world = RealWorld::new(&rt, DEMO_THREADS);
                    let end = run_part(&rt, part, &mut world);
                    tell_trouble(&rt, world.trouble());
                    let_go(world);
                    send_end(&rt, end);
                });
                if begun.is_err() {
                    return ended(&rt, NO_MEMORY);
                }
            }
            return ended(&rt, end_of(&rt, &ends));
        }
    }
    let world = RealWorld::new(&rt, threads_of(&asked));
    let OrderEnd { end, site, world } = do_outside(
        &rt,
        words,
        &asked,
        world,
        (rt.stderr(), rt.stderr()),
    );
    let_go(site);
    let_go(asked);
    end_by(&rt, world, end)
}
