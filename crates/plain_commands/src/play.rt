//! A whole script, from its lines to what it prints.
ghost use Rattle.std.specs.Prelude.{◌≡◌, ◌+◌, ◌<◌, ◌≤◌, ◌^◌, [], ◌∷◌, length, IfOk, false};
ghost use Rattle.std.specs.Option.{is_none};
ghost use Rattle.lb_book.specs.Journal.{past_of};
ghost use Rattle.play_script.specs.Drafts.{names_in, IsConfigOf};
ghost use Rattle.play_script.specs.Play.{is_skipped, StopsScript, Runs, Starts, PlaysScript};
ghost use Rattle.play_script.specs.Steps.{step_of};
ghost use Rattle.plain_commands.specs.Endings.{status_of};
ghost use Rattle.plain_commands.specs.Turns.{IsPlayed, AppendsRun};
ghost use Rattle.jk_io.specs.declared.whole_input.TheConstants.{MAX_INPUT_BYTES};

use crate::turn::{Stop, take_line};
use jk_io::{Bytes, NoMemory};
use lb_book::Book;
use lb_model::LbConfig;
use play_script::{
    BegunScript, DraftError, NameList, Parts, ScriptRefusal, begin, put_refusal, step_of,
};
use std::alloc::Global;

/// How a plain command ends, once it was read and answered.
#[derive(Clone, Copy)]
pub(crate) enum Ending {
    Done,
    /// The input was read, and the line says what is wrong in it.
    Bad,
    /// The input was refused, and the last line says where.
    Refused,
    /// The front that was told to end may still run.
    Running,
}

/// What a plain command prints, and how it ends.
#[derive(Drop)]
pub(crate) struct Output {
    pub text: Bytes,
    pub ending: Ending,
}

// What is printed of a script that is refused at this line.
fn refused(alloc: Global, number: u64, reason: ScriptRefusal) -> Result<Output, NoMemory>
    ensures { IfOk result (λ o. StopsScript number reason o.text (status_of o.ending)) }
{
    let mut text = Bytes::new(alloc);
    put_refusal(&mut text, number, reason)?;
    Ok(Output {
        text,
        ending: Ending::Refused,
    })
}

/// The number of a line, and the moment at which it is taken.
#[derive(Clone, Copy)]
struct LineAt {
    number: u64,
    at: u64,
}

// Takes the lines on the Book, from the one at which the balancer starts.
fn run(
    names: &NameList,
    book: &mut Book,
    first: LineAt,
    line: &[u8],
    lines: &mut Parts,
    out: &mut Bytes,
) -> Result<Ending, NoMemory>
    requires played { IsPlayed book.old }
    requires few { first.number + length lines.old < 2 ^ 32 }
    requires entries { length book.old.entries ≤ first.number }
    ensures { IfOk result (λ ending. AppendsRun names.now book.old first.number first.at (line.now ∷ lines.old) (status_of ending)
        out.old out.new) }
{
    let mut at = first.at;
    let mut number = first.number;
    let mut line = line;
    'lines: loop {
        match take_line(names, book, at, line, out) {
            Ok(moment) => at = moment,
            Err(Stop::Refused(reason)) => {
                put_refusal(out, number, reason)?;
                return Ok(Ending::Refused);
            }
            Err(Stop::NoMemory) => return Err(NoMemory),
        }
        number += 1;
        match lines.next() {
            None => return Ok(Ending::Done),
            Some(next) => line = next,
        }
    }
}

// What a script prints from the line on at which the balancer starts, over its Book.
fn run_over(
    alloc: Global,
    book: &mut Book,
    begun: &BegunScript,
    line: &[u8],
    lines: &mut Parts,
) -> Result<Output, NoMemory>
    requires played { IsPlayed book.old }
    requires few { begun.now.number + length lines.old < 2 ^ 32 }
    requires entries { length book.old.entries ≤ begun.now.number }
    ensures { IfOk result (λ o. AppendsRun (names_in begun.now.draft) book.old begun.now.number begun.now.at (line.now ∷ lines.old)
        (status_of o.ending) [] o.text) }
{
    let mut text = Bytes::new(alloc);
    let first = LineAt {
        number: begun.number,
        at: begun.at,
    };
    let ending = run(begun.draft.names(), book, first, line, lines, &mut text)?;
    Ok(Output { text, ending })
}

// The balancer of the draft starts at a line.
fn start_with(
    alloc: Global,
    config: LbConfig,
    begun: &BegunScript,
    line: &[u8],
    lines: &mut Parts,
) -> Result<Output, NoMemory>
    requires config { IsConfigOf begun.now.draft config }
    requires full { is_none (step_of (names_in begun.now.draft) line.now) ≡ false }
    requires few { begun.now.number + length lines.old < 2 ^ 32 }
    ensures { IfOk result (λ o. Starts (step_of (names_in begun.now.draft) line.now) begun.now.draft (line.now ∷ lines.old)
        begun.now.number begun.now.at o.text (status_of o.ending)) }
{
    let mut book = Book::start(alloc, config, begun.at, 0)?;
    run_over(alloc, &mut book, begun, line, lines)
}

// The balancer starts at a line.
fn start(
    alloc: Global,
    begun: &BegunScript,
    line: &[u8],
    lines: &mut Parts,
) -> Result<Output, NoMemory>
    requires few { begun.now.number + length lines.old < 2 ^ 32 }
    ensures { IfOk result (λ o. Starts (step_of (names_in begun.now.draft) line.now) begun.now.draft (line.now ∷ lines.old)
        begun.now.number begun.now.at o.text (status_of o.ending)) }
{
    let draft = &begun.draft;
    if step_of(draft.names(), line).is_none() {
        return refused(alloc, begun.number, ScriptRefusal::BadLine);
    }
    match draft.config() {
        Ok(config) => start_with(alloc, config, begun, line, lines),
        Err(DraftError::NoBalancer) => refused(alloc, begun.number, ScriptRefusal::BadBalancer),
        Err(DraftError::NoMemory) => Err(NoMemory),
    }
}

/// What a script prints.
pub(crate) fn play(alloc: Global, script: &[u8]) -> Result<Output, NoMemory>
    requires { length script.now ≤ MAX_INPUT_BYTES }
    ensures { IfOk result (λ o. PlaysScript script.now o.text (status_of o.ending)) }
{
    let mut lines = Parts::of(b'\n', script);
    let begun = begin(alloc, &mut lines)?;
    match begun.line {
        None => Ok(Output {
            text: Bytes::new(alloc),
            ending: Ending::Done,
        }),
        Some(line) => start(alloc, &begun, line, &mut lines),
    }
}
