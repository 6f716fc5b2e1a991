//! The plain commands: those that wait for nobody but their files, input and output.
ghost use Rattle.std.specs.Prelude.{◌≡◌, ◌⊎◌, true, false, None};
ghost use Rattle.plain_commands.specs.Endings.{number_of, plain_side, told_outside, EndsSo, Writes};
ghost use Rattle.plain_commands.specs.Plain.{is_plain, readings, HasFormat, InputIsDue};
ghost use Rattle.site_reports.specs.Readings.{has_file};

use crate::answered::PlainAnswer;
use crate::commands::answer;
use crate::play::{Ending, Output};
use jk_cli::Order;
use jk_io::{Files, IoError, Sink, Source, write_all};
use site_reports::SiteFound;
use std::alloc::Global;

/// How a plain command ends.
#[derive(Clone, Copy)]
pub enum PlainEnd {
    Done,
    /// A bad line of a journal.
    Bad,
    NoCommand,
    /// A file or an input is refused.
    Refused,
    /// A front that was told to end may still run.
    Running,
    InputFault,
    OutputFault,
    NoMemory,
}

impl PlainEnd {
    /// The status with which the program ends.
    pub fn status(self) -> u8
        ensures { result ≡ number_of self }
    {
        match self {
            PlainEnd::Done => 0,
            PlainEnd::Bad => 1,
            PlainEnd::NoCommand => 2,
            PlainEnd::Refused => 3,
            PlainEnd::Running | PlainEnd::InputFault => 4,
            PlainEnd::OutputFault => 5,
            PlainEnd::NoMemory => 6,
        }
    }
}

/// How a plain command ended, and what it found of the files of a site, where it judged some.
#[derive(Drop)]
pub struct PlainRun {
    pub end: PlainEnd,
    pub site: Option<SiteFound>,
}

/// Whether an order is a plain command that is built.
fn is_plain(order: &Order) -> bool
    ensures { result ≡ is_plain order.now }
{
    match order {
        Order::Play
        | Order::Dry { .. }
        | Order::Config { .. }
        | Order::Match { .. }
        | Order::Check
        | Order::Follow
        | Order::Log { .. }
        | Order::Stop { .. } => true,
        _ => false,
    }
}

// Writes an output; nothing is written of a front that may still run.
fn finish<O: Sink>(out: &mut O, output: &Output) -> PlainEnd
    ensures { Writes (O.faults out.old) (O.faults out.new) (O.sent out.old) (O.sent out.new) output.now.text output.now.ending result }
{
    let end = match output.ending {
        Ending::Done => PlainEnd::Done,
        Ending::Bad => PlainEnd::Bad,
        Ending::Refused => PlainEnd::Refused,
        Ending::Running => return PlainEnd::Running,
    };
    match write_all(out, output.text.as_slice()) {
        Ok(()) => end,
        Err(IoError::Failed) => PlainEnd::OutputFault,
        Err(IoError::NoMemory) => PlainEnd::NoMemory,
    }
}

// Writes what is answered.
fn write_answer<O: Sink>(out: &mut O, answered: PlainAnswer) -> PlainRun
    ensures written { Writes (O.faults out.old) (O.faults out.new) (O.sent out.old) (O.sent out.new)
        answered.output.text answered.output.ending result.end }
    ensures site { result.site ≡ answered.site }
{
    let PlainAnswer { output, site } = answered;
    let end = finish(out, &output);
    PlainRun { end, site }
}

fn without_site(end: PlainEnd) -> PlainRun
    ensures end { result.end ≡ end }
    ensures site { result.site ≡ None }
{
    PlainRun { end, site: None }
}

/// Lets a value go. Where it is large, the check of a function that calls this doesn't write its drop out.
pub(crate) fn let_go<T: Drop>(_it: T) {}

/// Does a plain command, and answers how it ended.
pub fn run_plain<F: Files, S: Source, O: Sink>(
    alloc: Global,
    order: &Order,
    files: &mut F,
    input: &mut S,
    out: &mut O,
) -> PlainRun
    // By each end what was printed and which site was judged, and why it came.
    ensures ends { let at = plain_side F.Files S.Meanings O.Meanings in
        EndsSo order.now (at files.old input.old out.old) (at files.new input.new out.new) result.site result.end }

    // No plain command that is built (`play`, `dry`, `config`, `match`, `check`, `log`, `follow` and `stop`): nothing was done.
    ensures nothing { is_plain order.now ≡ false → (files.new ≡ files.old) × (input.new ≡ input.old) × (out.new ≡ out.old) }

    // Files are read where the command has some, of `log` once its format is one, and of the input nothing unless each of its files
    // is there and not too long.
    ensures files { (files.new ≡ files.old) ⊎ (has_file (readings order.now) ≡ true) }
    ensures format { (files.new ≡ files.old) ⊎ HasFormat order.now }
    ensures input { (input.new ≡ input.old) ⊎ InputIsDue (told_outside F.Files S.Meanings files.old input.old) order.now }
{
    if !is_plain(order) {
        return without_site(PlainEnd::NoCommand);
    }
    match answer(alloc, order, files, input) {
        Ok(answered) => write_answer(out, answered),
        Err(IoError::Failed) => without_site(PlainEnd::InputFault),
        Err(IoError::NoMemory) => without_site(PlainEnd::NoMemory),
    }
}
