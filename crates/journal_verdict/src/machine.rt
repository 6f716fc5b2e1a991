//! A machine over the lines of a journal, which takes one after the other.
ghost use Rattle.std.specs.Prelude.{◌≡◌, ◌+◌, ◌<◌, ◌^◌, IfErr, IfOk, OnOk, true, false, None, Some};
ghost use Rattle.journal_text.specs.Reading.{TakesText, held};
ghost use Rattle.journal_verdict.specs.Lines.{RefusesLineAt, RunState, Stand, StandTakes, at_first, is_among};
ghost use Rattle.journal_verdict.specs.Machines.{AddsHead, KnowsAs};

use crate::error::FollowError;
use crate::heading::difference;
use crate::ruling::Ruling;
use crate::run::Run;
use jk_io::{Bytes, NoMemory};
use journal_text::{Line, Reader, read_line};
use std::alloc::Global;
use std::mem;

/// What is known after some lines.
#[derive(Drop)]
pub(crate) struct Machine {
    /// It stands between segments, also among the entries of the run, or in an opening.
    pub(crate) reader: Reader,
    /// How many lines of the present opening it took, the one of the rules among them.
    pub(crate) taken: u32,
    pub(crate) run: Option<Run>,
    /// Entries of the run may come.
    pub(crate) among: bool,
}

/// The refusal of a line of an opening, where another one ought to stand.
fn bad_line(alloc: Global, number: u64, text: &[u8], ruled: Bytes) -> Result<FollowError, NoMemory>
    ensures { IfOk result (λ e. e ≡ FollowError.Bad number (Ruling.Line text.now) (Ruling.Line ruled)) }
{
    Ok(FollowError::Bad {
        line: number,
        kept: Ruling::Line(Bytes::from_slice(alloc, text)?),
        ruled: Ruling::Line(ruled),
    })
}

/// Takes a line's text. False: it can't be read there.
fn take_text(alloc: Global, reader: &mut Reader, text: &[u8]) -> Result<bool, NoMemory>
    requires { held reader.old.place < 2 ^ 32 }
    ensures taken { IfOk result (λ taken. taken ≡ true → TakesText reader.old text.now (Some reader.new)) }
    ensures unread { IfOk result (λ taken. taken ≡ false → TakesText reader.old text.now None) }
{
    let before = mem::replace(reader, Reader::new(alloc));
    match before.take_text(alloc, text)? {
        Some(after) => {
            *reader = after;
            Ok(true)
        }
        None => Ok(false),
    }
}

/// After a line of an opening, or one between segments.
fn after_head(alloc: Global, machine: &mut Machine) -> Result<(), NoMemory>
    requires few { machine.old.taken + 1 < 2 ^ 32 }
    requires shut { machine.old.among ≡ false }
    ensures { (s : Stand) → OnOk result (AddsHead s machine.old.reader (machine.old.taken + 1) machine.old.run machine.new) }
{
    machine.taken += 1;
    let (reader, opened) = mem::replace(&mut machine.reader, Reader::new(alloc)).take_opening();
    machine.reader = reader;
    let Some((name, segment)) = opened else {
        return Ok(());
    };
    machine.run = Some(Run::begin(name, segment)?);
    machine.taken = 0;
    machine.among = true;
    Ok(())
}

/// Whether a line may stand among entries.
fn is_among(read: &Option<Line>) -> bool
    ensures { result ≡ is_among read.now }
{
    matches!(read, Some(Line::Entry(_) | Line::End(_)))
}

impl Machine {
    ghost use Rattle.std.specs.Prelude.{◌≡◌, IfErr, OnOk, true, false};
    ghost use Rattle.journal_verdict.specs.Lines.{RefusesLineAt, Stand, StandTakes, at_first};
    ghost use Rattle.journal_verdict.specs.Machines.{KnowsAs};

    /// Before the first line.
    pub(crate) fn new(alloc: Global) -> Machine
        ensures { KnowsAs result at_first }
    {
        Machine {
            reader: Reader::new(alloc),
            taken: 0,
            run: None,
            among: false,
        }
    }

    fn take_entry(&mut self, alloc: Global, text: &[u8], number: u64) -> Result<(), FollowError>
        requires among { self.old.among ≡ true }
        requires known { (s : Stand) × KnowsAs self.old s }
        ensures ok { (s : Stand) → KnowsAs self.old s → OnOk result ((t : Stand) × StandTakes s text.now t × KnowsAs self.new t) }
        ensures err { (s : Stand) → KnowsAs self.old s → IfErr result (RefusesLineAt s number text.now) }
    {
        let read = read_line(alloc, self.reader.rules(), text)?;
        if !is_among(&read) {
            return Err(FollowError::Unreadable { line: number });
        }
        let Some(run) = &mut self.run else {
            unreachable!()
        };
        match read {
            Some(Line::Entry(entry)) => run.take_entry(&entry, number),
            Some(Line::End(count)) => {
                let ended = run.take_end(count, number);
                self.among = false;
                ended
            }
            _ => unreachable!(),
        }
    }

    fn take_head(&mut self, alloc: Global, text: &[u8], number: u64) -> Result<(), FollowError>
        requires shut { self.old.among ≡ false }
        requires known { (s : Stand) × KnowsAs self.old s }
        ensures ok { (s : Stand) → KnowsAs self.old s → OnOk result ((t : Stand) × StandTakes s text.now t × KnowsAs self.new t) }
        ensures err { (s : Stand) → KnowsAs self.old s → IfErr result (RefusesLineAt s number text.now) }
    {
        if self.taken == u32::MAX {
            return Err(FollowError::NoMemory);
        }
        if !take_text(alloc, &mut self.reader, text)? {
            return Err(FollowError::Unreadable { line: number });
        }
        if let Some(ruled) = difference(alloc, &self.run, self.taken, text)? {
            return Err(bad_line(alloc, number, text, ruled)?);
        }
        Ok(after_head(alloc, self)?)
    }

    /// Takes a further line, which has this number. After a refusal nothing is said of the machine.
    pub(crate) fn take(
        &mut self,
        alloc: Global,
        text: &[u8],
        number: u64,
    ) -> Result<(), FollowError>
        requires known { (s : Stand) × KnowsAs self.old s }
        ensures ok { (s : Stand) → KnowsAs self.old s → OnOk result ((t : Stand) × StandTakes s text.now t × KnowsAs self.new t) }
        ensures err { (s : Stand) → KnowsAs self.old s → IfErr result (RefusesLineAt s number text.now) }
    {
        if self.among {
            self.take_entry(alloc, text, number)
        } else {
            self.take_head(alloc, text, number)
        }
    }
}
