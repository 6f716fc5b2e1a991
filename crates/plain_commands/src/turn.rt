//! One line of a script, on the Book.
ghost use Rattle.std.specs.Prelude.{◌≡◌, ◌+◌, ◌<◌, ◌≤◌, length, IfOk, IfErr, OnOk};
ghost use Rattle.lb_book.specs.Journal.{past_of};
ghost use Rattle.play_script.specs.Play.{IsAskRefused, IsCommandRefused};
ghost use Rattle.play_script.specs.Steps.{HasSmallBytes, IsSmall};
ghost use Rattle.plain_commands.specs.Turns.{IsPlayed, AddsAnswer, AnsweredCall, Maintains, Said, ShownRows, Taken, TellsStop, RefusesScriptLine, RefusesStep};
ghost use Rattle.lb_model.specs.declared.journal.TheConstants.{MOST_BYTES};

use jk_io::{Bytes, NoMemory};
use lb_book::{Book, Picked};
use lb_model::{AdminError, Ask, Call, Command, Outcome, RoomError};
use play_script::{NameList, ScriptRefusal, Step, is_skipped, put_answer, put_rows, step_of};

/// A Book of a script has fewer entries than this: a script has fewer than 2^32 lines, and each adds two at most.
const ENTRIES_LIMIT: u64 = 1 << 40;

/// The session whose calls a script makes.
const SESSION: u32 = 0;

/// Why a script goes no further.
#[derive(Clone, Copy)]
pub(crate) enum Stop {
    Refused(ScriptRefusal),
    NoMemory,
}

impl From<NoMemory> for Stop {
    ghost use Rattle.std.specs.Prelude.{◌≡◌};
    ghost use Rattle.plain_commands.specs.declared.turn.Stop.TheVariants as Stops;

    ghost from_gives = { λ _ e. e ≡ Stops.NoMemory };

    fn from(_e: NoMemory) -> Stop {
        Stop::NoMemory
    }
}

fn select(
    names: &NameList,
    book: &mut Book,
    at: u64,
    ask: &Ask,
    out: &mut Bytes,
) -> Result<(), NoMemory>
    requires played { IsPlayed book.old }
    requires few { length book.old.entries < ENTRIES_LIMIT }
    ensures { OnOk result (AnsweredCall names.now at (Call.Select ask.now) book.old book.new out.old out.new) }
{
    match book.select(SESSION, at, ask) {
        Ok(Picked { entry, lease }) => {
            if let Some(lease) = lease {
                let _ticket = lease.into_ticket();
            }
            put_answer(out, names, &entry.answer)
        }
        Err(RoomError::NoMemory) => Err(NoMemory),
        Err(RoomError::Full(_)) => unreachable!(),
    }
}

fn give_back(book: &mut Book, at: u64, ticket: u64, outcome: Outcome) -> Result<(), ScriptRefusal>
    requires played { IsPlayed book.old }
    requires small { outcome.bytes ≤ MOST_BYTES }
    ensures ok { OnOk result (AddsAnswer at (Call.Return ticket outcome) book.old book.new) }
    ensures refused { IfErr result (IsAskRefused book.old.opening (past_of book.old) (Call.Return ticket outcome)) }
    ensures err { IfErr result (λ _. book.new ≡ book.old) }
{
    match book.return_ticket(SESSION, at, ticket, outcome) {
        Ok(_) => Ok(()),
        Err(_) => Err(ScriptRefusal::NotOpen(ticket)),
    }
}

fn maintain(book: &mut Book, at: u64) -> Result<(), NoMemory>
    requires played { IsPlayed book.old }
    requires few { length book.old.entries < ENTRIES_LIMIT }
    ensures { OnOk result (Maintains at book.old book.new) }
{
    match book.maintain_if_due(SESSION, at) {
        Ok(_) => Ok(()),
        Err(RoomError::NoMemory) => Err(NoMemory),
        Err(RoomError::Full(_)) => unreachable!(),
    }
}

fn admin(book: &mut Book, at: u64, command: &Command) -> Result<(), Stop>
    requires played { IsPlayed book.old }
    requires few { length book.old.entries < ENTRIES_LIMIT }
    ensures ok { OnOk result (AddsAnswer at (Call.Admin command.now) book.old book.new) }
    ensures refused { IfErr result (λ stop. TellsStop stop (IsCommandRefused book.old.opening (past_of book.old) command.now)) }
{
    match book.admin(SESSION, at, command) {
        Ok(_) => Ok(()),
        Err(AdminError::UnknownMember) => Err(Stop::Refused(ScriptRefusal::Refused(1))),
        Err(AdminError::BadValue) => Err(Stop::Refused(ScriptRefusal::Refused(2))),
        Err(AdminError::TooWide(_)) => Err(Stop::Refused(ScriptRefusal::Refused(3))),
        Err(AdminError::Full(_)) => unreachable!(),
        Err(AdminError::NoMemory) => Err(Stop::NoMemory),
    }
}

fn show(book: &Book, out: &mut Bytes) -> Result<(), NoMemory>
    requires { IsPlayed book.now }
    ensures { OnOk result (ShownRows book.now out.old out.new) }
{
    let view = book.view()?;
    put_rows(out, view.rows.as_slice())
}

fn ask(names: &NameList, book: &mut Book, at: u64, call: &Call, out: &mut Bytes) -> Result<(), Stop>
    requires played { IsPlayed book.old }
    requires few { length book.old.entries < ENTRIES_LIMIT }
    requires small { HasSmallBytes call.now }
    ensures ok { OnOk result (AnsweredCall names.now at call.now book.old book.new out.old out.new) }
    ensures refused { IfErr result (λ stop. TellsStop stop (IsAskRefused book.old.opening (past_of book.old) call.now)) }
    ensures err { IfErr result (λ stop. TellsStop stop (λ _. out.new ≡ out.old)) }
{
    match call {
        Call::Select(asked) => Ok(select(names, book, at, asked, out)?),
        Call::Return { ticket, outcome } => match give_back(book, at, *ticket, *outcome) {
            Ok(()) => Ok(()),
            Err(reason) => Err(Stop::Refused(reason)),
        },
        Call::Maintain => Ok(maintain(book, at)?),
        Call::Admin(command) => admin(book, at, command),
    }
}

fn take_step(
    names: &NameList,
    book: &mut Book,
    at: u64,
    step: &Step,
    out: &mut Bytes,
) -> Result<u64, Stop>
    requires played { IsPlayed book.old }
    requires few { length book.old.entries < ENTRIES_LIMIT }
    requires small { IsSmall step.now }
    ensures ok { IfOk result (λ moment. Said names.now at step.now moment book.old book.new out.old out.new) }
    ensures refused { IfErr result (λ stop. TellsStop stop (RefusesStep step.now book.old out.old out.new)) }
{
    match step {
        Step::At(moment) => Ok(*moment),
        Step::Ask(call) => {
            ask(names, book, at, call, out)?;
            Ok(at)
        }
        Step::Show => {
            show(book, out)?;
            Ok(at)
        }
    }
}

/// Takes a line; answers the moment of what follows.
pub(crate) fn take_line(
    names: &NameList,
    book: &mut Book,
    at: u64,
    line: &[u8],
    out: &mut Bytes,
) -> Result<u64, Stop>
    requires played { IsPlayed book.old }
    requires few { length book.old.entries < ENTRIES_LIMIT }
    ensures ok { IfOk result (λ moment. Taken names.now at line.now moment book.old book.new out.old out.new) }
    ensures refused { IfErr result (λ stop. TellsStop stop (RefusesScriptLine names.now line.now book.old out.old out.new)) }
{
    if is_skipped(line) {
        return Ok(at);
    }
    match step_of(names, line) {
        None => Err(Stop::Refused(ScriptRefusal::BadLine)),
        Some(step) => take_step(names, book, at, &step, out),
    }
}
