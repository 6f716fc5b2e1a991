//! The command that a query means.
ghost use Rattle.std.specs.Prelude.{◌≡◌, Some, None, IfOk, IsErrOf, unwrap_or};
ghost use Rattle.std.specs.Option.{option_copied};
ghost use Rattle.status_worker.specs.declared.texts.ChangeTexts.{ChangeTexts};
ghost use Rattle.status_worker.specs.Meaning.{command_by, command_in, command_of, meaning_of};

use crate::command::StatusCommand;
use crate::error::StatusError;
use crate::field::Field;
use crate::query::read_fields;
use crate::texts::{ChangeTexts, Texts, are_lone, texts_of};
use crate::values::change_of;
use crate::verb::{Verb, verb_of};
use jk_io::Bytes;
use std::alloc::Global;

fn update_by(
    worker: Option<Bytes>,
    member: Option<Bytes>,
    change: ChangeTexts,
) -> Option<StatusCommand>
    ensures { result ≡ command_by Verb.Update (record { command = None; worker = worker; member = member; change = change }) }
{
    Some(StatusCommand::Update {
        w: worker?,
        sw: member?,
        change: change_of(change)?,
    })
}

fn reset_by(worker: Option<Bytes>, member: Option<Bytes>) -> Option<StatusCommand>
    ensures { (change : ChangeTexts) → result
        ≡ command_by Verb.Reset (record { command = None; worker = worker; member = member; change = change }) }
{
    Some(StatusCommand::Reset {
        w: worker?,
        sw: member,
    })
}

fn recover_by(worker: Option<Bytes>, member: Option<Bytes>) -> Option<StatusCommand>
    ensures { (change : ChangeTexts) → result
        ≡ command_by Verb.Recover (record { command = None; worker = worker; member = member; change = change }) }
{
    Some(StatusCommand::Recover {
        w: worker?,
        sw: member?,
    })
}

fn command_by(verb: Verb, texts: Texts) -> Option<StatusCommand>
    ensures { result ≡ command_by verb texts }
{
    match verb {
        Verb::List => Some(StatusCommand::List { w: texts.worker }),
        Verb::Update => update_by(texts.worker, texts.member, texts.change),
        Verb::Reset => reset_by(texts.worker, texts.member),
        Verb::Recover => recover_by(texts.worker, texts.member),
    }
}

/// What the values ask for.
fn command_of(texts: Texts) -> Option<StatusCommand>
    ensures { result ≡ command_of texts }
{
    let verb = verb_of(&texts.command)?;
    command_by(verb, texts)
}

/// What the fields ask for.
fn command_in(fields: &[Field]) -> Result<StatusCommand, StatusError>
    ensures ok { IfOk result (λ command. command_in fields.now ≡ Some command) }
    ensures bad { IsErrOf result StatusError.BadQuery → command_in fields.now ≡ None }
{
    if !are_lone(fields) {
        return Err(StatusError::BadQuery);
    }
    let texts = texts_of(fields)?;
    match command_of(texts) {
        Some(command) => Ok(command),
        None => Err(StatusError::BadQuery),
    }
}

/// The command that a query means; no query is as an empty one. A query is bad exactly where it means no command: where
/// its command is unknown, or a part is missing, repeated or can't be read.
pub fn read_command(alloc: Global, query: Option<&[u8]>) -> Result<StatusCommand, StatusError>
    ensures ok { IfOk result (λ command. meaning_of (option_copied query.entry) ≡ Some command) }
    ensures bad { IsErrOf result StatusError.BadQuery → meaning_of (option_copied query.entry) ≡ None }
{
    let fields = read_fields(alloc, query.unwrap_or(b""))?;
    command_in(fields.as_slice())
}
