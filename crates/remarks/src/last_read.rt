//! How the last read of a file went.
ghost use Rattle.std.specs.Prelude.{◌≡◌};
ghost use Rattle.std.specs.Option.{option_map};
ghost use Rattle.remarks.specs.Said.{long_name, unended_name, unread_name};

use crate::read_file::{ReadFile, ReadOutcome};
use jk_cli::CommandName;

/// The file whose read failed, if the last one did.
pub fn unread_file(reads: &[ReadFile]) -> Option<&[u8]>
    ensures { option_map (λ t. t.now) result ≡ unread_name reads.now }
{
    let last = reads.last()?;
    match last.outcome {
        ReadOutcome::Unread => Some(last.name.as_slice()),
        ReadOutcome::Whole | ReadOutcome::TooLong => None,
    }
}

/// The socket of a front that was asked to end, if it answered.
pub(crate) fn unended_file(command: Option<CommandName>, reads: &[ReadFile]) -> Option<&[u8]>
    ensures { option_map (λ t. t.now) result ≡ unended_name command reads.now }
{
    if !matches!(command, Some(CommandName::Stop)) {
        return None;
    }
    let last = reads.last()?;
    match last.outcome {
        ReadOutcome::Whole => Some(last.name.as_slice()),
        ReadOutcome::TooLong | ReadOutcome::Unread => None,
    }
}

/// The file that is too long, if the last one is.
pub(crate) fn long_file(reads: &[ReadFile]) -> Option<&[u8]>
    ensures { option_map (λ t. t.now) result ≡ long_name reads.now }
{
    let last = reads.last()?;
    match last.outcome {
        ReadOutcome::TooLong => Some(last.name.as_slice()),
        ReadOutcome::Whole | ReadOutcome::Unread => None,
    }
}
