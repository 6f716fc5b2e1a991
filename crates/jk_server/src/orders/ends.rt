//! How a command ends that asks for workers.
ghost use Rattle.std.specs.Prelude.{◌≡◌};
ghost use Rattle.jk_server.specs.Ends.{end_by, end_of_closing, end_of_container, end_of_run, status_of};

use crate::part::WorkerEnd;
use crate::runs::ends::Closing;
use ajp_container::ContainerWorker;
use jk_io::IoError;
use lb_closing::Discord;
use lb_shared::SiteStray;

/// The status of a command that did what it was asked.
pub(crate) const DONE: u8 = 0;

/// The status of a `Discord`.
const DIFFERS: u8 = 1;

/// The status of a file that is refused.
pub(crate) const REFUSED: u8 = 3;

/// The status of a fault of the files, of the world, or of what a worker uses.
pub(crate) const FAULT: u8 = 4;

/// The status of a write of the output that failed.
pub(crate) const OUTPUT_FAULT: u8 = 5;

/// The status of want of memory.
pub(crate) const NO_MEMORY: u8 = 6;

/// The status of a ticket that came back and wasn't out.
const STRAY: u8 = 7;

/// How a command ended over the Site that L names.
#[derive(Drop)]
pub enum CommandEnd<L> {
    /// 0 done, 3 a refused file, 4 a fault of what is read or used, 5 one of the output, 6 want of memory.
    Status(u8),
    /// The receipts of the workers aren't the entries that the balancers keep.
    Discord(Discord<L>),
    /// A ticket came back to its balancer and wasn't out.
    Stray(SiteStray<L>),
}

impl<L> CommandEnd<L> {
    /// The program's status.
    pub fn status(&self) -> u8
        ensures { result ≡ status_of self.now }
    {
        match self {
            CommandEnd::Status(status) => *status,
            CommandEnd::Discord(_) => DIFFERS,
            CommandEnd::Stray(_) => STRAY,
        }
    }
}

/// The end by an error of what a command reads or uses.
pub(crate) fn end_by<L>(error: IoError) -> CommandEnd<L>
    ensures { result ≡ end_by error }
{
    match error {
        IoError::Failed => CommandEnd::Status(FAULT),
        IoError::NoMemory => CommandEnd::Status(NO_MEMORY),
    }
}

fn end_of_closing<L>(closing: Closing<L>) -> CommandEnd<L>
    ensures { result ≡ end_of_closing closing }
{
    match closing {
        Closing::Kept => CommandEnd::Status(DONE),
        Closing::ShelfFault => CommandEnd::Status(FAULT),
        Closing::Differs(discord) => CommandEnd::Discord(discord),
        Closing::NoMemory => CommandEnd::Status(NO_MEMORY),
    }
}

/// The end of `serve`: by the first worker that didn't close, else by the closing.
pub(crate) fn end_of_run<L>(workers: Vec<WorkerEnd<L>>, closing: Closing<L>) -> CommandEnd<L>
    ensures { result ≡ end_of_run workers.items closing }
{
    'workers: for worker in workers {
        match worker {
            WorkerEnd::Closed { .. } => {}
            WorkerEnd::DoorFault | WorkerEnd::ShelfFault | WorkerEnd::LogFault => {
                return CommandEnd::Status(FAULT);
            }
            WorkerEnd::Stray(stray) => return CommandEnd::Stray(stray),
            WorkerEnd::NoMemory => return CommandEnd::Status(NO_MEMORY),
        }
    }
    end_of_closing(closing)
}

/// The end of `container`: by the first worker that didn't close.
pub(crate) fn end_of_container<L>(workers: &[ContainerWorker]) -> CommandEnd<L>
    ensures { result ≡ end_of_container workers.now }
{
    'workers: for worker in workers {
        match worker {
            ContainerWorker::Closed { .. } => {}
            ContainerWorker::DoorFault => return CommandEnd::Status(FAULT),
            ContainerWorker::NoMemory => return CommandEnd::Status(NO_MEMORY),
        }
    }
    CommandEnd::Status(DONE)
}
