//! How a command of jkd ends.
ghost use Rattle.std.specs.Prelude.{◌≡◌};
ghost use Rattle.jk_commands.specs.Ends.{status_of};

use drill::{DrillEnd, DrillError};
use jk_server::CommandEnd;
use lb_closing::Discord;
use lb_shared::SiteStray;
use std::marker::Brand;

/// The status of a command that did what it was asked.
const DONE: u8 = 0;

/// The status of a `Discord`.
const DIFFERS: u8 = 1;

/// The status of words that are no command.
pub const NO_COMMAND: u8 = 2;

/// The status of a write of the output that failed.
pub const OUTPUT_FAULT: u8 = 5;

/// The status of want of memory.
pub const NO_MEMORY: u8 = 6;

/// The status of a ticket that came back and wasn't out.
const STRAY: u8 = 7;

/// How a command ended over the Site that L names.
#[derive(Drop)]
pub enum EndOf<L> {
    /// 0 done, 1 a bad line of a journal, 2 no command, 3 a refused file or input, 4 a fault of what is read or used,
    /// 5 one of the output, 6 want of memory. 1 comes with a plain command alone.
    Status(u8),
    /// The receipts of the workers aren't the entries that the balancers keep.
    Discord(Discord<L>),
    /// A ticket came back to its balancer and wasn't out.
    Stray(SiteStray<L>),
    /// A drill handed out nothing.
    Drill(DrillError),
}

/// How a command of jkd ended.
pub type JkdEnd = EndOf<Brand>;

impl<L> EndOf<L> {
    /// The program's status.
    pub fn status(&self) -> u8
        ensures { result ≡ status_of self.now }
    {
        match self {
            EndOf::Status(status) => *status,
            EndOf::Discord(_) => DIFFERS,
            EndOf::Stray(_) => STRAY,
            EndOf::Drill(error) => error.status(),
        }
    }
}

impl<L> From<CommandEnd<L>> for EndOf<L> {
    ghost use Rattle.std.specs.Prelude.{◌≡◌};
    ghost use Rattle.jk_commands.specs.Ends.{jkd_end};

    ghost from_gives = { λ end ended. ended ≡ jkd_end end };

    fn from(end: CommandEnd<L>) -> EndOf<L> {
        match end {
            CommandEnd::Status(status) => EndOf::Status(status),
            CommandEnd::Discord(discord) => EndOf::Discord(discord),
            CommandEnd::Stray(stray) => EndOf::Stray(stray),
        }
    }
}

impl<L> From<DrillEnd> for EndOf<L> {
    ghost use Rattle.std.specs.Prelude.{◌≡◌};
    ghost use Rattle.jk_commands.specs.Ends.{of_drill};

    ghost from_gives = { λ end ended. ended ≡ of_drill end };

    fn from(end: DrillEnd) -> EndOf<L> {
        match end {
            DrillEnd::Written => EndOf::Status(DONE),
            DrillEnd::OutputFault => EndOf::Status(OUTPUT_FAULT),
            DrillEnd::NoMemory => EndOf::Status(NO_MEMORY),
            DrillEnd::Lacked(error) => EndOf::Drill(error),
        }
    }
}
