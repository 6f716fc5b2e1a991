//! Why the container stops, and what it tells of it.
ghost use Rattle.std.specs.Prelude.{◌≡◌};
ghost use Rattle.ajp_container.specs.Ends.{code_of, end_of};

use jk_io::NoMemory;

/// How a talk with a connector ended.
#[derive(Clone, Copy, Debug, PartialEq, Eq)]
pub enum ContainerEnd {
    /// The bytes ended between packets. `requests` counts those whose End Response was sent whole.
    Closed { requests: u64 },
    /// By an application of `/drop`.
    Dropped,
    /// A read or a write of the link failed.
    LinkFault,
    /// The bytes ended within a packet.
    Truncated,
    /// A packet can't be taken: 1 no packet begins so, 2 it is too long, 3 it is neither CPing nor a Forward Request,
    /// 4 a Forward Request that can't be read, 5 a body packet that can't be read.
    BadPacket { code: u8 },
    NoMemory,
}

/// Why a packet can't be taken.
#[derive(Clone, Copy, Debug)]
pub enum BadPacket {
    Magic,
    TooLong,
    Code,
    Request,
    Piece,
}

/// Why a turn isn't over.
#[derive(Clone, Copy, Debug)]
pub enum Stopped {
    Closed,
    Dropped,
    LinkFault,
    Truncated,
    Bad(BadPacket),
    NoMemory,
}

/// How the talk ends where a turn isn't over, after this many requests.
pub fn end_of(requests: u64, stopped: Stopped) -> ContainerEnd
    ensures { result ≡ end_of requests stopped }
{
    match stopped {
        Stopped::Closed => ContainerEnd::Closed { requests },
        Stopped::Dropped => ContainerEnd::Dropped,
        Stopped::LinkFault => ContainerEnd::LinkFault,
        Stopped::Truncated => ContainerEnd::Truncated,
        Stopped::Bad(bad) => ContainerEnd::BadPacket { code: code_of(bad) },
        Stopped::NoMemory => ContainerEnd::NoMemory,
    }
}

fn code_of(bad: BadPacket) -> u8
    ensures { result ≡ code_of bad }
{
    match bad {
        BadPacket::Magic => 1,
        BadPacket::TooLong => 2,
        BadPacket::Code => 3,
        BadPacket::Request => 4,
        BadPacket::Piece => 5,
    }
}

impl From<NoMemory> for Stopped {
    ghost use Rattle.ajp_container.specs.declared.ends.Stopped.TheVariants as Stop;

    ghost from_gives = { λ _ e. e ≡ Stop.NoMemory };

    fn from(_error: NoMemory) -> Stopped {
        Stopped::NoMemory
    }
}
