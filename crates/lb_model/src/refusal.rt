//! Refusals of a Book, and strays.
use jk_io::NoMemory;
use std::alloc::AllocError;
use thiserror::Error;

/// The numbers of a Book that has no number left.
#[derive(Clone, Copy, PartialEq, Eq)]
pub struct FullMark {
    /// The number of its next entry.
    pub next: u64,
    /// Its tickets that are out.
    pub out: u64,
}

/// Why an entry isn't added; `M` tells where there was no number left.
#[derive(Debug, PartialEq, Eq, Drop, Error)]
pub enum RoomError<M> {
    #[error("the journal has no number left")]
    Full(M),
    #[error("out of memory")]
    NoMemory,
}

/// Why a command isn't done; `M` tells which Book refused it.
#[derive(Debug, PartialEq, Eq, Drop, Error)]
pub enum AdminError<M> {
    #[error("there is no such member")]
    UnknownMember,
    #[error("a value is out of range, or a member redirects to itself")]
    BadValue,
    #[error("the least common multiple of the factors would be above 4294967295")]
    TooWide(M),
    #[error("the journal has no number left")]
    Full(M),
    #[error("out of memory")]
    NoMemory,
}

/// A ticket that came back and isn't out.
#[derive(Clone, Copy, Debug, PartialEq, Eq, Error)]
#[error("ticket {ticket} is not open")]
pub struct Stray {
    pub ticket: u64,
    /// The number of the kept entry that returned it, if there is one.
    pub returned_at: Option<u64>,
}

impl<M> From<NoMemory> for RoomError<M> {
    ghost use Rattle.std.specs.Prelude.{◌≡◌};
    ghost use Rattle.lb_model.specs.declared.refusal.RoomError.TheVariants as Room;

    ghost from_gives = { λ _ e. e ≡ Room.NoMemory };

    fn from(_error: NoMemory) -> RoomError<M> {
        RoomError::NoMemory
    }
}

impl<M> From<AllocError> for RoomError<M> {
    ghost use Rattle.std.specs.Prelude.{◌≡◌};
    ghost use Rattle.lb_model.specs.declared.refusal.RoomError.TheVariants as Room;

    ghost from_gives = { λ _ e. e ≡ Room.NoMemory };

    fn from(_error: AllocError) -> RoomError<M> {
        RoomError::NoMemory
    }
}

impl<M> From<NoMemory> for AdminError<M> {
    ghost use Rattle.std.specs.Prelude.{◌≡◌};
    ghost use Rattle.lb_model.specs.declared.refusal.AdminError.TheVariants as Admin;

    ghost from_gives = { λ _ e. e ≡ Admin.NoMemory };

    fn from(_error: NoMemory) -> AdminError<M> {
        AdminError::NoMemory
    }
}

impl<M> From<AllocError> for AdminError<M> {
    ghost use Rattle.std.specs.Prelude.{◌≡◌};
    ghost use Rattle.lb_model.specs.declared.refusal.AdminError.TheVariants as Admin;

    ghost from_gives = { λ _ e. e ≡ Admin.NoMemory };

    fn from(_error: AllocError) -> AdminError<M> {
        AdminError::NoMemory
    }
}
