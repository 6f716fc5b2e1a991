//! Why a workers.properties is refused.
ghost use Rattle.site_config.specs.Refusals.{code_of, error_of, refusal};
ghost use Rattle.site_config.specs.declared.error.WorkersError.TheVariants as errors;
ghost use Rattle.std.specs.Prelude.{◌≡◌};

use crate::directive::Directive;
use std::alloc::{AllocError, AllocFailed};
use thiserror::Error;

/// What is wrong with a line.
#[derive(Clone, Copy)]
pub enum PropsReason {
    NoEquals,
    BadName,
    UnknownWorker,
    /// This directive doesn't take the value.
    BadValue(Directive),
    /// The value is no number of seconds between two maintenances.
    BadPeriod,
    /// The workers listed there make more balancers than a site may have.
    TooManyBalancers,
    /// A member that is listed there isn't of type ajp13.
    NoAjp13,
    NoMembers,
    TooManyMembers,
    TooWide,
    BadReference,
}

/// A line that is refused, and why.
#[derive(Clone, Copy)]
pub struct PropsRefusal {
    /// From 1.
    pub line: u32,
    pub reason: PropsReason,
}

/// Why lines give no properties or workers.
#[derive(Clone, Copy)]
pub enum WorkersError {
    /// The first refusal.
    Refused(PropsRefusal),
    NoMemory,
}

/// Why there is no configuration.
#[derive(Clone, Copy, Debug, Error)]
pub enum PropsError {
    /// The first refusal, with its line, from 1, and its number: 1 no `=`, 2 a bad name, 3 an unknown worker, 4 a bad
    /// value, 5 no members, 6 too many members, 7 factors whose least common multiple is too wide, 8 a bad reference.
    #[error("line {line}: refusal {code}")]
    Refused { line: u32, code: u8 },
    #[error("out of memory")]
    NoMemory,
}

impl PropsReason {
    /// The number of the refusal.
    pub fn code(self) -> u8
        ensures { result ≡ code_of self }
    {
        match self {
            PropsReason::NoEquals => 1,
            PropsReason::BadName => 2,
            PropsReason::UnknownWorker => 3,
            PropsReason::BadValue(_)
            | PropsReason::BadPeriod
            | PropsReason::TooManyBalancers
            | PropsReason::NoAjp13 => 4,
            PropsReason::NoMembers => 5,
            PropsReason::TooManyMembers => 6,
            PropsReason::TooWide => 7,
            PropsReason::BadReference => 8,
        }
    }
}

/// The refusal of a line for this reason.
pub(crate) fn refusal(line: u32, reason: PropsReason) -> PropsRefusal
    ensures { result ≡ refusal line reason }
{
    PropsRefusal { line, reason }
}

/// The same as an error.
pub fn refused(line: u32, reason: PropsReason) -> WorkersError
    ensures { result ≡ WorkersError.Refused (refusal line reason) }
{
    WorkersError::Refused(refusal(line, reason))
}

impl From<PropsRefusal> for WorkersError {
    ghost from_gives = { λ refusal e. e ≡ errors.Refused refusal };

    fn from(refusal: PropsRefusal) -> WorkersError {
        WorkersError::Refused(refusal)
    }
}

impl From<AllocError> for WorkersError {
    ghost from_gives = { λ _ e. e ≡ errors.NoMemory };

    fn from(_error: AllocError) -> WorkersError {
        WorkersError::NoMemory
    }
}

impl<T: Drop> From<AllocFailed<T>> for WorkersError {
    ghost from_gives = { λ _ e. e ≡ errors.NoMemory };

    fn from(_error: AllocFailed<T>) -> WorkersError {
        WorkersError::NoMemory
    }
}

impl From<jk_io::NoMemory> for WorkersError {
    ghost from_gives = { λ _ e. e ≡ errors.NoMemory };

    fn from(_error: jk_io::NoMemory) -> WorkersError {
        WorkersError::NoMemory
    }
}

impl From<WorkersError> for PropsError {
    ghost from_gives = { λ why e. e ≡ error_of why };

    fn from(error: WorkersError) -> PropsError {
        match error {
            WorkersError::Refused(refusal) => PropsError::Refused {
                line: refusal.line,
                code: refusal.reason.code(),
            },
            WorkersError::NoMemory => PropsError::NoMemory,
        }
    }
}
