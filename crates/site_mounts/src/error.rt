//! Why a uriworkermap.properties is refused.
ghost use Rattle.std.specs.Prelude.{◌≡◌};
ghost use Rattle.site_mounts.specs.Refusals.{code_of, error_of, refusal};
ghost use Rattle.site_mounts.specs.declared.error.RulesError.TheVariants as errors;

use std::alloc::{AllocError, AllocFailed};
use thiserror::Error;

/// What is wrong with a line.
#[derive(Clone, Copy)]
pub enum MapReason {
    /// It has no `=`, its pattern doesn't begin with `/`, or has more than one `|`.
    BadPattern,
    /// The worker isn't listed.
    UnknownWorker,
    /// A part after the worker has no `=`, a bad truth value, or a name that is no member's.
    BadExtension,
}

/// A line that is refused, and why.
#[derive(Clone, Copy)]
pub struct MapRefusal {
    /// From 1.
    pub line: u32,
    pub reason: MapReason,
}

/// Why lines give no rules.
#[derive(Clone, Copy)]
pub enum RulesError {
    /// The first refusal.
    Refused(MapRefusal),
    NoMemory,
}

/// Why there is no map.
#[derive(Clone, Copy, Debug, Error)]
pub enum MapError {
    /// The first refusal, with its line, from 1, and its number: 1 a bad pattern, 2 an unknown worker, 3 a bad extension.
    #[error("line {line}: refusal {code}")]
    Refused { line: u32, code: u8 },
    #[error("out of memory")]
    NoMemory,
}

impl MapReason {
    /// The number of the refusal.
    pub fn code(self) -> u8
        ensures { result ≡ code_of self }
    {
        match self {
            MapReason::BadPattern => 1,
            MapReason::UnknownWorker => 2,
            MapReason::BadExtension => 3,
        }
    }
}

/// The refusal of a line.
pub(crate) fn refused(line: u32, reason: MapReason) -> RulesError
    ensures { result ≡ RulesError.Refused (refusal line reason) }
{
    RulesError::Refused(MapRefusal { line, reason })
}

impl From<AllocError> for RulesError {
    ghost from_gives = { λ _ e. e ≡ errors.NoMemory };

    fn from(_error: AllocError) -> RulesError {
        RulesError::NoMemory
    }
}

impl<T: Drop> From<AllocFailed<T>> for RulesError {
    ghost from_gives = { λ _ e. e ≡ errors.NoMemory };

    fn from(_error: AllocFailed<T>) -> RulesError {
        RulesError::NoMemory
    }
}

impl From<jk_io::NoMemory> for RulesError {
    ghost from_gives = { λ _ e. e ≡ errors.NoMemory };

    fn from(_error: jk_io::NoMemory) -> RulesError {
        RulesError::NoMemory
    }
}

impl From<RulesError> for MapError {
    ghost from_gives = { λ why e. e ≡ error_of why };

    fn from(error: RulesError) -> MapError {
        match error {
            RulesError::Refused(refusal) => MapError::Refused {
                line: refusal.line,
                code: refusal.reason.code(),
            },
            RulesError::NoMemory => MapError::NoMemory,
        }
    }
}
