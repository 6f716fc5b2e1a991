//! Why a journal's text isn't followed any further.
ghost use Rattle.std.specs.Prelude.{◌≡◌, ◌⊎◌, IfOk};
ghost use Rattle.journal_verdict.specs.declared.error.FollowError.TheVariants as Wrong;

use crate::ruling::Ruling;
use jk_io::NoMemory;
use thiserror::Error;

/// Why a journal's text isn't followed any further.
#[derive(Debug, Drop, Error)]
pub enum FollowError {
    /// The line with this number can't be read.
    #[error("line {line}: unreadable")]
    Unreadable {
        line: u64,
    },
    /// The line with this number has something else than it ought to have.
    #[error("bad line {line}")]
    Bad {
        line: u64,
        kept: Ruling,
        ruled: Ruling,
    },
    #[error("out of memory")]
    NoMemory,
}

impl From<NoMemory> for FollowError {
    ghost from_gives = { λ _ e. e ≡ Wrong.NoMemory };

    fn from(_error: NoMemory) -> FollowError {
        FollowError::NoMemory
    }
}

fn copy_ruling(ruling: &Ruling) -> Result<Ruling, NoMemory>
    ensures { IfOk result (λ copy. copy ≡ ruling.now) }
{
    match ruling {
        Ruling::Answer(answer) => Ok(Ruling::Answer(*answer)),
        Ruling::Seq(number) => Ok(Ruling::Seq(*number)),
        Ruling::Moment(at) => Ok(Ruling::Moment(*at)),
        Ruling::Count(count) => Ok(Ruling::Count(*count)),
        Ruling::Line(line) => Ok(Ruling::Line(line.copy()?)),
        Ruling::Stray => Ok(Ruling::Stray),
        Ruling::NotDue => Ok(Ruling::NotDue),
        Ruling::Refused(code) => Ok(Ruling::Refused(*code)),
        Ruling::Full => Ok(Ruling::Full),
    }
}

impl FollowError {
    /// The same again, or want of memory.
    pub(crate) fn again(&self) -> FollowError
        ensures { (result ≡ self.now) ⊎ (result ≡ FollowError.NoMemory) }
    {
        match self {
            FollowError::Unreadable { line } => FollowError::Unreadable { line: *line },
            FollowError::Bad { line, kept, ruled } => bad(*line, kept, ruled),
            FollowError::NoMemory => FollowError::NoMemory,
        }
    }
}

fn bad(line: u64, kept: &Ruling, ruled: &Ruling) -> FollowError
    ensures { (result ≡ FollowError.Bad line kept.now ruled.now) ⊎ (result ≡ FollowError.NoMemory) }
{
    match (copy_ruling(kept), copy_ruling(ruled)) {
        (Ok(kept), Ok(ruled)) => FollowError::Bad { line, kept, ruled },
        _ => FollowError::NoMemory,
    }
}
