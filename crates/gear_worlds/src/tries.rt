//! For how long a file that can't be written is tried again.
ghost use Rattle.std.specs.Prelude.{◌≡◌, IsSome, None};

use crate::trouble::Trouble;

/// The milliseconds for which it is tried to write.
const TRY_MILLIS: u64 = 60_000;

/// The milliseconds between two tries.
pub(crate) const APART_MILLIS: i32 = 500;

/// For how many milliseconds it is tried to write a file: a minute, and only once after one couldn't be written.
pub(crate) fn patience(trouble: Option<&Trouble>) -> u64
    ensures first { trouble.entry ≡ None → result ≡ 60000 }
    ensures later { IsSome trouble.entry → result ≡ 0 }
{
    match trouble {
        None => TRY_MILLIS,
        Some(_) => 0,
    }
}
