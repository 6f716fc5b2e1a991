//! Which reads and writes of a link in memory fail, and where its reads stop short.
ghost use Rattle.std.specs.Prelude.{◌≡◌, ℕ, ◌+◌, ◌<◌, ◌≤◌, ◌==◌, ◌↔◌, IsTrue, EachIndex, slice_index, count_by};

use crate::list_of::NumberList;

/// The plan of a link in memory; no read and no write changes it.
#[derive(Drop)]
pub struct LinkPlan {
    /// The calls that are to fail, numbered from 0 over reads and writes.
    pub failing: NumberList,
    /// For each number here one read fails when exactly that many bytes were given.
    pub reads: NumberList,
    /// For each number here one write fails when exactly that many bytes were taken.
    pub writes: NumberList,
    /// No read goes across any of these numbers of bytes.
    pub cuts: NumberList,
}

/// How many of `want` bytes may go after `done` ones without going across one of the numbers.
pub(crate) fn up_to_next(numbers: &NumberList, done: u64, want: usize) -> usize
    requires { 0 < want }
    ensures some { 0 < result }
    ensures within { result ≤ want }
    ensures across { EachIndex numbers.now (λ k. done < slice_index numbers.now k → done + result ≤ slice_index numbers.now k) }
{
    let mut room = want;
    for number in numbers.as_slice() {
        if *number > done && *number - done < room as u64 {
            room = (*number - done) as usize;
        }
    }
    room
}

/// Whether one more call is to fail after `done` bytes, where `tried` calls failed there.
pub(crate) fn is_due(numbers: &NumberList, done: u64, tried: u64) -> bool
    ensures { IsTrue result ↔ (tried < count_by (λ n. n == done) numbers.now) }
{
    let due = numbers.as_slice().iter().filter(|n| **n == done).count();
    tried < due as u64
}
