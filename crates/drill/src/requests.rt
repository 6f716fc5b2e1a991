//! The requests of a drill, and those of one thread in its order.
ghost use Rattle.std.specs.Prelude.{◌≡◌, ◌/◌, ◌^◌, ◌<◌, ◌++◌, ◌∷◌, [], ◌↔◌, ℕ, length, take, drop, IfOk, IfSome, IfNone, IsTrue, OnOk};
ghost use Rattle.drill.specs.Requests.{following as following_of, request_text, requests_of, size_at, texts_of};
ghost use Rattle.drill.specs.declared.requests.TheConstants.{SIZE_LIMIT};

use crate::plan::Plan;
use jk_io::{Bytes, NoMemory, put_decimal};
use std::alloc::Global;
use std::marker::Model;

/// The most requests of a session.
pub(crate) const MAX_SESSION_REQUESTS: usize = 1_000;

/// The size of a body is below this.
const SIZE_LIMIT: u64 = 1_024;

const FACTOR: u128 = 6_364_136_223_846_793_005;

const STEP: u128 = 1_442_695_040_888_963_407;

/// The number after this one.
pub(crate) fn following(x: u64) -> u64
    ensures { result ≡ following_of x }
{
    ((FACTOR * u128::from(x) + STEP) % (1 << 64)) as u64
}

/// The size that a number gives.
pub(crate) fn size_of(x: u64) -> u64
    ensures value { result ≡ x / 2 ^ 54 }
    ensures few { result < SIZE_LIMIT }
{
    x >> 54
}

/// Adds a request for a body of this size.
fn put_request(out: &mut Bytes, size: u64) -> Result<(), NoMemory>
    ensures { OnOk result (out.new ≡ out.old ++ request_text size) }
{
    out.extend(b"GET /size/")?;
    put_decimal(out, u128::from(size))?;
    out.extend(b" HTTP/1.1\r\nHost: drill\r\n\r\n")
}

/// The requests that a thread has still to make. A contract sees their numbers.
#[derive(Drop)]
pub(crate) struct Requests {
    plan: Plan,
    thread: u32,
    /// The first request of all threads that was not looked at.
    next: u32,
    /// The number before that of request `next`.
    number: u64,
}

impl Model for Requests {
    ghost use Rattle.std.specs.Prelude.{◌≡◌, ◌-◌, ◌≤◌};
    ghost use Rattle.drill.specs.Requests.{number_at, requests_from};
    ghost use Rattle.drill.specs.Requests.{RequestsState};

    ghost Value = { RequestsState };

    ghost view = { λ r. record { seed = r.plan.seed; left = requests_from r.plan.threads r.thread r.next (r.plan.requests - r.next) } };

    ghost invariant = { λ r. (r.next ≤ r.plan.requests) × (r.number ≡ number_at r.plan.seed r.next) };
}

impl Requests {
    /// All requests of a thread.
    pub(crate) fn new(plan: Plan, thread: u32) -> Requests
        ensures seed { result.seed ≡ plan.seed }
        ensures left { result.left ≡ requests_of plan.threads plan.requests thread }
    {
        Requests {
            plan,
            thread,
            next: 0,
            number: plan.seed,
        }
    }

    /// Takes the next request, and gives its size.
    fn next_size(&mut self) -> Option<u64>
        ensures some { IfSome result (λ size. (i : ℕ) × (self.old.left ≡ i ∷ self.new.left) × (size ≡ size_at self.old.seed i)) }
        ensures none { IfNone result ((self.old.left ≡ []) × (self.new.left ≡ [])) }
        ensures seed { self.new.seed ≡ self.old.seed }
    {
        'requests: while self.next < self.plan.requests {
            let mine = self.next % self.plan.threads == self.thread;
            self.next += 1;
            self.number = following(self.number);
            if mine {
                return Some(size_of(self.number));
            }
        }
        None
    }

    /// Takes the requests of the next session, at most 1,000, and adds their text. Says whether there was one.
    pub(crate) fn put_session(&mut self, text: &mut Bytes) -> Result<bool, NoMemory>
        ensures ok { IfOk result (λ some. (text.new ≡ text.old ++ texts_of self.old.seed (take MAX_SESSION_REQUESTS self.old.left))
            × (self.new.left ≡ drop MAX_SESSION_REQUESTS self.old.left)) }
        ensures some { IfOk result (λ some. IsTrue some ↔ (0 < length self.old.left)) }
        ensures seed { self.new.seed ≡ self.old.seed }
    {
        let mut some = false;
        'requests: for _ in 0..MAX_SESSION_REQUESTS {
            let Some(size) = self.next_size() else {
                return Ok(some);
            };
            put_request(text, size)?;
            some = true;
        }
        Ok(some)
    }
}
