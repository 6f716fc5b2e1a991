//! A law of the least common multiple of the members' factors.
ghost use Rattle.std.specs.Prelude.{◌↔◌, ℕ, ◌<◌, ◌≤◌, ◌^◌, All, IfSome, IsNone};
ghost use Rattle.lb_book.specs.Multiples.{IsCommon, IsLeastCommon};

use lb_model::lcm_of;

/// The answer of `lcm_of`, by the divisors alone: the least common multiple, and none exactly where every common multiple
/// is 2^32 or more.
pub fn least_common(factors: &[u32]) -> Option<u32>
    requires { All (λ f. 0 < f) factors.now }
    ensures some { IfSome result (IsLeastCommon factors.now) }
    ensures none { IsNone result ↔ ((n : ℕ) → IsCommon factors.now n → 2 ^ 32 ≤ n) }
{
    lcm_of(factors)
}
