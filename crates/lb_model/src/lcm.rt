//! The least common multiple of the members' factors.
ghost use Rattle.std.specs.Prelude.{◌≡◌, ℕ, ◌*◌, ◌<◌, ◌≤◌, ◌^◌, All, IfSome, length};
ghost use Rattle.std.specs.Option.{SomeIff};
ghost use Rattle.std.specs.Int.{IsGcd, ◌∣◌};
ghost use Rattle.lb_model.specs.Multiple.{multiple_of, multiple_of_two};
ghost use Rattle.lb_model.specs.Ranges.{factors_in};

use crate::member::MemberConfig;

const MOST_COMMON: u64 = 4_294_967_295;

// Euclid's algorithm.
fn greatest_divisor(a: u64, b: u64) -> u64
    ensures { IsGcd a b result }
{
    let mut a = a;
    let mut b = b;
    while b != 0 {
        let rest = a % b;
        a = b;
        b = rest;
    }
    a
}

fn common_of_two(a: u32, b: u32) -> u64
    requires above { 0 < b }
    requires some { 0 < a }
    ensures value { result ≡ multiple_of_two a b }
{
    let a = u64::from(a);
    let b = u64::from(b);
    a / greatest_divisor(a, b) * b
}

/// The least common multiple of the factors, 1 where there is none; `None` where it is above 4,294,967,295.
pub fn lcm_of(factors: &[u32]) -> Option<u32>
    requires { All (λ f. 0 < f) factors.now }
    ensures value { SomeIff result (multiple_of factors.now < 2 ^ 32) (multiple_of factors.now) }

    // It is a multiple of each factor, and divides every other one.
    ensures common { IfSome result (λ l. All (λ f. f ∣ l) factors.now) }
    ensures least { IfSome result (λ l. (n : ℕ) → All (λ f. f ∣ n) factors.now → l ∣ n) }
{
    let mut common: u32 = 1;
    for factor in factors {
        let wide = common_of_two(common, *factor);
        if wide > MOST_COMMON {
            return None;
        }
        common = wide as u32;
    }
    Some(common)
}
