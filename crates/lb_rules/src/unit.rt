//! The unit of a member, by which its requests weigh.
ghost use Rattle.std.specs.Prelude.{◌≡◌, ◌<◌, ◌*◌, ◌/◌, ◌%◌};

/// What one request weighs on a member with this factor: the greater the factor, the less. `lcm` is the least
/// common multiple of all factors of the balancer.
pub fn unit_of(factor: u32, lcm: u32) -> u32
    requires some { 0 < factor }
    requires divides { lcm % factor ≡ 0 }
    ensures value { result ≡ lcm / factor }
    ensures whole { result * factor ≡ lcm }
{
    lcm / factor
}
