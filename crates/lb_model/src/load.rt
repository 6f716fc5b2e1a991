//! Halvings of a load.
ghost use Rattle.std.specs.Prelude.{◌≡◌, ◌/◌, ◌^◌};

/// A load after `times` halvings, rounded down.
pub fn halve(load: u128, times: u64) -> u128
    ensures value { result ≡ load / 2 ^ times }
{
    if times < 128 { load >> times } else { 0 }
}
