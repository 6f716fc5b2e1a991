//! The count of halvings that a maintenance does.
ghost use Rattle.std.specs.Prelude.{◌≡◌, ◌-◌, ◌<◌, ◌≤◌, ◌/◌};

/// How many halvings a maintenance does at the moment `at`: one for each whole interval since the last one.
pub fn halvings(since: u64, at: u64, interval: u64) -> u64
    requires later { since ≤ at }
    requires some { 0 < interval }
    ensures value { result ≡ (at - since) / interval }
{
    (at - since) / interval
}
