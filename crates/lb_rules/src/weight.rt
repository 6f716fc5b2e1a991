//! The weight of a member in a choice, and as it is kept: the loads are halved only when they are looked at.

ghost use Rattle.std.specs.Prelude.{◌≡◌, ◌≤◌, ◌<◌, length, map, slice_index_or};
ghost use Rattle.lb_model.specs.Choice.{is_before_by};
ghost use Rattle.lb_rules.specs.Kept.{AreStamped, weight_now, weights_now, settled};
ghost use Rattle.lb_rules.specs.Weights.{weights_halved};

use lb_model::halve;

/// What a member weighs in a choice: the nearer goes first, of equally near ones the less loaded.
#[derive(Clone, Copy, PartialEq, Eq)]
pub struct Weight {
    pub distance: u32,
    pub load: u128,
}

/// A weight as it was put, and how many halvings of all loads there had been by then.
#[derive(Clone, Copy)]
pub(crate) struct KeptWeight {
    pub(crate) distance: u32,
    pub(crate) load: u128,
    pub(crate) stamp: u64,
}

// The weight where there have been this many halvings by now.
fn weight_now(kept: &KeptWeight, halvings: u64) -> Weight
    ensures { result ≡ weight_now halvings kept.now }
{
    Weight {
        distance: kept.distance,
        load: halve(kept.load, halvings.saturating_sub(kept.stamp)),
    }
}

/// The weight of member `i` where there have been this many halvings by now.
pub(crate) fn weight_at(kept: &[KeptWeight], halvings: u64, i: usize) -> Weight
    requires { i < length kept.now }
    ensures { (d : Weight) → result ≡ slice_index_or (weights_now halvings kept.now) i d }
{
    weight_now(&kept[i], halvings)
}

fn settle_one(kept: &mut KeptWeight, halvings: u64)
    ensures { kept.new ≡ settled halvings kept.old }
{
    let Weight { distance, load } = weight_now(kept, halvings);
    *kept = KeptWeight {
        distance,
        load,
        stamp: 0,
    };
}

// Brings all loads up to date, so that the count of halvings may begin anew at 0.
fn settle(kept: &mut [KeptWeight], halvings: u64)
    ensures { kept.new ≡ map (settled halvings) kept.old }
{
    for one in kept.iter_mut() {
        settle_one(one, halvings);
    }
}

/// Halves all loads this many times more, and answers the count of halvings from now on. The weights change only where the
/// count would be no u64.
pub(crate) fn halve_more(kept: &mut [KeptWeight], halvings: u64, times: u64) -> u64
    requires { AreStamped halvings kept.old }
    ensures weights { weights_now result kept.new ≡ weights_halved times (weights_now halvings kept.old) }
    ensures stamped { AreStamped result kept.new }
    ensures len { length kept.new ≡ length kept.old }
{
    let fits = times <= u64::MAX - halvings;
    if fits {
        halvings + times
    } else {
        settle(kept, halvings);
        times
    }
}

/// The lighter goes first, of equal ones the earlier in turn.
pub(crate) fn goes_before(a: Weight, a_place: usize, b: Weight, b_place: usize) -> bool
    ensures { result ≡ is_before_by a.distance a.load a_place b.distance b.load b_place }
{
    a.distance < b.distance
        || (a.distance == b.distance
            && (a.load < b.load || (a.load == b.load && a_place < b_place)))
}
