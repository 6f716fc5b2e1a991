//! The index: the members by their weights, asked for the least of a set of them.

ghost use Rattle.std.specs.Prelude.{◌≡◌, ◌+◌, ◌<◌, ◌≤◌, length};
ghost use Rattle.std.specs.Option.{ForSome};
ghost use Rattle.lb_model.specs.declared.config.TheConstants.{MAX_MEMBERS};
ghost use Rattle.lb_rules.specs.Kept.{weights_now};
ghost use Rattle.lb_rules.specs.Weights.{IsLightest, lightens};
ghost use Rattle.lb_rules.specs.declared.weight.Weight.{Weight};

use crate::among::is_in;
use crate::choice::begin_after;
use crate::least::place_from;
use crate::weight::{KeptWeight, Weight, goes_before, halve_more, weight_at};
use jk_io::NoMemory;
use std::alloc::Global;
use std::marker::Model;

// Member i goes before the best so far, or there is none yet.
#[tactic(auto, using(crate::proofs::IndexLaws::weights_length))]
fn lightens(kept: &[KeptWeight], halvings: u64, begin: usize, i: usize, best: Option<u32>) -> bool
    requires few { length kept.now ≤ MAX_MEMBERS }
    requires within { i < length kept.now }
    requires best { ForSome best (λ b. b < length kept.now) }
    ensures { (d : Weight) → result ≡ lightens (weights_now halvings kept.now) d begin i best }
{
    let Some(b) = best else {
        return true;
    };
    goes_before(
        weight_at(kept, halvings, i),
        place_from(kept.len(), begin, i),
        weight_at(kept, halvings, b as usize),
        place_from(kept.len(), begin, b as usize),
    )
}

// The lightest of the set among the first i + 1 members, where `best` is that of the first i.
fn lightest_with(
    kept: &[KeptWeight],
    halvings: u64,
    set: u64,
    begin: usize,
    i: usize,
    best: Option<u32>,
) -> Option<u32>
    requires few { length kept.now ≤ MAX_MEMBERS }
    requires within { i < length kept.now }
    requires best { (d : Weight) → IsLightest (weights_now halvings kept.now) d set begin i best }
    ensures { (d : Weight) → IsLightest (weights_now halvings kept.now) d set begin (i + 1) result }
{
    if !is_in(set, i) {
        return best;
    }
    if lightens(kept, halvings, begin, i, best) {
        Some(i as u32)
    } else {
        best
    }
}

fn lightest(kept: &[KeptWeight], halvings: u64, set: u64, begin: usize) -> Option<u32>
    requires { length kept.now ≤ MAX_MEMBERS }
    ensures { (d : Weight) → IsLightest (weights_now halvings kept.now) d set begin (length kept.now) result }
{
    let mut best: Option<u32> = None;
    for i in 0..kept.len() {
        best = lightest_with(kept, halvings, set, begin, i, best);
    }
    best
}

/// The members of a balancer by their weights.
#[derive(Drop)]
pub struct Index {
    kept: Vec<KeptWeight>,
    /// How often all loads were halved.
    halvings: u64,
}

impl Model for Index {
    ghost use Rattle.std.specs.Prelude.{List, length, ◌≤◌};
    ghost use Rattle.lb_rules.specs.Kept.{AreStamped, weights_now};
    ghost use Rattle.lb_rules.specs.declared.weight.Weight.{Weight};
    ghost use Rattle.lb_model.specs.declared.config.TheConstants.{MAX_MEMBERS};

    ghost Value = { List Weight };

    ghost view = { λ x. weights_now x.halvings x.kept.items };

    ghost invariant = { λ x. (length x.kept.items ≤ MAX_MEMBERS) × AreStamped x.halvings x.kept.items };
}

impl Index {
    ghost use Rattle.std.specs.Prelude.{◌≡◌, ◌<◌, ◌≤◌, length, slice_set, IfOk};
    ghost use Rattle.lb_rules.specs.Weights.{IsLeastOfSet, no_weights, weights_halved};
    ghost use Rattle.lb_rules.specs.declared.weight.Weight.{Weight};
    ghost use Rattle.lb_model.specs.declared.config.TheConstants.{MAX_MEMBERS};

    /// Members that are all equally near and have no load.
    #[tactic(auto, using(crate::proofs::IndexLaws::none_now, crate::proofs::IndexLaws::none_stamped))]
    pub fn new(alloc: Global, count: u32) -> Result<Index, NoMemory>
        requires { count ≤ MAX_MEMBERS }
        ensures { IfOk result (λ index. index ≡ no_weights count) }
    {
        let none = KeptWeight {
            distance: 0,
            load: 0,
            stamp: 0,
        };
        Ok(Index {
            kept: vec![in alloc; none; count as usize]?,
            halvings: 0,
        })
    }

    /// How many members it has.
    #[tactic(auto, using(crate::proofs::IndexLaws::weights_length))]
    pub fn len(&self) -> usize
        ensures { result ≡ length self.now }
    {
        self.kept.len()
    }

    /// Gives a member this weight.
    #[tactic(auto, using(crate::proofs::IndexLaws::put_now, crate::proofs::IndexLaws::put_stamped))]
    pub fn put(&mut self, member: u32, distance: u32, load: u128)
        requires { member < length self.old }
        ensures { self.new ≡ slice_set self.old member (record { distance = distance; load = load }) }
    {
        self.kept[member as usize] = KeptWeight {
            distance,
            load,
            stamp: self.halvings,
        };
    }

    /// Halves all loads this many times. It changes one number, and the loads only where that would be no u64.
    pub fn halve_all(&mut self, times: u64)
        ensures { self.new ≡ weights_halved times self.old }
    {
        let sum = halve_more(self.kept.as_mut_slice(), self.halvings, times);
        self.halvings = sum;
    }

    /// The least of a set of members: the nearest, of equally near ones the one with the least load, of equal ones the
    /// first in turn, where `after` was chosen last. None exactly where the set has no member.
    #[tactic(auto, using(crate::proofs::IndexLaws::weights_length))]
    pub fn least(&self, set: u64, after: Option<u32>) -> Option<u32>
        ensures { (d : Weight) → IsLeastOfSet self.now d set after result }
    {
        lightest(self.kept.as_slice(), self.halvings, set, begin_after(after))
    }
}
