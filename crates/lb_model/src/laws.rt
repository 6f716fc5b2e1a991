//! Laws of the definitions, as functions without a body.
//!
//! A past is written oldest first, as a journal keeps it. `rules` is 1 or 2.
ghost use Rattle.std.specs.Prelude.{◌≡◌, ℕ, Bool, ◌+◌, ◌<◌, ◌≤◌, ◌==◌, ◌&&◌, length, true, false, ◌∷◌, ◌++◌, reverse, sum_by};
ghost use Rattle.std.specs.List.{list_any};
ghost use Rattle.lb_model.specs.Choice.{IsPick};
ghost use Rattle.lb_model.specs.Journal.{members, next_of};
ghost use Rattle.lb_model.specs.Laws.{BeginsTicket, HalvesLoads, IsGoodChoice, MayBeChosen};
ghost use Rattle.lb_model.specs.Legal.{IsLegal, IsLegalPast};
ghost use Rattle.lb_model.specs.Limits.{most_numbers};
ghost use Rattle.lb_model.specs.Loads.{epoch, halved, units_by, units_of};
ghost use Rattle.lb_model.specs.Settings.{pool_of};
ghost use Rattle.lb_model.specs.States.{state_of};
ghost use Rattle.lb_model.specs.Tickets.{busy_of, gives_back, is_out, out};
ghost use Rattle.lb_model.specs.Touches.{Untouched, gives, touches};

use crate::ask::Ask;
use crate::journal::{Answer, Call, Entry, How};
use crate::member::Method;
use crate::opening::Opening;
use crate::state::MemberState;

/// A sticky or redirected choice serves; a balanced one is the least of the usable members, or of the revived ones.
/// A member in Probe is never chosen, one in Error only where no member is usable.
pub fn choice_is_good(rules: u8, opening: &Opening, past: &[Entry], ask: &Ask, answer: Answer)
    requires { IsPick rules opening.now (reverse past.now) ask.now answer }
    ensures good { (m t : ℕ) (how : How) (p : Bool) → answer ≡ Answer.Chosen m t how p
        → IsGoodChoice rules opening.now (reverse past.now) ask.now how m }
    ensures state { (m t : ℕ) (how : How) (p : Bool) → answer ≡ Answer.Chosen m t how p
        → MayBeChosen rules opening.now (reverse past.now) ask.now (state_of rules opening.now (reverse past.now) m) }
{}

/// A ticket is out from the entry on that makes it.
pub fn ticket_begins(rules: u8, opening: &Opening, past: &[Entry], entry: &Entry)
    requires { IsLegalPast rules opening.now (entry.now ∷ reverse past.now) }
    ensures { (m t : ℕ) (how : How) (p : Bool) → entry.now.answer ≡ Answer.Chosen m t how p
        → BeginsTicket opening.now (reverse past.now) entry.now m }
{}

/// A ticket stays out through every entry that doesn't return it, and after its Return it is never out again.
pub fn ticket_ends(opening: &Opening, past: &[Entry], entry: &Entry, later: &[Entry], ticket: u64)
    ensures stays { is_out opening.now (reverse past.now) ticket ≡ true → gives_back ticket entry.now.call ≡ false
        → is_out opening.now (entry.now ∷ reverse past.now) ticket ≡ true }
    ensures ends { gives_back ticket entry.now.call ≡ true
        → is_out opening.now (reverse later.now ++ entry.now ∷ reverse past.now) ticket ≡ false }
{}

/// The state of a member is what the last entry that touches it gives.
pub fn state_is_the_last_touch(
    rules: u8,
    opening: &Opening,
    past: &[Entry],
    entry: &Entry,
    later: &[Entry],
    member: u32,
)
    requires legal { IsLegalPast rules opening.now (reverse later.now ++ entry.now ∷ reverse past.now) }
    requires untouched { Untouched rules opening.now (reverse later.now) (entry.now ∷ reverse past.now) member }
    requires touched { touches rules opening.now (reverse past.now) entry.now entry.now.call member ≡ true }
    ensures { state_of rules opening.now (reverse later.now ++ entry.now ∷ reverse past.now) member
        ≡ gives opening.now entry.now entry.now.call member }
{}

/// After a maintenance the loads are the halved ones, and a member that it recovers has the greatest of them.
pub fn maintenance_halves(rules: u8, opening: &Opening, past: &[Entry], entry: &Entry)
    requires kept { opening.now.config.method ≡ Method.Busyness → ⊥ }
    requires maintain { entry.now.call ≡ Call.Maintain }
    ensures { HalvesLoads rules opening.now (reverse past.now) entry.now }
{}

/// What an epoch gave is the sum of what its entries gave, each Return's member read in the whole history.
pub fn epoch_adds_up(rules: u8, opening: &Opening, past: &[Entry], member: u32)
    requires { IsLegal rules opening.now past.now }
    ensures { units_of opening.now (reverse past.now) member
        ≡ sum_by (λ e. units_by opening.now (reverse past.now) e e.call member) (epoch (reverse past.now)) }
{}

/// Bounds of every legal history: no member has more tickets out than its pool, a trial's ticket is out on its
/// member, and a number is left for each Return.
pub fn history_is_bounded(rules: u8, opening: &Opening, past: &[Entry], member: u32)
    requires legal { IsLegal rules opening.now past.now }
    requires member { member < members opening.now }
    ensures busy { busy_of opening.now (reverse past.now) member ≤ pool_of opening.now member }
    ensures trial { (t : ℕ) → state_of rules opening.now (reverse past.now) member ≡ MemberState.Probe t
        → list_any (λ x. (x.0 == t) && (x.1 == member)) (out opening.now (reverse past.now)) ≡ true }
    ensures room { next_of opening.now (reverse past.now) + length (out opening.now (reverse past.now)) ≤ most_numbers }
{}

/// Halving twice is halving by the sum, and halving keeps order.
pub fn halving_adds(load: u128, other: u128, first: u64, second: u64)
    ensures twice { halved (halved load first) second ≡ halved load (first + second) }
    ensures order { load ≤ other → halved load first ≤ halved other first }
{}
