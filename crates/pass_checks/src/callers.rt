//! Two callers of one Book: the first chooses and tells the second by a note, the second chooses, and both give back.
ghost use Rattle.std.specs.Prelude.{◌≡◌, [], ◌∷◌, Some};
ghost use Rattle.lb_book.specs.Desks.{pair_of};
ghost use Rattle.lb_book.specs.PlainLeases.{note_of};

use lb_book::desk::Choice;
use lb_book::{Desk, PlainLease};
use lb_model::{Ask, Kind, Outcome, View};
use lb_passes::{PassPlace, PlacedDesk};
use std::sync::Wait;

/// What a fresh session asks.
pub const FRESH: Ask = Ask {
    routed: None,
    fresh: true,
    tried: 0,
    disabled: 0,
    stopped: 0,
};

const DONE: Outcome = Outcome {
    kind: Kind::Done,
    bytes: 0,
};

/// The members that the two chose, and what the second saw after the first gave its ticket back.
#[derive(Drop)]
pub struct Met {
    pub first: u32,
    pub second: u32,
    pub seen: View,
}

/// Gives back the one ticket of a caller.
pub fn give<P: PassPlace, R: Wait>(
    desk: &mut PlacedDesk<'_, '_, P, R>,
    number: u32,
    lease: PlainLease,
)
    requires caller { desk.old.desk.desk.caller ≡ Some number }
    requires held { desk.old.desk.desk.held ≡ pair_of (note_of lease) ∷ [] }
    ensures caller { desk.new.desk.desk.caller ≡ desk.old.desk.desk.caller }
    ensures held { desk.new.desk.desk.held ≡ [] }
{
    let _answer = desk.hand_back(number, 0, lease, DONE);
}

/// The second caller has its turns, and the first gives its ticket back between them.
fn tell_second<P: PassPlace, R: Wait>(
    first: &mut PlacedDesk<'_, '_, P, R>,
    second: &mut PlacedDesk<'_, '_, P, R>,
    lease: PlainLease,
) -> Option<(u32, View)>
    requires first { first.old.desk.desk.caller ≡ Some 0 }
    requires first_held { first.old.desk.desk.held ≡ pair_of (note_of lease) ∷ [] }
    requires second { second.old.desk.desk.caller ≡ Some 1 }
    requires second_held { second.old.desk.desk.held ≡ [] }
    ensures first { (first.new.desk.desk.caller ≡ Some 0) × (first.new.desk.desk.held ≡ []) }
    ensures second { (second.new.desk.desk.caller ≡ Some 1) × (second.new.desk.desk.held ≡ []) }
{
    second.meet(first.note());
    match second.choose(0, 1, 0, &FRESH) {
        Ok(Choice::Chosen { member, lease: own }) => {
            give(first, 0, lease);
            let seen = second.look(0);
            give(second, 1, own);
            Some((member, seen.ok()?))
        }
        Ok(Choice::NoMember | Choice::Forced) => {
            give(first, 0, lease);
            None
        }
        Err(_) => {
            give(first, 0, lease);
            None
        }
    }
}

/// The two callers' turns; none where a call was refused. They hold no ticket before and after.
pub fn meet_by_note<P: PassPlace, R: Wait>(
    first: &mut PlacedDesk<'_, '_, P, R>,
    second: &mut PlacedDesk<'_, '_, P, R>,
) -> Option<Met>
    requires first { (first.old.desk.desk.caller ≡ Some 0) × (first.old.desk.desk.held ≡ []) }
    requires second { (second.old.desk.desk.caller ≡ Some 1) × (second.old.desk.desk.held ≡ []) }
    ensures first { (first.new.desk.desk.caller ≡ Some 0) × (first.new.desk.desk.held ≡ []) }
    ensures second { (second.new.desk.desk.caller ≡ Some 1) × (second.new.desk.desk.held ≡ []) }
{
    match first.choose(0, 0, 0, &FRESH) {
        Ok(Choice::Chosen { member, lease }) => {
            let (told, seen) = tell_second(first, second, lease)?;
            Some(Met {
                first: member,
                second: told,
                seen,
            })
        }
        Ok(Choice::NoMember | Choice::Forced) => None,
        Err(_) => None,
    }
}
