//! Where a ticket was made: at a kept entry, whose place is the ticket less the opening's number, or before the
//! opening, whose tickets rise.

ghost use Rattle.std.specs.Prelude.{◌≡◌, ℕ, ◌+◌, ◌-◌, ◌<◌, ◌≤◌, List, length, reverse, true, false, IfSome, IfNone, IfOk, IfErr, OnOk, OnErr, slice_index_or, vec_capacity};
ghost use Rattle.lb_model.specs.Legal.{IsLegal};
ghost use Rattle.lb_model.specs.Tickets.{is_out};
ghost use Rattle.lb_rules.specs.Returns.{AreReturns, IsReturnedAt};
ghost use Rattle.lb_rules.specs.Spots.{chosen_at, AreRising, IsSpot, IsNoSpot, IsPlaced, returned_in, kept_noted, early_noted};

use lb_model::{Answer, Entry, Opening, Stray};

/// Where a ticket was made.
#[derive(Clone, Copy)]
pub enum Spot {
    /// At the kept entry at this place.
    Entry { place: usize },
    /// Before the opening; at this place among its tickets.
    Opening { place: usize },
}

// The member that the entry at this place chose.
fn chosen_at(entries: &[Entry], place: usize) -> Option<u32>
    ensures { result ≡ chosen_at entries.now place }
{
    match entries.get(place)?.answer {
        Answer::Chosen { member, .. } => Some(member),
        Answer::NoMember | Answer::Forced | Answer::Done => None,
    }
}

// The place of this ticket among rising ones.
fn place_of(tickets: &[(u64, u32)], ticket: u64) -> Option<usize>
    requires { AreRising tickets.now }
    ensures found { IfSome result (λ i. (i < length tickets.now) × ((d : ℕ × ℕ) → (slice_index_or tickets.now i d).0 ≡ ticket)) }
    ensures none { IfNone result ((i : ℕ) (d : ℕ × ℕ) → i < length tickets.now → (slice_index_or tickets.now i d).0 ≡ ticket → ⊥) }
{
    let mut low = 0;
    let mut high = tickets.len();
    while low < high {
        let middle = low + (high - low) / 2;
        let here = tickets[middle].0;
        if here == ticket {
            return Some(middle);
        }
        if here < ticket {
            low = middle + 1;
        } else {
            high = middle;
        }
    }
    None
}

/// Where the ticket was made, and on which member.
pub fn find(opening: &Opening, entries: &[Entry], ticket: u64) -> Option<(Spot, u32)>
    requires { AreRising opening.now.out }
    ensures found { IfSome result (λ x. IsSpot opening.now entries.now ticket x.1 x.0) }
    ensures none { IfNone result (IsNoSpot opening.now entries.now ticket) }
{
    if ticket >= opening.next {
        let place = (ticket - opening.next) as usize;
        let member = chosen_at(entries, place)?;
        return Some((Spot::Entry { place }, member));
    }
    let tickets = opening.out.as_slice();
    let place = place_of(tickets, ticket)?;
    Some((Spot::Opening { place }, tickets[place].1))
}

/// The number of the entry that returned the ticket of this spot, by the tables of those numbers.
pub fn returned_at(spot: Spot, kept: &[Option<u64>], early: &[Option<u64>]) -> Option<u64>
    requires { IsPlaced spot kept.now early.now }
    ensures { result ≡ returned_in kept.now early.now spot }
{
    match spot {
        Spot::Entry { place } => kept[place],
        Spot::Opening { place } => early[place],
    }
}

/// Notes that the ticket of this spot came back with this entry.
pub fn note_return(
    spot: Spot,
    number: u64,
    kept: &mut Vec<Option<u64>>,
    early: &mut Vec<Option<u64>>,
)
    requires { IsPlaced spot kept.old.items early.old.items }
    ensures kept { kept.new.items ≡ kept_noted spot number kept.old.items }
    ensures early { early.new.items ≡ early_noted spot number early.old.items }
    ensures room { vec_capacity kept.new ≡ vec_capacity kept.old }
    ensures early_room { vec_capacity early.new ≡ vec_capacity early.old }
{
    match spot {
        Spot::Entry { place } => kept[place] = Some(number),
        Spot::Opening { place } => early[place] = Some(number),
    }
}

/// Where the ticket was made and on which member, if it is out.
pub fn locate(
    opening: &Opening,
    entries: &[Entry],
    kept: &[Option<u64>],
    early: &[Option<u64>],
    ticket: u64,
) -> Result<(Spot, u32), Stray>
    requires rising { AreRising opening.now.out }
    requires returns { AreReturns opening.now (reverse entries.now) kept.now early.now }
    ensures spot { IfOk result (λ x. IsSpot opening.now entries.now ticket x.1 x.0) }
    ensures out { (v : ℕ) → IsLegal v opening.now entries.now → OnOk result (is_out opening.now (reverse entries.now) ticket ≡ true) }
    ensures ticket { IfErr result (λ stray. stray.ticket ≡ ticket) }
    ensures returned { (v : ℕ) → IsLegal v opening.now entries.now
        → IfErr result (λ stray. IsReturnedAt (reverse entries.now) ticket stray.returned_at) }
    ensures stray { (v : ℕ) → IsLegal v opening.now entries.now → OnErr result (is_out opening.now (reverse entries.now) ticket ≡ false) }
{
    let Some((spot, member)) = find(opening, entries, ticket) else {
        return Err(Stray {
            ticket,
            returned_at: None,
        });
    };
    match returned_at(spot, kept, early) {
        None => Ok((spot, member)),
        Some(number) => Err(Stray {
            ticket,
            returned_at: Some(number),
        }),
    }
}
