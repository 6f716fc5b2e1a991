//! The least of the members that an ask may be given to.

ghost use Rattle.std.specs.Prelude.{◌≡◌, ◌+◌, ◌<◌, ◌≤◌, length};
ghost use Rattle.std.specs.Option.{ForSome};
ghost use Rattle.lb_model.specs.Choice.{is_before_by, place_from};
ghost use Rattle.lb_rules.specs.Least.{IsLeastOf, improves};
ghost use Rattle.lb_rules.specs.declared.standing.Standing.{Standing};
ghost use Rattle.lb_model.specs.declared.config.TheConstants.{MAX_MEMBERS};

use crate::among::{Among, passes};
use crate::standing::Standing;
use lb_model::Ask;

// A member's place in the cyclic order that begins with `begin`.
pub(crate) fn place_from(count: usize, begin: usize, member: usize) -> usize
    requires few { count ≤ MAX_MEMBERS }
    requires within { member < MAX_MEMBERS }
    ensures { result ≡ place_from count begin member }
{
    if member < begin {
        member + count
    } else {
        member
    }
}

// The nearer goes first, of equally near ones the less loaded, of those the earlier in turn.
fn is_before(a: &Standing, a_place: usize, b: &Standing, b_place: usize) -> bool
    ensures { result ≡ is_before_by a.now.distance a.now.load a_place b.now.distance b.now.load b_place }
{
    a.distance < b.distance
        || (a.distance == b.distance
            && (a.load < b.load || (a.load == b.load && a_place < b_place)))
}

// Row i goes before the best so far, or there is none yet.
fn improves(rows: &[Standing], begin: usize, i: usize, best: Option<usize>) -> bool
    requires few { length rows.now ≤ MAX_MEMBERS }
    requires within { i < length rows.now }
    requires best { ForSome best (λ b. b < length rows.now) }
    ensures { (d : Standing) → result ≡ improves rows.now begin i d best }
{
    match best {
        None => true,
        Some(b) => is_before(
            &rows[i],
            place_from(rows.len(), begin, i),
            &rows[b],
            place_from(rows.len(), begin, b),
        ),
    }
}

// The least of the first i + 1 rows, where `best` is that of the first i.
fn least_with(
    among: Among,
    rows: &[Standing],
    ask: &Ask,
    begin: usize,
    i: usize,
    best: Option<usize>,
) -> Option<usize>
    requires few { length rows.now ≤ MAX_MEMBERS }
    requires within { i < length rows.now }
    requires best { IsLeastOf among rows.now ask.now begin i best }
    ensures { IsLeastOf among rows.now ask.now begin (i + 1) result }
{
    if !passes(among, &rows[i], ask, i) {
        return best;
    }
    if improves(rows, begin, i, best) {
        Some(i)
    } else {
        best
    }
}

/// The least of those rows, in the order that begins with row `begin`; `None` where there is none.
pub(crate) fn least(among: Among, rows: &[Standing], ask: &Ask, begin: usize) -> Option<usize>
    requires { length rows.now ≤ MAX_MEMBERS }
    ensures value { IsLeastOf among rows.now ask.now begin (length rows.now) result }
{
    let mut best: Option<usize> = None;
    for i in 0..rows.len() {
        best = least_with(among, rows, ask, begin, i, best);
    }
    best
}
