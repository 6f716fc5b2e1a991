//! The segments of a text.
ghost use Rattle.std.specs.Prelude.{◌≡◌, ◌≤◌, length, map, reverse, IfOk};
ghost use Rattle.journal_text.specs.Pairs.{IsReadAs, pair_of};
ghost use Rattle.jk_io.specs.declared.whole_input.TheConstants.{MAX_INPUT_BYTES};

use crate::counted::{Counted, CountedList, SegmentList};
use crate::reading::read_counted;
use crate::text_error::TextError;
use jk_io::{Bytes, NoMemory};
use lb_model::Segment;
use std::alloc::Global;

fn segment_of(counted: Counted) -> (Bytes, Segment)
    ensures { result ≡ pair_of counted }
{
    let Counted {
        name,
        segment,
        count: _,
    } = counted;
    (name, segment)
}

// The last one first.
fn segments_of(alloc: Global, counted: CountedList) -> Result<Vec<(Bytes, Segment)>, NoMemory>
    ensures { IfOk result (λ pairs. reverse pairs.items ≡ map pair_of counted) }
{
    let mut counted = counted;
    let mut pairs = Vec::with_capacity(alloc, counted.len())?;
    while let Some(one) = counted.pop() {
        pairs.push(segment_of(one))?;
    }
    Ok(pairs)
}

/// The segments that a text spells, each with the name of its balancer, in order. The counts of their last lines may
/// be wrong, and so may their entries: whether they are is not looked at.
pub fn read_segments(alloc: Global, text: &[u8]) -> Result<SegmentList, TextError>
    requires { length text.now ≤ MAX_INPUT_BYTES }
    ensures read { IsReadAs text.now result }
{
    let counted = read_counted(alloc, text)?;
    let mut pairs = segments_of(alloc, counted)?;
    pairs.reverse();
    Ok(SegmentList::from_vec(pairs))
}
