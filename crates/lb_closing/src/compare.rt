//! The first place at which two lists of entries differ.
ghost use Rattle.std.specs.Prelude.{◌≡◌, ◌↔◌, ◌+◌, ◌*◌, ◌^◌, false, true, slice_get, IfSome, IfNone, OnOk};
ghost use Rattle.std.specs.List.Sorted.{IsNonDecreasingBy, IsPermutation};
ghost use Rattle.lb_closing.specs.Closings.{IsFirstDifference, entry_for, first_number, is_earlier, rank_of};

use crate::discord::Discord;
use crate::same::Same;
use jk_io::NoMemory;
use lb_model::Entry;

/// An entry with its balancer.
pub(crate) type Noted = (u32, Entry);

/// Puts entries into the order of balancers and numbers.
pub(crate) fn put_in_order(list: &mut Vec<Noted>) -> Result<(), NoMemory>
    ensures moved { IsPermutation list.old.items list.new.items }
    ensures ordered { OnOk result (IsNonDecreasingBy rank_of list.new.items) }
{
    Ok(list.sort_by_key(|x| rank(x.0, x.1.seq))?)
}

/// Where the lists differ first. There is no such place exactly where they are the same.
pub(crate) fn first_difference<L>(receipts: &[Noted], kept: &[Noted]) -> Option<Discord<L>>
    ensures differ { IfSome result (IsFirstDifference receipts.now kept.now) }
    ensures same { IfNone result (receipts.now ≡ kept.now) }
{
    for place in 0..receipts.len().max(kept.len()) {
        let (x, y) = (at(receipts, place), at(kept, place));
        if differ(x, y) {
            return Some(discord_of(x, y));
        }
    }
    None
}

fn at(list: &[Noted], place: usize) -> Option<Noted>
    ensures { result ≡ slice_get list.now place }
{
    list.get(place).copied()
}

fn differ(x: Option<Noted>, y: Option<Noted>) -> bool
    ensures same { result ≡ false → x ≡ y }
    ensures other { result ≡ true → x ≡ y → ⊥ }
{
    match (x, y) {
        (None, None) => false,
        (Some(x), Some(y)) => !x.is_same(y),
        (None, Some(_)) | (Some(_), None) => true,
    }
}

// The earlier number of the two, and what each has there.
fn discord_of<L>(receipt: Option<Noted>, kept: Option<Noted>) -> Discord<L>
    ensures number { (result.lb, result.seq) ≡ first_number receipt kept }
    ensures receipt { result.receipt ≡ entry_for result.lb result.seq receipt }
    ensures entry { result.entry ≡ entry_for result.lb result.seq kept }
{
    let (lb, seq) = first_number(receipt, kept);
    Discord::new(
        lb,
        seq,
        entry_for(lb, seq, receipt),
        entry_for(lb, seq, kept),
    )
}

fn first_number(x: Option<Noted>, y: Option<Noted>) -> (u32, u64)
    ensures { result ≡ first_number x y }
{
    match (x, y) {
        (None, None) => (0, 0),
        (None, Some((lb, e))) => (lb, e.seq),
        (Some((lb, e)), None) => (lb, e.seq),
        (Some(x), Some(y)) => {
            if is_earlier(y, x) {
                (y.0, y.1.seq)
            } else {
                (x.0, x.1.seq)
            }
        }
    }
}

fn is_earlier(x: Noted, y: Noted) -> bool
    ensures { result ≡ is_earlier x y }
{
    rank(x.0, x.1.seq) < rank(y.0, y.1.seq)
}

// The place in the order of balancers and numbers.
fn rank(lb: u32, seq: u64) -> u128
    ensures { result ≡ lb * 2 ^ 64 + seq }
{
    u128::from(lb) * (1 << 64) + u128::from(seq)
}

fn entry_for(lb: u32, seq: u64, found: Option<Noted>) -> Option<Entry>
    ensures { result ≡ entry_for lb seq found }
{
    let (at, entry) = found?;
    if at == lb {
        if entry.seq == seq { Some(entry) } else { None }
    } else {
        None
    }
}
