//! A further segment of a journal, judged after those before it.
ghost use Rattle.std.specs.Prelude.{◌≡◌, ◌+◌, ◌<◌, ◌^◌, [], length, IfNone, IfOk, IfSome, OnOk};
ghost use Rattle.lb_book.specs.Ending.{IsCut};
ghost use Rattle.lb_book.specs.Journal.{IsSound};
ghost use Rattle.lb_model.specs.Segments.{AreKeptEntries, AreRules};
ghost use Rattle.lb_model.specs.Validity.{IsOpening};
ghost use Rattle.journal_text.specs.Written.{lines_of};
ghost use Rattle.journal_verdict.specs.Checks.{After, EndsSegment, EndsAt, IsFormer, IsOtherCount, JudgesOpening, Leaves, LeavesAs};
ghost use Rattle.journal_verdict.specs.Verdicts.{lines_before};

use crate::joining::first_difference;
use crate::judging::judge_entries;
use crate::reached::{Check, Reached};
use crate::ruling::{Ruling, Verdict, Wrong};
use jk_io::{Bytes, NoMemory};
use journal_text::Counted;
use lb_book::Book;
use lb_model::{Entry, Opening, Segment};
use std::alloc::Global;

// The verdict on a line at this place after `lines` others, from 0.
fn bad(lines: u32, place: usize, wrong: Wrong) -> Verdict
    requires { lines + place + wrong.at + 1 < 2 ^ 32 }
    ensures { result ≡ Verdict.Bad (lines + (place + wrong.at) + 1) wrong.kept wrong.ruled }
{
    let Wrong { at, kept, ruled } = wrong;
    Verdict::Bad {
        line: lines + (place + at) as u32 + 1,
        kept,
        ruled,
    }
}

// What differs in the opening of a segment from the end of the former one.
fn judge_opening(
    alloc: Global,
    former: Option<(Bytes, Opening)>,
    counted: &Counted,
) -> Result<Option<Wrong>, NoMemory>
    requires { IsFormer former }
    ensures { IfOk result (JudgesOpening former counted.now) }
{
    match former {
        None => Ok(None),
        Some((name, ending)) => first_difference(
            alloc,
            counted.name.as_slice(),
            &counted.segment.opening,
            name.as_slice(),
            &ending,
        ),
    }
}

// What differs in the last line of a segment, which has this place.
fn judge_count(place: usize, count: u64) -> Option<Wrong>
    ensures none { IfNone result (count ≡ place) }
    ensures wrong { IfSome result (IsOtherCount place count) }
{
    if count == place as u64 {
        return None;
    }
    Some(Wrong {
        at: place,
        kept: Ruling::Count(count),
        ruled: Ruling::Count(place as u64),
    })
}

// Goes on from where the Book's journal ends, with no entry.
fn cut_off(book: &mut Book) -> Result<(), NoMemory>
    ensures { OnOk result (IsCut book.old book.new) }
{
    let _kept = book.cut()?;
    Ok(())
}

fn opening_of(book: &Book) -> Result<Opening, NoMemory>
    ensures { IfOk result (λ o. (o ≡ book.now.opening) × IsSound book.now) }
{
    let Segment { opening, .. } = book.segment()?;
    Ok(opening)
}

// Where a Book's journal ends.
fn ending_of(book: &mut Book) -> Result<Opening, NoMemory>
    ensures { IfOk result (EndsAt book.old) }
{
    cut_off(book)?;
    opening_of(book)
}

// Where entries lead from the Book's opening, if they and their count are right.
fn replay(
    book: &mut Book,
    at: u64,
    entries: &[Entry],
    count: u64,
) -> Result<Result<Opening, Wrong>, NoMemory>
    requires sound { IsSound book.old }
    requires empty { book.old.entries ≡ [] }
    requires at { at ≡ book.old.opening.at }
    requires kept { AreKeptEntries book.old.rules entries.now }
    ensures { IfOk result (Leaves book.old.rules book.old.opening entries.now count) }
{
    if let Some(wrong) = judge_entries(book, at, entries)? {
        return Ok(Err(wrong));
    }
    if let Some(wrong) = judge_count(entries.len(), count) {
        return Ok(Err(wrong));
    }
    Ok(Ok(ending_of(book)?))
}

// Where entries lead from an opening, if they and their count are right.
fn end_of(
    opening: Opening,
    rules: u8,
    entries: &[Entry],
    count: u64,
) -> Result<Result<Opening, Wrong>, NoMemory>
    requires valid { IsOpening opening }
    requires versions { AreRules rules }
    requires kept { AreKeptEntries rules entries.now }
    ensures { IfOk result (Leaves rules opening entries.now count) }
{
    let at = opening.at;
    replay(&mut Book::resume(opening, rules)?, at, entries, count)
}

// As `end_of`, of a segment that nobody reads after that.
fn end_of_all(segment: Segment, count: u64) -> Result<Result<Opening, Wrong>, NoMemory>
    ensures { IfOk result (Leaves segment.rules segment.opening segment.entries count) }
{
    let Segment {
        rules,
        opening,
        entries,
    } = segment;
    end_of(opening, rules, entries.as_slice(), count)
}

// Under which name and where a segment ends, if its entries and their count are right.
fn leave(counted: Counted) -> Result<Result<(Bytes, Opening), Wrong>, NoMemory>
    ensures { IfOk result (LeavesAs counted) }
{
    let Counted {
        name,
        segment,
        count,
    } = counted;
    match end_of_all(segment, count)? {
        Err(wrong) => Ok(Err(wrong)),
        Ok(ending) => Ok(Ok((name, ending))),
    }
}

// How many lines a segment has before its entries.
fn lines_before(counted: &Counted) -> usize
    requires { length (lines_of counted.now) < 2 ^ 32 }
    ensures { result ≡ lines_before counted.now }
{
    let members = counted.segment.opening.config.members.len();
    members + counted.segment.opening.out.len() + 3
}

// What comes after a segment whose opening is right; `lines` and `entries` count what stands before it.
fn take_entries(lines: u32, entries: u64, counted: Counted) -> Result<Check, NoMemory>
    requires few { lines + length (lines_of counted) < 2 ^ 32 }
    requires entries { entries + length counted.segment.entries < 2 ^ 64 }
    ensures { IfOk result (EndsSegment lines entries counted) }
{
    let before = lines_before(&counted);
    let number = counted.segment.entries.len();
    match leave(counted)? {
        Err(wrong) => Ok(Check::Bad(bad(lines, before, wrong))),
        Ok(ended) => Ok(Check::Good(Reached {
            former: Some(ended),
            lines: lines + (before + number) as u32 + 1,
            entries: entries + number as u64,
        })),
    }
}

/// What comes after a further segment.
pub(crate) fn take_segment(
    alloc: Global,
    reached: Reached,
    counted: Counted,
) -> Result<Check, NoMemory>
    requires former { IsFormer reached.former }
    requires few { reached.lines + length (lines_of counted) < 2 ^ 32 }
    requires entries { reached.entries + length counted.segment.entries < 2 ^ 64 }
    ensures { IfOk result (After reached counted) }
{
    let Reached {
        former,
        lines,
        entries,
    } = reached;
    match judge_opening(alloc, former, &counted)? {
        Some(wrong) => Ok(Check::Bad(bad(lines, 1, wrong))),
        None => take_entries(lines, entries, counted),
    }
}
