//! A Book whose callers take turns.
ghost use Rattle.std.specs.Prelude.{◌≡◌, ◌<◌, ◌≤◌, [], IfOk, vec_capacity};
ghost use Rattle.lb_passes.specs.Plays.{giver_after, next_caller};
ghost use Rattle.lb_model.specs.declared.segment.TheConstants.{MODERN_RULES};
ghost use Rattle.lb_passes.specs.Passes.{AreNewPasses, IsNewPass, MayTakeTurns, origin_of};

use crate::PassView;
use crate::bells::Bells;
use crate::pass::{Pass, PassList};
use crate::rule::{Founding, InTurns, NextCaller};
use atomic_table::Table;
use jk_io::NoMemory;
use lb_book::Book;
use std::alloc::Global;
use std::snapshot::Snapshot;

/// The most passes of a pass book.
pub const MAX_PASSES: u32 = 64;

pub(crate) type PassTable = Table<Book, PassView, Founding, InTurns, Global>;

/// A Book of rules 2 whose callers take turns. Its words are the turns drawn, the turns served and the count of all entries.
#[derive(Drop)]
pub struct PassBook {
    pub(crate) table: PassTable,
    /// Where the callers sleep.
    pub(crate) bells: Bells,
    /// The number of kept entries from which on the journal is cut; 0 is never.
    pub(crate) cut_at: u32,
    ghost words: { table.shared.table_id.words ≡ 3 },
    ghost slots: { table.shared.table_id.slots ≡ 1 },
    ghost modern: { table.shared.key.book.value.rules ≡ MODERN_RULES },
    ghost cuts: { table.shared.key.cut_at ≡ cut_at },
}

impl PassBook {
    ghost use Rattle.std.specs.Prelude.{◌≤◌, IfOk};
    ghost use Rattle.lb_passes.specs.Passes.{AreNewPasses, MayTakeTurns, origin_of};

    /// A Book whose callers take turns, and its passes, with the numbers from 0 up. It is never cut.
    pub fn new(alloc: Global, book: Book, passes: u32) -> Result<(PassBook, PassList), NoMemory>
        requires some { 1 ≤ passes }
        requires few { passes ≤ MAX_PASSES }
        requires start { MayTakeTurns book }
        ensures { IfOk result (λ made. AreNewPasses (origin_of book 0) made.0.table.shared.table_id passes made.1) }
    {
        let mut list = Vec::with_capacity(alloc, passes as usize)?;
        let (table, first) = begin_table(alloc, book, 0)?;
        list.push(first).unwrap();
        deal(&table, &mut list, passes);
        Ok((table, PassList::from_vec(list)))
    }
}

// The table of a Book, and its first caller.
fn begin_table(alloc: Global, book: Book, cut_at: u32) -> Result<(PassBook, Pass), NoMemory>
    requires { MayTakeTurns book }
    ensures pass { IfOk result (λ made. IsNewPass (origin_of book cut_at) made.0.table.shared.table_id 1 0 made.1) }
    ensures founded { IfOk result (λ made. (made.0.table.shared.key.book.value ≡ book) × (made.0.cut_at ≡ cut_at)) }
{
    let bells = Bells::quiet(alloc)?;
    let mut slots = Vec::with_capacity(alloc, 1)?;
    book.kept();
    let about = Founding {
        book: Snapshot::of(&book),
        cut_at,
    };
    slots.push(book).unwrap();
    match Table::new(alloc, &[0, 0, 0], slots, &about) {
        Ok((table, seat)) => Ok((
            PassBook {
                table,
                bells,
                cut_at,
            },
            Pass { seat, number: 0 },
        )),
        Err(_) => Err(NoMemory),
    }
}

// One pass more for each number below `passes`.
fn deal(book: &PassBook, list: &mut Vec<Pass>, passes: u32)
    requires few { passes ≤ MAX_PASSES }
    requires some { 1 ≤ passes }
    requires room { passes ≤ vec_capacity list.old }
    requires first { AreNewPasses (origin_of book.now.table.shared.key.book.value book.now.cut_at) book.now.table.shared.table_id 1 list.old.items }
    ensures { AreNewPasses (origin_of book.now.table.shared.key.book.value book.now.cut_at) book.now.table.shared.table_id passes list.new.items }
{
    for number in 1..passes {
        let pass = next_pass(book, &mut list[0], number);
        list.push(pass).unwrap();
    }
}

// The pass of the next number.
fn next_pass(book: &PassBook, first: &mut Pass, number: u32) -> Pass
    requires of { first.old.seat.table_id ≡ book.now.table.shared.table_id }
    requires root { first.old.number ≡ 0 }
    requires few { number < MAX_PASSES }
    requires next { first.old.seat.me.0.given ≡ number }
    requires above { 1 ≤ number }
    ensures of { (first.new.seat.table_id ≡ first.old.seat.table_id) × (result.seat.table_id ≡ first.old.seat.table_id) }
    ensures number { (first.new.number ≡ first.old.number) × (result.number ≡ number) }
    ensures first { first.new.seat.me ≡ (giver_after first.old.seat.me.0, first.old.seat.me.1) }
    ensures next { result.seat.me ≡ (next_caller first.old.seat.me.0, []) }
{
    let seat = book.table.shared.split_seat::<NextCaller>(&mut first.seat);
    Pass { seat, number }
}
