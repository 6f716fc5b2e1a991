//! One hold of a Book: a Maintain if due, and then a call, each entry with its receipt.
ghost use Rattle.std.specs.Prelude.{◌≡◌, ◌+◌, ◌≤◌, ◌<◌, ◌∷◌, [], ◌++◌, length, vec_len, vec_capacity, IfOk, IfErr, OnOk, OnErr};
ghost use Rattle.lb_model.specs.Journal.{members};
ghost use Rattle.lb_model.specs.Legal.{HasValues};
ghost use Rattle.lb_model.specs.declared.journal.Call.{Call};
ghost use Rattle.lb_book.specs.Commanded.{IsKnown};
ghost use Rattle.lb_book.specs.Leases.{IsLeaseOf};
ghost use Rattle.lb_book.specs.Refused.{RefusesMaintain};
ghost use Rattle.lb_book.specs.Desks.{IsAskRefusal, IsCommandRefusal, IsMaintained};
ghost use Rattle.lb_book.specs.PlainDesks.{BookCommands, BookGainsDue, BookGainsLast, Picks, receipt_of};
ghost use Rattle.lb_model.specs.declared.segment.TheConstants.{MODERN_RULES};

use crate::book::{Book, Picked};
use crate::desk::Occasion;
use crate::receipt::Receipt;
use lb_model::{AdminError, Ask, Command, Entry, FullMark, RoomError};

/// Adds the receipt of an entry.
pub fn note(receipts: &mut Vec<Receipt>, on: Occasion, entry: Entry)
    requires { vec_len receipts.old < vec_capacity receipts.old }
    ensures added { receipts.new.items ≡ receipts.old.items ++ receipt_of on entry ∷ [] }
    ensures room { vec_capacity receipts.old ≤ vec_capacity receipts.new }
{
    let receipt = Receipt {
        lb: on.lb,
        given: on.at,
        entry,
    };
    receipts.push(receipt).unwrap();
}

/// Does a Maintain if due.
fn maintain_first(
    book: &mut Book,
    receipts: &mut Vec<Receipt>,
    on: Occasion,
) -> Result<(), RoomError<FullMark>>
    requires { vec_len receipts.old < vec_capacity receipts.old }
    ensures due { OnOk result (BookGainsDue book.old book.new receipts.old.items receipts.new.items on.lb on.session on.at
        (IsMaintained book.old on.at)) }
    ensures err { IfErr result (λ e. BookGainsDue book.old book.new receipts.old.items receipts.new.items on.lb on.session on.at
        (λ due. (due ≡ []) × RefusesMaintain (λ mark. mark) book.old on.at e)) }
    ensures room { vec_capacity receipts.old ≤ vec_capacity receipts.new }
{
    if let Some(entry) = book.maintain_if_due(on.session, on.at)? {
        note(receipts, on, entry);
    }
    Ok(())
}

/// Does a Maintain if due, and then a Select.
pub fn select_after(
    book: &mut Book,
    receipts: &mut Vec<Receipt>,
    on: Occasion,
    ask: &Ask,
) -> Result<Picked, RoomError<FullMark>>
    requires modern { book.old.rules ≡ MODERN_RULES }
    requires room { vec_len receipts.old + 2 ≤ vec_capacity receipts.old }
    ensures ok { IfOk result (λ picked. BookGainsLast book.old book.new receipts.old.items receipts.new.items on.lb on.session on.at
        (receipt_of on picked.entry)) }
    ensures asked { IfOk result (λ picked. picked.entry.call ≡ Call.Select ask.now) }
    ensures lease { IfOk result (λ picked. IsLeaseOf picked.entry.answer picked.lease) }
    ensures picks { IfOk result (λ picked. Picks book.old book.new ask.now picked.entry.seq picked.entry.answer) }
    ensures err { IfErr result (λ e. BookGainsDue book.old book.new receipts.old.items receipts.new.items on.lb on.session on.at
        (IsAskRefusal (λ mark. mark) on.at e book.old)) }
    ensures room { vec_capacity receipts.old ≤ vec_capacity receipts.new }
{
    maintain_first(book, receipts, on)?;
    let picked = book.select(on.session, on.at, ask)?;
    note(receipts, on, picked.entry);
    Ok(picked)
}

/// Does a Maintain if due, and then a command.
pub fn command_after(
    book: &mut Book,
    receipts: &mut Vec<Receipt>,
    on: Occasion,
    command: &Command,
) -> Result<(), AdminError<FullMark>>
    requires room { vec_len receipts.old + 2 ≤ vec_capacity receipts.old }
    ensures ok { OnOk result (BookCommands book.old book.new receipts.old.items receipts.new.items on command.now) }
    ensures named { OnOk result (IsKnown (members book.old.opening) command.now × HasValues command.now) }
    ensures err { IfErr result (λ e. BookGainsDue book.old book.new receipts.old.items receipts.new.items on.lb on.session on.at
        (IsCommandRefusal (λ mark. mark) on.at command.now e book.old)) }
    ensures room { vec_capacity receipts.old ≤ vec_capacity receipts.new }
{
    match maintain_first(book, receipts, on) {
        Ok(()) => {}
        Err(RoomError::Full(mark)) => return Err(AdminError::Full(mark)),
        Err(RoomError::NoMemory) => return Err(AdminError::NoMemory),
    }
    let entry = book.admin(on.session, on.at, command)?;
    note(receipts, on, entry);
    Ok(())
}
