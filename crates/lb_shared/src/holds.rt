//! One hold on one Book: a Maintain if due, and then a call, each entry with its receipt.
ghost use Rattle.std.specs.Prelude.{◌≡◌, ◌≢◌, [], ◌∷◌, ◌++◌, ◌+◌, ◌<◌, ◌≤◌, length, slice_index, vec_len, vec_capacity, IfOk, IfErr, OnOk, OnErr};
ghost use Rattle.lb_model.specs.declared.journal.Answer.{Answer};
ghost use Rattle.lb_book.specs.Refused.{RefusesMaintain};
ghost use Rattle.lb_book.specs.ToldBooks.{IsNoneDue};
ghost use Rattle.lb_shared.specs.Holds.{
  HoldChooses,
  HoldCommands,
  HoldDenies,
  HoldMaintains,
  HoldRefuses,
  IsAdminMark,
  IsRoomMark,
  IsSiteChoice,
  KeepsAccount,
  held_by,
  listed,
};
ghost use Rattle.lb_shared.specs.Notes.{lease_of};
ghost use Rattle.lb_shared.specs.Sites.{At};

use crate::account::Account;
use crate::site::{Site, SiteLease, SiteMark, SiteName, SitePicked, SiteReceipt};
use lb_book::desk::{Choice, Occasion};
use lb_model::{AdminError, Answer, Ask, Command, RoomError};

// Does a Maintain if due.
fn maintain_first<L: SiteName>(
    site: &mut Site<L>,
    on: Occasion,
    account: &mut Account<L>,
) -> Result<(), RoomError<SiteMark<L>>>
    requires lb { on.lb < length site.old }
    requires room { vec_len account.old.receipts < vec_capacity account.old.receipts }
    ensures due { OnOk result (HoldMaintains (held_by site.old account.old) (held_by site.new account.new) on.lb on.session on.at) }
    ensures up_to_date { OnOk result (At site.new on.lb (λ b. IsNoneDue b on.at)) }
    ensures refused { IfErr result (λ e. At site.old on.lb (λ b. RefusesMaintain (λ mark. mark.numbers) b on.at e)) }
    ensures err { OnErr result (held_by site.new account.new ≡ held_by site.old account.old) }
    ensures mark { IfErr result (IsRoomMark on.lb 1) }
    ensures len { length site.new ≡ length site.old }
    ensures kept { KeepsAccount account.old account.new }
{
    let found = site.maintain_if_due(on.lb, on.session, on.at, &mut account.share)?;
    note_some(&mut account.receipts, found);
    Ok(())
}

// Notes a receipt, where there is one.
fn note_some<L>(receipts: &mut Vec<SiteReceipt<L>>, found: Option<SiteReceipt<L>>)
    requires { vec_len receipts.old < vec_capacity receipts.old }
    ensures items { receipts.new.items ≡ receipts.old.items ++ listed found }
    ensures room { vec_capacity receipts.old ≤ vec_capacity receipts.new }
{
    if let Some(receipt) = found {
        note(receipts, receipt);
    }
}

/// Notes a receipt.
pub(crate) fn note<L>(receipts: &mut Vec<SiteReceipt<L>>, receipt: SiteReceipt<L>)
    requires { vec_len receipts.old < vec_capacity receipts.old }
    ensures items { receipts.new.items ≡ receipts.old.items ++ receipt ∷ [] }
    ensures room { vec_capacity receipts.old ≤ vec_capacity receipts.new }
{
    receipts.push(receipt).unwrap();
}

/// Does a Maintain if due, and then a Select.
pub(crate) fn choose_in<L: SiteName>(
    site: &mut Site<L>,
    on: Occasion,
    ask: &Ask,
    account: &mut Account<L>,
) -> Result<Choice<SiteLease<L>>, RoomError<SiteMark<L>>>
    requires lb { on.lb < length site.old }
    requires room { vec_len account.old.receipts + 2 ≤ vec_capacity account.old.receipts }
    ensures ok { IfOk result (λ c. HoldChooses L.sizes (held_by site.old account.old) (held_by site.new account.new) on.lb on.session on.at ask.now c) }
    ensures err { IfErr result (HoldDenies (held_by site.old account.old) (held_by site.new account.new) on.lb on.session on.at) }
    ensures mark { IfErr result (IsRoomMark on.lb 2) }
    ensures kept { KeepsAccount account.old account.new }
{
    maintain_first(site, on, account)?;
    let SitePicked { receipt, lease } = site.select(
        on.lb,
        on.session,
        on.at,
        ask,
        &mut account.share,
    )?;
    let answer = receipt.receipt().entry.answer;
    note(&mut account.receipts, receipt);
    Ok(choice_of(on.lb, answer, lease))
}

// What an answer of balancer lb says, with its lease.
fn choice_of<L>(lb: u32, answer: Answer, lease: Option<SiteLease<L>>) -> Choice<SiteLease<L>>
    requires lease { lease ≡ lease_of lb answer }
    requires select { answer ≢ Answer.Done }
    ensures { IsSiteChoice lb answer result }
{
    match lease {
        Some(lease) => Choice::Chosen {
            member: lease.member(),
            lease,
        },
        None if answer == Answer::Forced => Choice::Forced,
        None => Choice::NoMember,
    }
}

/// Does a Maintain if due, and then a command.
pub(crate) fn command_in<L: SiteName>(
    site: &mut Site<L>,
    on: Occasion,
    command: &Command,
    account: &mut Account<L>,
) -> Result<(), AdminError<SiteMark<L>>>
    requires lb { on.lb < length site.old }
    requires room { vec_len account.old.receipts + 2 ≤ vec_capacity account.old.receipts }
    ensures ok { OnOk result (HoldCommands L.sizes (held_by site.old account.old) (held_by site.new account.new) on.lb on.session on.at command.now) }
    ensures err { IfErr result (HoldRefuses (held_by site.old account.old) (held_by site.new account.new) on.lb on.session on.at command.now) }
    ensures mark { IfErr result (IsAdminMark on.lb) }
    ensures kept { KeepsAccount account.old account.new }
{
    match maintain_first(site, on, account) {
        Ok(()) => {}
        Err(RoomError::Full(mark)) => return Err(AdminError::Full(mark)),
        Err(RoomError::NoMemory) => return Err(AdminError::NoMemory),
    }
    site.count();
    let receipt = site.admin(on.lb, on.session, on.at, command, &mut account.share)?;
    note(&mut account.receipts, receipt);
    Ok(())
}
