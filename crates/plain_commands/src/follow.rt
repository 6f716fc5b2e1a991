//! `follow`: the balancer of a journal's text, printed.
ghost use Rattle.std.specs.Prelude.{◌≡◌, ℕ, List, Option, true, IfOk};
ghost use Rattle.journal_verdict.specs.Followed.{IsOpened};
ghost use Rattle.journal_verdict.specs.Machines.{HasFed, is_going};
ghost use Rattle.journal_verdict.specs.declared.view.FollowView.{FollowView as AnyView};
ghost use Rattle.journal_verdict.specs.Told.{bad_text};
ghost use Rattle.plain_commands.specs.Endings.{status_of};
ghost use Rattle.plain_commands.specs.FollowedTexts.{FollowsText, RefusesText, part_of, shown_text, type_of};

use crate::check::unreadable;
use crate::play::{Ending, Output};
use jk_io::{Bytes, NoMemory};
use journal_verdict::{FollowError, FollowView, Follower, Ruling, put_bad};
use status_worker::{AddressList, BalancerType, PageList, PagePart, render};
use std::alloc::Global;

fn type_of(direct: bool) -> BalancerType
    ensures { result ≡ type_of direct }
{
    if direct {
        BalancerType::Ajp13
    } else {
        BalancerType::Lb
    }
}

/// The balancer as a status page shows it; a journal knows no addresses.
fn part_of(alloc: Global, view: FollowView) -> PagePart
    ensures { result ≡ part_of view }
{
    PagePart {
        type_: type_of(view.direct),
        name: view.name,
        method: view.method,
        view: view.view,
        addresses: AddressList::new(alloc),
    }
}

/// The page of what is shown.
fn told(alloc: Global, shown: Option<FollowView>) -> Result<Bytes, NoMemory>
    ensures { IfOk result (λ text. text ≡ shown_text shown) }
{
    let Some(view) = shown else {
        return Bytes::from_slice(alloc, b"no opening\n");
    };
    let mut parts = PageList::new(alloc);
    parts.push(part_of(alloc, view))?;
    render(alloc, &parts)
}

/// What is printed where no line was refused.
fn page(alloc: Global, follower: &Follower) -> Result<Output, NoMemory>
    requires { is_going follower.now.known ≡ true }
    ensures { (bytes : List ℕ) → HasFed follower.now bytes → IfOk result (λ o. (shown : Option AnyView) × IsOpened bytes shown
        × (o.text ≡ shown_text shown) × (status_of o.ending ≡ 0)) }
{
    let text = told(alloc, follower.view()?)?;
    Ok(Output {
        text,
        ending: Ending::Done,
    })
}

/// A line that isn't what it ought to be, and its status.
fn bad(alloc: Global, line: u64, kept: &Ruling, ruled: &Ruling) -> Result<Output, NoMemory>
    ensures { IfOk result (λ o. (o.text ≡ bad_text line kept.now ruled.now) × (status_of o.ending ≡ 1)) }
{
    let mut text = Bytes::new(alloc);
    put_bad(&mut text, line, kept, ruled)?;
    Ok(Output {
        text,
        ending: Ending::Bad,
    })
}

/// What is printed of the first line that is refused.
fn refused(alloc: Global, error: &FollowError) -> Result<Output, NoMemory>
    ensures { IfOk result (λ o. RefusesText error.now o.text (status_of o.ending)) }
{
    match error {
        FollowError::Unreadable { line } => unreadable(alloc, *line),
        FollowError::Bad { line, kept, ruled } => bad(alloc, *line, kept, ruled),
        FollowError::NoMemory => Err(NoMemory),
    }
}

/// What is printed of a text that is followed.
pub(crate) fn follow(alloc: Global, text: &[u8]) -> Result<Output, NoMemory>
    ensures { IfOk result (λ o. FollowsText text.now o.text (status_of o.ending)) }
{
    let mut follower = Follower::new(alloc);
    match follower.feed(alloc, text) {
        Ok(()) => page(alloc, &follower),
        Err(error) => refused(alloc, &error),
    }
}
