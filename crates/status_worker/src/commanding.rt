//! Doing a status worker's commands.
ghost use Rattle.std.specs.Prelude.{◌≡◌, ◌<◌, length, IfErr, IfSome, IfOk, OnOk};
ghost use Rattle.lb_book.specs.Desks.{MeetsNone};
ghost use Rattle.status_worker.specs.Commands.{Does, WorksOn};
ghost use Rattle.status_worker.specs.Commanding.{FailsFor, FailsOne, FailsWork, IsDoneFor, no_page_by};
ghost use Rattle.status_worker.specs.Desks.{KeepsTickets, desk_side, members_in};

use crate::asking::{NoPage, Work, work_of};
use crate::refusal::PageRefusal;
use crate::request::PageRequest;
use jk_io::Clock;
use lb_book::Desk;
use lb_model::{AdminError, Command};
use std::alloc::Global;

/// What a command's refusal makes of the request.
fn no_page<M: Drop>(error: AdminError<M>) -> NoPage
    ensures { result ≡ no_page_by error }
{
    match error {
        AdminError::UnknownMember => NoPage::Refused(PageRefusal::UnknownName),
        AdminError::BadValue => NoPage::Refused(PageRefusal::BadValue),
        AdminError::TooWide(_) => NoPage::Refused(PageRefusal::TooWide),
        AdminError::Full(_) => NoPage::Refused(PageRefusal::Full),
        AdminError::NoMemory => NoPage::NoMemory,
    }
}

/// Does one command, at the clock's next answer.
fn do_command<B: Desk, K: Clock>(
    session: u32,
    lb: u32,
    command: &Command,
    desk: &mut B,
    clock: &mut K,
) -> Result<(), NoPage>
where
    B::Mark: Drop,
    requires known { lb < length (B.state desk.old).sizes }
    requires caller { IfSome (B.state desk.old).caller (λ n. session ≡ n) }
    ensures ok { let at = desk_side B.state K.answers in
        OnOk result (Does session lb command.now (at desk.old clock.old) (at desk.new clock.new)) }
    ensures err { let at = desk_side B.state K.answers in
        IfErr result (FailsOne session lb command.now (at desk.old clock.old) (at desk.new clock.new)) }
    ensures kept { KeepsTickets session (B.state desk.old) (B.state desk.new) }
    ensures met { MeetsNone (B.state desk.old) (B.state desk.new) }
{
    let at = clock.now();
    match desk.command(lb, session, at, command) {
        Ok(()) => Ok(()),
        Err(error) => Err(no_page(error)),
    }
}

/// Does the commands up to the first refused one.
fn do_work<B: Desk, K: Clock>(
    session: u32,
    work: &Work,
    desk: &mut B,
    clock: &mut K,
) -> Result<(), NoPage>
where
    B::Mark: Drop,
    requires known { IfSome work.now.only (λ lb. lb < length (B.state desk.old).sizes) }
    requires caller { IfSome (B.state desk.old).caller (λ n. session ≡ n) }
    ensures ok { let at = desk_side B.state K.answers in
        OnOk result (WorksOn session work.now (at desk.old clock.old) (at desk.new clock.new)) }
    ensures err { let at = desk_side B.state K.answers in
        IfErr result (FailsWork session work.now (at desk.old clock.old) (at desk.new clock.new)) }
    ensures kept { KeepsTickets session (B.state desk.old) (B.state desk.new) }
    ensures met { MeetsNone (B.state desk.old) (B.state desk.new) }
{
    let Some(lb) = work.only else {
        return Ok(());
    };
    for command in work.commands.as_slice() {
        do_command(session, lb, command, desk, clock)?;
    }
    Ok(())
}

/// Does what a request asks for; answers the balancer of its page.
pub fn change<B: Desk, K: Clock>(
    alloc: Global,
    asked: &PageRequest,
    desk: &mut B,
    clock: &mut K,
) -> Result<Option<u32>, NoPage>
where
    B::Mark: Drop,
    requires caller { IfSome (B.state desk.old).caller (λ n. asked.now.session ≡ n) }
    requires sizes { (B.state desk.old).sizes ≡ members_in asked.now.cfg.now.lbs }
    ensures ok { let at = desk_side B.state K.answers in
        IfOk result (IsDoneFor asked.now (at desk.old clock.old) (at desk.new clock.new)) }
    ensures within { IfOk result (λ only. IfSome only (λ lb. lb < length asked.now.cfg.now.lbs)) }
    ensures err { let at = desk_side B.state K.answers in
        IfErr result (FailsFor asked.now (at desk.old clock.old) (at desk.new clock.new)) }
    ensures kept { KeepsTickets asked.now.session (B.state desk.old) (B.state desk.new) }
    ensures met { MeetsNone (B.state desk.old) (B.state desk.new) }
{
    let work = work_of(alloc, asked.cfg, asked.status, asked.query)?;
    do_work(asked.session, &work, desk, clock)?;
    Ok(work.only)
}
