//! The work that a status worker's request asks for, or why it gets no page.
ghost use Rattle.std.specs.Prelude.{◌≡◌, ◌<◌, ◌&&◌, None, Some, length, IfOk, IfErr, IfSome};
ghost use Rattle.status_worker.specs.Effects.{is_change};
ghost use Rattle.status_worker.specs.Meaning.{meaning_of};
ghost use Rattle.status_worker.specs.Asking.{AsksBy, IfRefused, IsNamedBalancer, IsRefusedBy};
ghost use Rattle.status_worker.specs.Commands.{AsksDesk, AsksOpen, IsRefusedQuery, IsRefusedOpen, IsWorkFor, NamesNone};

use crate::refusal::PageRefusal;
use crate::{CommandList, StatusCommand, StatusError, commands_for, read_command};
use jk_io::{Bytes, NoMemory};
use site_config::{Config, Named, Status};
use std::alloc::Global;

/// Why a status worker's request gets no page.
#[derive(Clone, Copy, PartialEq, Eq)]
pub enum NoPage {
    /// The request is refused, and its answer says why.
    Refused(PageRefusal),
    NoMemory,
}

impl From<NoMemory> for NoPage {
    ghost use Rattle.std.specs.Prelude.{◌≡◌};
    ghost use Rattle.status_worker.specs.declared.asking.NoPage.TheVariants as no_page;

    ghost from_gives = { λ _ e. e ≡ no_page.NoMemory };

    fn from(_error: NoMemory) -> NoPage {
        NoPage::NoMemory
    }
}

/// What is to be done for a request of a status worker.
#[derive(Drop)]
pub struct Work {
    /// The balancer of the page; none for the page of all.
    pub only: Option<u32>,
    /// The commands for that balancer, in order.
    pub commands: CommandList,
}

/// The command that a query means.
fn read_query(alloc: Global, query: &Option<Bytes>) -> Result<StatusCommand, NoPage>
    ensures ok { IfOk result (λ c. meaning_of query.now ≡ Some c) }
    ensures err { IfErr result (IfRefused (λ why. (why ≡ PageRefusal.BadQuery) × (meaning_of query.now ≡ None))) }
{
    let read = match query {
        None => read_command(alloc, None),
        Some(query) => read_command(alloc, Some(query.as_slice())),
    };
    match read {
        Ok(command) => Ok(command),
        Err(StatusError::BadQuery) => Err(NoPage::Refused(PageRefusal::BadQuery)),
        Err(StatusError::NoMemory) => Err(NoPage::NoMemory),
    }
}

/// The balancer that a command names; none where it names none.
fn named_balancer(cfg: &Config, command: &StatusCommand) -> Result<Option<u32>, NoPage>
    ensures ok { IfOk result (IsNamedBalancer cfg.now command.now) }
    ensures err { IfErr result (IfRefused (λ why. (why ≡ PageRefusal.UnknownName) × NamesNone cfg.now command.now)) }
{
    let Some(name) = command.worker() else {
        return Ok(None);
    };
    match cfg.find(name.as_slice()) {
        Some(Named::Balancer(lb)) => Ok(Some(lb)),
        Some(Named::Status(_)) | None => Err(NoPage::Refused(PageRefusal::UnknownName)),
    }
}

/// What a command asks for.
fn work_for(alloc: Global, cfg: &Config, command: &StatusCommand) -> Result<Work, NoPage>
    ensures ok { IfOk result (IsWorkFor cfg.now command.now) }
    ensures err { IfErr result (IfRefused (λ why. (why ≡ PageRefusal.UnknownName) × NamesNone cfg.now command.now)) }
{
    let only = named_balancer(cfg, command)?;
    let Some(lb) = only else {
        return Ok(Work {
            only,
            commands: CommandList::new(alloc),
        });
    };
    match commands_for(alloc, &cfg.lbs.as_slice()[lb as usize].book, command)? {
        Some(commands) => Ok(Work { only, commands }),
        None => Err(NoPage::Refused(PageRefusal::UnknownName)),
    }
}

/// Whether the command is a change, and the status worker may do none.
fn is_forbidden(status: &Status, command: &StatusCommand) -> bool
    ensures { result ≡ (is_change command.now && status.now.read_only) }
{
    command.is_change() && status.read_only
}

/// What a command asks for, where the status worker may do it.
fn work_by(
    alloc: Global,
    cfg: &Config,
    status: &Status,
    command: &StatusCommand,
) -> Result<Work, NoPage>
    ensures ok { IfOk result (AsksBy cfg.now status.now command.now) }
    ensures within { IfOk result (λ work. IfSome work.only (λ lb. lb < length cfg.now.lbs)) }
    ensures err { IfErr result (IfRefused (IsRefusedBy cfg.now status.now command.now)) }
{
    if is_forbidden(status, command) {
        return Err(NoPage::Refused(PageRefusal::ReadOnly));
    }
    work_for(alloc, cfg, command)
}

/// What a request of an open status worker asks for, or the first refusal: of its query, of a change where it is read only,
/// of a name.
fn open_work(
    alloc: Global,
    cfg: &Config,
    status: &Status,
    query: &Option<Bytes>,
) -> Result<Work, NoPage>
    ensures ok { IfOk result (AsksOpen cfg.now status.now query.now) }
    ensures within { IfOk result (λ work. IfSome work.only (λ lb. lb < length cfg.now.lbs)) }
    ensures err { IfErr result (IfRefused (IsRefusedOpen cfg.now status.now query.now)) }
{
    let command = read_query(alloc, query)?;
    work_by(alloc, cfg, status, &command)
}

/// What a request of a status worker asks for, or the first refusal. A closed one refuses each request.
pub(crate) fn work_of(
    alloc: Global,
    cfg: &Config,
    status: &Status,
    query: &Option<Bytes>,
) -> Result<Work, NoPage>
    ensures ok { IfOk result (AsksDesk cfg.now status.now query.now) }
    ensures within { IfOk result (λ work. IfSome work.only (λ lb. lb < length cfg.now.lbs)) }
    ensures err { IfErr result (IfRefused (IsRefusedQuery cfg.now status.now query.now)) }
{
    if status.closed {
        return Err(NoPage::Refused(PageRefusal::Closed));
    }
    open_work(alloc, cfg, status, query)
}
