//! The commands of a balancer's Book that a status command asks for.
ghost use Rattle.std.specs.Prelude.{◌≡◌, IfOk};
ghost use Rattle.status_worker.specs.BookCommands.{alone, commands_for, recover_for, reset_for, resets, update_for};

use crate::command::{NamedChange, StatusCommand};
use crate::targets::{change_for, member_named};
use jk_io::{ListOf, NoMemory};
use lb_model::{Command, LbConfig};
use std::alloc::Global;

/// Commands for a balancer's Book, in order.
pub type CommandList = ListOf<Command>;

fn update_for(config: &LbConfig, sw: &[u8], change: &NamedChange) -> Option<Command>
    ensures { result ≡ update_for config.now.members sw.now change.now }
{
    let member = member_named(config, sw)?;
    let change = change_for(config, change)?;
    Some(Command::Update { member, change })
}

fn reset_for(config: &LbConfig, sw: &[u8]) -> Option<Command>
    ensures { result ≡ reset_for config.now.members sw.now }
{
    let member = member_named(config, sw)?;
    Some(Command::Reset { member })
}

fn recover_for(config: &LbConfig, sw: &[u8]) -> Option<Command>
    ensures { result ≡ recover_for config.now.members sw.now }
{
    let member = member_named(config, sw)?;
    Some(Command::Recover { member })
}

fn resets(alloc: Global, count: u32) -> Result<CommandList, NoMemory>
    ensures { IfOk result (λ commands. commands ≡ resets count) }
{
    let mut commands = Vec::with_capacity(alloc, count as usize)?;
    for member in 0..count {
        commands.push(Command::Reset { member })?;
    }
    Ok(ListOf::from_vec(commands))
}

fn alone(alloc: Global, command: Option<Command>) -> Result<Option<CommandList>, NoMemory>
    ensures { IfOk result (λ commands. commands ≡ alone command) }
{
    let Some(command) = command else {
        return Ok(None);
    };
    let mut commands = ListOf::new(alloc);
    commands.push(command)?;
    Ok(Some(commands))
}

/// The commands that a status command asks the balancer's Book for, in order: one, or a reset of every member where it
/// names none, and nothing for a page; none exactly where a name is no member's.
pub fn commands_for(
    alloc: Global,
    config: &LbConfig,
    command: &StatusCommand,
) -> Result<Option<CommandList>, NoMemory>
    ensures { IfOk result (λ commands. commands ≡ commands_for config.now.members command.now) }
{
    match command {
        StatusCommand::List { w: _ } => Ok(Some(ListOf::new(alloc))),
        StatusCommand::Update { w: _, sw, change } => {
            alone(alloc, update_for(config, sw.as_slice(), change))
        }
        StatusCommand::Reset { w: _, sw: None } => {
            Ok(Some(resets(alloc, config.members.len() as u32)?))
        }
        StatusCommand::Reset { w: _, sw: Some(sw) } => {
            alone(alloc, reset_for(config, sw.as_slice()))
        }
        StatusCommand::Recover { w: _, sw } => alone(alloc, recover_for(config, sw.as_slice())),
    }
}
