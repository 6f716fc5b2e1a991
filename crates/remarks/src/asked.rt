//! The command that was asked for, by what was read of its words.
ghost use Rattle.std.specs.Prelude.{◌≡◌, ℕ, List};
ghost use Rattle.std.specs.Result.{result_ok};
ghost use Rattle.jk_cli.specs.Names.{command_in};
ghost use Rattle.jk_cli.specs.Orders.{command_of, order_of};

use jk_cli::{CommandName, Order, WordsError};

fn name_in(order: &Order) -> CommandName
    ensures { result ≡ command_in order.now }
{
    match order {
        Order::Play => CommandName::Play,
        Order::Dry { .. } => CommandName::Dry,
        Order::Config { .. } => CommandName::Config,
        Order::Match { .. } => CommandName::Match,
        Order::Check => CommandName::Check,
        Order::Log { .. } => CommandName::Log,
        Order::Follow => CommandName::Follow,
        Order::Drill { .. } => CommandName::Drill,
        Order::Serve(_) => CommandName::Serve,
        Order::Container { .. } => CommandName::Container,
        Order::Stop { .. } => CommandName::Stop,
        Order::Demo { .. } => CommandName::Demo,
    }
}

/// The command of the words of which this was read; none where they are none.
pub fn command_asked(asked: &Result<Order, WordsError>) -> Option<CommandName>
    ensures { (words : List (List ℕ)) → order_of words ≡ result_ok asked.now → result ≡ command_of words }
{
    match asked {
        Ok(order) => Some(name_in(order)),
        Err(_) => None,
    }
}
