//! The order that words stand for.
ghost use Rattle.std.specs.Prelude.{◌≡◌, ◌↔◌, Some, None, IfOk, Err};
ghost use Rattle.jk_cli.specs.Orders.{order_of, command_of};

use crate::name::CommandName;
use crate::order::{Order, WordsError};
use crate::plans::plan_of;
use jk_io::Bytes;
use std::alloc::Global;

/// The command that the words, with its words and options, stand for. It takes no memory.
pub fn command_of(words: &[Bytes]) -> Option<CommandName>
    ensures { result ≡ command_of words.now }
{
    let plan = plan_of(words)?;
    Some(plan.command())
}

/// The order that the words after the program's name stand for.
pub fn read_words(alloc: Global, words: &[Bytes]) -> Result<Order, WordsError>
    ensures ok { IfOk result (λ order. order_of words.now ≡ Some order) }
    ensures bad { (result ≡ Err WordsError.Bad) ↔ (order_of words.now ≡ None) }
{
    match plan_of(words) {
        None => Err(WordsError::Bad),
        Some(plan) => Ok(plan.order(alloc)?),
    }
}
