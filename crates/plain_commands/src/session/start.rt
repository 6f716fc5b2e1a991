//! How a session over memory starts: the desk over the balancers' Books, and the reach that has a reply.
ghost use Rattle.std.specs.Prelude.{◌≡◌, IfOk};
ghost use Rattle.plain_commands.specs.DryStarts.{IsFirstDesk, IsFirstReach};

use crate::session::one_reply::{OneReply, ReplyName};
use jk_io::NoMemory;
use lb_book::PlainDesk;
use site_config::Lb;
use site_reports::{books_of, member_counts};
use std::alloc::Global;

/// A desk over the balancers' Books as they start.
pub(crate) fn desk_of(alloc: Global, lbs: &[Lb]) -> Result<PlainDesk, NoMemory>
    ensures { IfOk result (IsFirstDesk lbs.now) }
{
    let books = books_of(alloc, lbs, 0, 0)?;
    Ok(PlainDesk::new(alloc, books))
}

/// The reach of a reply over the balancers' members, before any talk.
pub(crate) fn reach_of<N: ReplyName>(
    alloc: Global,
    lbs: &[Lb],
    reply: &[u8],
) -> Result<OneReply<N>, NoMemory>
    requires { reply.now ≡ N.reply }
    ensures { IfOk result (IsFirstReach lbs.now) }
{
    let sizes = member_counts(alloc, lbs)?;
    OneReply::<N>::new(alloc, reply, sizes)
}
