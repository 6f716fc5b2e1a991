//! Idle links are looked at, one after another.
ghost use Rattle.std.specs.Prelude.{◌≡◌, ◌^◌, ◌<◌, ◌≤◌, ◌++◌, length};
ghost use Rattle.std.specs.VecDeque.{deque_capacity, deque_len};
ghost use Rattle.conn_pool.specs.Judging.{HasFate, IsBelow, AreLookedAt, counted, kept_by};

use crate::fate::Fate;
use crate::ping::{Pinged, ping};
use crate::report::WatchReport;
use crate::{Idle, LinkList};
use jk_io::Link;
use std::collections::VecDeque;

/// What becomes of a link that may stay idle for at most `limit` looks, and that is pinged where milliseconds for the answer
/// are given.
fn fate_of<L: Link + Drop>(mut idle: Idle<L>, limit: u32, millis: Option<u64>) -> Fate<Idle<L>>
    ensures { HasFate L.Meanings limit millis idle result }
{
    if limit <= idle.looks {
        return Fate::Aged;
    }
    if let Some(millis) = millis {
        match ping(&mut *idle.link, millis) {
            Pinged::Answered => {}
            Pinged::Dead => return Fate::Dead,
            Pinged::Wanted => return Fate::Wanted,
        }
    }
    idle.looks += 1;
    Fate::Kept(idle)
}

/// Counts what became of a link, and puts it after the others where it is kept.
fn settle<A>(fate: Fate<A>, row: &mut VecDeque<A>, report: &mut WatchReport)
where
    A: Drop,
    requires room { deque_len row.old < deque_capacity row.old }
    requires few { IsBelow report.old }
    ensures row { row.new.items ≡ row.old.items ++ kept_by fate }
    ensures report { report.new ≡ counted report.old fate }
{
    match fate {
        Fate::Aged => report.aged += 1,
        Fate::Dead => report.dead += 1,
        Fate::Wanted => report.wanted += 1,
        Fate::Kept(link) => {
            report.kept += 1;
            row.push_back_reserved(link);
        }
    }
}

/// Looks at idle links in turn: those that were idle for more than `limit` looks with this one are closed, and the others
/// pinged where milliseconds for their answer are given. It gives back those that are kept, and takes no memory.
pub fn judge<L: Link + Drop>(
    links: LinkList<Idle<L>>,
    limit: u32,
    ping: Option<u64>,
) -> (LinkList<Idle<L>>, WatchReport)
    requires { length links < 2 ^ 32 }
    ensures judged { AreLookedAt L.Meanings limit ping links result.0 result.1 }
    ensures few { length result.0 ≤ length links }
{
    let mut report = WatchReport::none();
    let mut left = links.len();
    let mut row = VecDeque::from_vec(links.into_vec());
    while left > 0 {
        left -= 1;
        let Some(link) = row.pop_front() else {
            unreachable!()
        };
        settle(fate_of(link, limit, ping), &mut row, &mut report);
    }
    (LinkList::from_vec(row.into_vec()), report)
}
