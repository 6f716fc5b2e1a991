//! The part of a gear, with which a worker of a connector works, and the gear again.
ghost use Rattle.std.specs.Prelude.{◌≡◌, [], false, is_some};
ghost use Rattle.gear_parts.specs.GearParts.{DeskLeaves, gear_in, start_by, start_with};

use crate::common::Common;
use crate::gear_log::GearLog;
use crate::part::Part;
use crate::world::Gear;
use conn_pool::{Tape, WatchedReach};
use jk_io::Dial;
use lb_shared::{DeskShare, Leaving, SharedDesk, Shelf, SiteName};
use request_log::Timed;
use std::alloc::Global;

/// The part of a gear, with this part of the share. It takes no memory.
pub fn part_of<'s, 'r, L: SiteName, D, G: Dial, T: Tape, K, S: Shelf, O: Timed, R>(
    alloc: Global,
    common: &Common<'s, 'r, L, G, R>,
    share: DeskShare<L>,
    gear: Gear<D, G, T, K, S, O>,
) -> Part<'s, 'r, L, D, WatchedReach<'s, 'r, G, T, R>, K, S, R, GearLog<'s, O>>
    requires part { share.parts ≡ 1 }
    requires amount { share.amount ≡ 0 }
    requires idle { T.is_idle gear.tape }
    ensures { start_with result ≡ start_by common.now L.sizes gear }
{
    let Gear {
        door,
        dial,
        tape,
        clock,
        shelf,
        log,
    } = gear;
    Part {
        door,
        reach: WatchedReach::new(common.pools, dial, tape, common.cfg, common.watch),
        clock,
        desk: SharedDesk::new(alloc, common.site, share, shelf),
        log: GearLog::new(alloc, common.format, log),
    }
}

/// The gear of a part, with the shelf of its desk, and what the desk leaves beside that. It takes no memory.
pub fn gear_of<'s, 'r, 'f, L: SiteName, D, G: Dial, T: Tape, K, S: Shelf, O: Timed, R>(
    part: Part<'s, 'r, L, D, WatchedReach<'s, 'r, G, T, R>, K, S, R, GearLog<'f, O>>,
) -> (Gear<D, G, T, K, S, O>, Leaving<L, ()>)
    requires none_held { part.desk.desk.held ≡ [] }
    requires idle { is_some part.reach.pooled.lent ≡ false }
    ensures gear { result.0 ≡ gear_in part.entry }
    ensures desk { DeskLeaves part.entry.desk result.1 }
{
    let Part {
        door,
        reach,
        clock,
        desk,
        log,
    } = part;
    let (dial, tape) = reach.into_parts();
    let (shelf, leaving) = shelf_off(desk.leave());
    let gear = Gear {
        door,
        dial,
        tape,
        clock,
        shelf,
        log: log.into_log(),
    };
    (gear, leaving)
}

/// Takes the shelf off what a desk leaves.
fn shelf_off<L: SiteName, S>(leaving: Leaving<L, S>) -> (S, Leaving<L, ()>)
    ensures shelf { result.0 ≡ leaving.shelf }
    ensures receipts { (result.1.receipts ≡ leaving.receipts) × (result.1.forgotten ≡ leaving.forgotten) }
    ensures share { (result.1.share.amount ≡ leaving.share.amount) × (result.1.share.parts ≡ leaving.share.parts) }
    ensures seat { result.1.seat ≡ leaving.seat }
    ensures cuts { (result.1.cuts.amount ≡ leaving.cuts.amount) × (result.1.cuts.parts ≡ leaving.cuts.parts) }
{
    let Leaving {
        share,
        receipts,
        forgotten,
        shelf,
        seat,
        cuts,
    } = leaving;
    let rest = Leaving {
        share,
        receipts,
        forgotten,
        shelf: (),
        seat,
        cuts,
    };
    (shelf, rest)
}
