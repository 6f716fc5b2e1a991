//! The closing of a connector's run. The desks are closed, and what the journals still keep goes to the first shelf.
ghost use Rattle.std.specs.Prelude.{◌≡◌, ◌<◌, ◌≤◌, length, map, sum_by, vec_len};
ghost use Rattle.std.specs.List.{All};
ghost use Rattle.lb_shared.specs.Locks.{lock_of};
ghost use Rattle.lb_model.specs.declared.config.TheConstants.{MAX_BALANCERS};
ghost use Rattle.jk_server.specs.Shelved.{EndsByBooks, EndsSo};

use crate::part::{Ran, WorkerEndList};
use crate::runs::ends::{Closing, SiteRun};
use gear_parts::{Gear, keep_on_first};
use jk_io::IoError;
use lb_closing::{CloseError, Closed, LeavingList, close_own_desks};
use lb_shared::{Leaving, SharedSite, Shelf, SiteName};
use std::sync::Wait;

/// Closes the desks of a run, and keeps what the journals still have on the first gear's shelf.
pub(crate) fn settle<
    'r,
    L: SiteName,
    D: Drop,
    G: Drop,
    T: Drop,
    K: Drop,
    S: Shelf + Drop,
    O: Drop,
    R: Wait,
>(
    site: SharedSite<'r, L, R>,
    ran: Ran<L, Leaving<L, ()>, Gear<D, G, T, K, S, O>>,
) -> SiteRun<L, Gear<D, G, T, K, S, O>>
    requires some { (0 < vec_len ran.gears) × (0 < length ran.leaving.items) }
    requires whole { sum_by (λ l. l.share.parts) ran.leaving.items ≡ L.parts }
    requires here { All (λ l. l.seat.lock ≡ lock_of site) ran.leaving.items }
    ensures workers { result.workers ≡ ran.workers.items }
    ensures closed { EndsSo S.shelved S.faults L.sizes L.firsts L.starts (map (λ l. l.seat) ran.leaving.items)
        ran.gears.items result.gears.items result.closing }
{
    let Ran {
        workers,
        leaving,
        gears,
    } = ran;
    let mut gears = gears;
    let closing = close_gears(site, LeavingList::from_vec(leaving), &mut gears);
    SiteRun {
        workers: WorkerEndList::from_vec(workers),
        closing,
        gears,
    }
}

/// Closes the desks. If that fails, no gear comes back.
fn close_gears<
    'r,
    L: SiteName,
    D: Drop,
    G: Drop,
    T: Drop,
    K: Drop,
    S: Shelf + Drop,
    O: Drop,
    R: Wait,
>(
    site: SharedSite<'r, L, R>,
    leaving: LeavingList<L, ()>,
    gears: &mut Vec<Gear<D, G, T, K, S, O>>,
) -> Closing<L>
    requires some { (0 < vec_len gears.old) × (0 < length leaving) }
    requires whole { sum_by (λ l. l.share.parts) leaving ≡ L.parts }
    requires here { All (λ l. l.seat.lock ≡ lock_of site) leaving }
    ensures { EndsSo S.shelved S.faults L.sizes L.firsts L.starts (map (λ l. l.seat) leaving)
        gears.old.items gears.new.items result }
{
    match close_own_desks(site, leaving) {
        Ok(closed) => close_books(closed, gears),
        Err(CloseError::Differs(discord)) => {
            gears.clear();
            Closing::Differs(discord)
        }
        Err(CloseError::NoMemory) => {
            gears.clear();
            Closing::NoMemory
        }
    }
}

/// Keeps the last segments on the first gear's shelf.
fn close_books<L, D: Drop, G: Drop, T: Drop, K: Drop, S: Shelf + Drop, O: Drop>(
    closed: Closed<()>,
    gears: &mut Vec<Gear<D, G, T, K, S, O>>,
) -> Closing<L>
    requires some { 0 < vec_len gears.old }
    requires few { length closed.books ≤ MAX_BALANCERS }
    ensures { EndsByBooks S.shelved S.faults closed.books gears.old.items gears.new.items result }
{
    let Closed {
        books,
        entries: _,
        shelves: _,
    } = closed;
    let kept = keep_on_first(books, gears.as_mut_slice());
    match kept {
        Ok(()) => Closing::Kept,
        Err(IoError::Failed) => Closing::ShelfFault,
        Err(IoError::NoMemory) => Closing::NoMemory,
    }
}
