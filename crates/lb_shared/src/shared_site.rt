//! A Site behind a lock.

use crate::cut_length::CutLength;
use crate::ledgers::{CutLedger, DeskShare};
use crate::left_seat::LeftSeatList;
use crate::locked::Locked;
use crate::site::{Site, SiteName};
use crate::told::SiteLock;
use jk_io::NoMemory;
use std::alloc::Global;
use std::sync::Wait;
use std::sync::ledger::{Blank, Share};

/// The Site that the desks of all threads ask. Each hold of its lock touches one Book, and its value has one history.
#[derive(Drop)]
pub struct SharedSite<'r, L: SiteName, R> {
    pub(crate) rt: &'r R,
    pub(crate) lock: SiteLock<L>,
    pub(crate) cut_at: CutLength<L>,
}

impl<'r, L: SiteName, R> SharedSite<'r, L, R> {
    ghost use Rattle.std.specs.Prelude.{◌≡◌, ℕ, ◌<◌, [], IfOk};
    ghost use Rattle.std.specs.List.{All};
    ghost use Rattle.lb_shared.specs.Histories.{IsClosedAfter, starts_of};
    ghost use Rattle.lb_shared.specs.Locks.{lock_of};
    ghost use Rattle.lb_shared.specs.Sites.{At};

    /// Puts a Site behind a lock, at the start of its history. A journal that has `cut_at` kept entries is cut before a
    /// hold adds more, but for a Return that finds no memory to cut it; 0 is never. The blank is that of the ledger of the cuts, whose
    /// parts go with those of the share.
    pub fn new(
        rt: &'r R,
        alloc: Global,
        site: Site<L>,
        share: Share<L>,
        cuts: Blank,
        cut_at: u32,
    ) -> Result<(SharedSite<'r, L, R>, DeskShare<L>), NoMemory>
        requires whole { share.parts ≡ L.parts }
        requires cuts { (cuts.name ≡ L.cuts_name) × (cuts.parts ≡ L.parts) }
        requires named { cut_at ≡ L.cut_at }
        requires uncut { 0 < cut_at → (lb : ℕ) → At site lb (λ b. b.entries ≡ []) }
        requires starts { starts_of site ≡ L.starts }
        requires fresh { All (λ b. (b.entries ≡ []) × (b.added ≡ 0)) site }
        ensures share { IfOk result (λ x. x.1 ≡ record { parts = share.parts; amount = share.amount }) }
    {
        site.count();
        let (tally, cuts) = cuts.open::<CutLedger<L>>();
        match SiteLock::<L>::open(alloc, Locked::new(site, tally, cut_at)) {
            Ok(lock) => {
                let shared = SharedSite {
                    rt,
                    lock,
                    cut_at: CutLength::of(cut_at),
                };
                Ok((shared, DeskShare::new(share, cuts)))
            }
            Err(_) => Err(NoMemory),
        }
    }

    /// Takes the lock away, once no desk asks the Site any more. Its Books are what one history made of their openings, and
    /// of each of these desks it has just the entries and the cuts that the desk has seen as its own. The share has every part of the
    /// ledger of the cuts, and so counts all of them.
    pub fn into_site(self, seats: LeftSeatList<L>, cuts: Share<CutLedger<L>>) -> Site<L>
    where
        R: Wait,
        requires here { All (λ s. s.lock ≡ lock_of self) seats }
        requires whole { cuts.parts ≡ L.parts }
        ensures { IsClosedAfter L.starts seats cuts.amount result }
    {
        let SharedSite {
            rt,
            lock,
            cut_at: _,
        } = self;
        let mut seat = lock.seat();
        for other in seats.into_vec() {
            lock.join(&mut seat, other.into_seat());
        }
        lock.close(rt, seat).into_site(cuts)
    }
}
