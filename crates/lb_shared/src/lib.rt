//! Balancers behind one lock: their Books, whose entries and cuts are counted by ledgers, and a desk for each thread that asks them.
//!
//! Source: Tomcat Connectors reference, LoadBalancer HowTo; one lock round all balancers is an own rule.
//! Shapes: a `Site` is in contracts the list of its Books' journals; the amount of a share of its ledger is the number
//! of entries that were added through it; a second ledger counts the cuts of journals in the same way. Receipts, leases, marks, views,
//! strays and segments name the Site in their type.
//! The Site lies behind a lock that keeps one history of it, a list of steps, each an entry that was added or a cut of a journal, with the
//! number of the seat that made it, which exists in contracts alone; a desk's seat, which takes no memory, knows what it has seen of
//! that history and which steps are its own (specs/Histories.antt, `SeesHold`, `MayCut`). The lock is the futex lock of three states,
//! over the kit's table of words and slots.
//! Contract: each call of a `Site`, clauses `ok` and `leaves`; `Site::close`, clause `counted`; `SharedDesk` is a
//! `Desk`, with `hand_back`, clause `back`, `choose` and `command`, clause `shelf`, and each call, clause `sees`; its own `take_back`,
//! clause `shelf`; the type `Leaving`, fields `counted` and `own_cuts`; `SharedSite::into_site`.
//! Of the lock: `HistoryLock::enter`, clause `took`, and `HistoryLock::leave`, clause `left` (specs/Seats.antt).
//! What stands behind the lock keeps that no journal grows much longer than where it is cut (specs/Holds.antt, `AreShort`).
//! Read first: specs/Sites.antt, then specs/Histories.antt, SiteAnswers.antt, Holds.antt and SharedDesks.antt.
//! Errors: `Unopened` of a lock, which gives the value back; `RoomError`, `AdminError` and strays, whose marks only a Site makes.
//! After a refusal of a Site it and the share are as they were; a segment that a refused hold cut goes to the shelf all the same.
#![tactic(auto)]

mod account;
mod cut_length;
mod holds;
mod ledgers;
mod left_seat;
mod lent_desk;
mod lock;
mod locked;
mod mem_shelf;
mod plays;
mod seated_desk;
mod shared_desk;
mod shared_site;
mod shelf;
mod site;
mod stake;
mod threads;
mod told;
mod view;

pub use ledgers::{CutLedger, DeskShare, SiteBlank};
pub use left_seat::{LeftSeat, LeftSeatList};
pub use lent_desk::{DeskLoan, LentDesk, Moment};
pub use lock::{HistoryLock, LockSeat, Unopened};
pub use mem_shelf::{KeptList, MemShelf};
pub use plays::{Law, Telling};
pub use seated_desk::SeatedDesk;
pub use shared_desk::{Leaving, SharedDesk};
pub use shared_site::SharedSite;
pub use shelf::{Admission, Shelf};
pub use site::{
    MarkKind, Site, SiteLease, SiteMark, SiteName, SitePicked, SiteReceipt, SiteReceiptList,
    SiteSegment, SiteStray, SiteView,
};
pub use threads::may_cross_threads;
pub use view::{Claim, View};
