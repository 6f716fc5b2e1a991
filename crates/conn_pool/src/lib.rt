//! Links to members that are kept idle between talks, the reach that takes them from there, and the watch that looks after them:
//! what is idle too long is closed, and what doesn't answer a ping is.
//!
//! Source: Tomcat Connectors reference, workers.properties, "connection_pool_size", "ping_mode", "connection_pool_timeout" and
//! "connection_ping_interval"; AJPv1.3 reference, CPing and CPong.
//! Own rules: the link put last is taken first, a link of which a call was refused in its talk is never put back, and a fresh
//! link that was dialled takes the place of an idle one. Idle time is counted in looks of the watch (docs/DECISIONS.md). A link
//! is read and written by the watch only while it is in no pool, and a link that is lent isn't looked at.
//! Contract: `PooledReach` is a `Reach`, with what its link tells; `Pool::put` and `Pool::take`; `judge`; `watch_if_due` says
//! when it is due. Read first: specs/Idle.antt, specs/Reaches.antt; for the watch specs/Judging.antt.
//! Errors: those of the dial and the links; want of memory, after which every link that the watch took is back in its pool.
#![tactic(auto)]

mod beginning;
mod fate;
mod idle;
mod judging;
mod keeping;
mod lent;
mod member_look;
mod noted;
mod ping;
mod pool;
mod pooled;
mod report;
mod row;
mod tape;
mod watch;
mod watched_reach;

pub use idle::Idle;
pub use judging::judge;
pub use keeping::Pools;
pub use pool::{HandedIn, Home, LinkList, Pool};
pub use pooled::PooledReach;
pub use report::WatchReport;
pub use tape::{MemTape, NoTape, Tape};
pub use watch::{Watch, watch_if_due};
pub use watched_reach::WatchedReach;
