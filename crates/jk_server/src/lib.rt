//! Workers that serve the clients of one site, by the parts of gears, and the orders `serve` and `container`.
//!
//! Source: own rules for the causes of a worker's end, what is done between two sessions, the order of a run's closing, and the
//! statuses of both orders (docs/DECISIONS.md).
//! Contract: `serve`, clauses `serves` and `refused`, and `contain`, clause `contains`, over a world that hands out gears; below them
//! `serve_gears`, clauses `ran` and `unasked`, and `serve_doors` of ajp_container, for gears; `serve_part`, clauses `served`, `fit`
//! and `parts`, for a part; `run_container` of ajp_container for containers. Read first: specs/Commands.antt; then
//! specs/Runs.antt, over specs/Served.antt and client_session's specs/Sessions.antt; specs/Closings.antt, and gear_parts'
//! specs/Containers.antt.
//! Errors: an order's end is a `CommandEnd`, which tells its status; a run's is how each worker ended, a `WorkerEnd`, and how the
//! closing did, or its gears, where memory was wanted before the workers.
#![tactic(auto)]

mod client;
mod orders;
mod part;
mod runs;
mod serving;
mod told_log;
mod workers;

pub use ajp_container::{
    ContainerRunEnd, ContainerWorker, ContainerWorkerList, DoorList, run_container,
};
pub use gear_parts::{GearOrder, Part};
pub use orders::container::{ContainerOrder, contain};
pub use orders::ends::CommandEnd;
pub use orders::serve::{ServeRun, cut_at, serve};
pub use part::{WorkerEnd, WorkerEndList};
pub use runs::ends::{Closing, SiteRun};
pub use runs::parts::{SitePlan, WatchPlan};
pub use runs::serve::serve_gears;
pub use serving::serve_part;
pub use told_log::ToldLog;
pub use workers::MAX_WORKERS;
