//! All that a worker's log and its rows tell, in one word of the clauses.
use gear_parts::WorkerLog;

/// A worker's log with all that it tells: the rows that it gained, its clients, and how it broke.
pub trait ToldLog: WorkerLog {
    ghost use Rattle.gear_parts.specs.Logs.{LogTells};

    ghost told: { LogTells Self };
}

impl<Y: WorkerLog> ToldLog for Y {
    ghost use Rattle.gear_parts.specs.Logs.{log_tells};

    ghost told = { log_tells Y.gained Y.greets Y.broken_by Y.log_faults };
}
