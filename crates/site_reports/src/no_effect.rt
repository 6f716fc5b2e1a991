//! Notes on the lines of a workers.properties that have no effect, or another one than in mod_jk.
use jk_io::{Bytes, ListOf};
use site_config::WorkerKind;

/// Why a line has no effect, or another one than in mod_jk.
#[derive(Clone, Copy)]
pub enum NoEffect {
    /// The directive isn't supported.
    Unsupported,
    /// The key names no directive of a worker.
    NoDirective,
    /// The key doesn't begin with `worker.`.
    NoWorker,
    /// The directive is for another type of worker than this one.
    OtherType(WorkerKind),
    /// It names users, of whom jkd knows none, so the status worker is closed.
    Users,
    /// A later line gives it again.
    Again,
    /// The redirect names no other member of the balancer.
    Redirect,
    /// The host is empty.
    NoHost,
    /// The value has `$(`, which in mod_jk begins the name of another property.
    Variable,
    /// The value has `#`, at which it would end in mod_jk.
    Hash,
}

/// A note on a line.
#[derive(Drop)]
pub struct WorkersNote {
    /// From 1.
    pub line: u32,
    pub key: Bytes,
    pub why: NoEffect,
}

/// Notes in the order of their lines.
pub type WorkersNoteList = ListOf<WorkersNote>;
