//! Which requests a drill makes, and by how many threads.
ghost use Rattle.std.specs.Prelude.{◌≤◌};
ghost use Rattle.drill.specs.declared.plan.TheConstants.{MAX_REQUESTS, MAX_THREADS};

/// The most threads of a drill.
pub const MAX_THREADS: u32 = 64;

/// The most requests of a drill.
pub const MAX_REQUESTS: u32 = 1_000_000;

/// A drill's requests.
#[derive(Clone, Copy)]
pub(crate) struct Plan {
    pub(crate) seed: u64,
    pub(crate) threads: u32,
    pub(crate) requests: u32,
    pub ghost some_threads: { 1 ≤ threads },
    pub ghost few_threads: { threads ≤ MAX_THREADS },
    pub ghost few_requests: { requests ≤ MAX_REQUESTS },
}
