//! How many clients of a site may wait, by how many descriptors the process may have.
ghost use Rattle.std.specs.Prelude.{◌≡◌, ◌≤◌, ℕ, Option};
ghost use Rattle.std.specs.Option.{option_copied};
ghost use Rattle.gear_worlds.specs.Descriptors.{members_in, waiting_by, wanted_by};

use jk_io::ClientLimits;
use libc::types::rlimit;
use libc::{RLIMIT_NOFILE, getrlimit};
use site_config::Config;

/// What the system tells where it sets no limit.
const NO_LIMIT: u64 = u64::MAX;

/// The descriptors for all else: standard streams, files, the listener.
const OTHERS: u64 = 64;

/// The clients that wait at the least.
const LEAST_WAITING: u64 = 16;

// How many descriptors the process may have; none where the system sets no limit, or doesn't say.
fn allowed() -> Option<u64> {
    let mut limit = rlimit {
        rlim_cur: 0,
        rlim_max: 0,
    };
    if getrlimit(RLIMIT_NOFILE, &mut limit) != 0 || limit.rlim_cur == NO_LIMIT {
        return None;
    }
    Some(limit.rlim_cur)
}

// How many members a site has.
fn members_of(cfg: Option<&Config>) -> u64
    ensures all { result ≡ members_in (option_copied cfg.entry) }
    ensures few { result ≤ 65536 }
{
    let mut members: u64 = 0;
    if let Some(cfg) = cfg {
        for lb in cfg.lbs.as_slice() {
            members += lb.ends.len() as u64;
        }
    }
    members
}

// How many descriptors are wanted but for the clients that wait.
fn wanted_by(workers: u32, members: u64) -> u64
    requires { members ≤ 65536 }
    ensures { result ≡ wanted_by workers members }
{
    u64::from(workers) * (1 + 2 * members) + OTHERS
}

// How many of the clients that may wait by their limits there are descriptors for.
fn waiting_by(allowed: Option<u64>, wanted: u64, asked: u64) -> u64
    ensures { result ≡ waiting_by allowed wanted asked }
{
    match allowed {
        Some(allowed) => allowed.saturating_sub(wanted).max(LEAST_WAITING).min(asked),
        None => asked,
    }
}

/// The limits of a site's clients, with no more of them waiting than there are descriptors for. Where these are too few, standard
/// error has a line of it; one that can't be written is no fault.
pub(crate) fn fitting<R: Eprint>(
    rt: &R,
    threads: u32,
    cfg: Option<&Config>,
    limits: ClientLimits,
) -> ClientLimits
    // By what the system allows.
    ensures { (allowed : Option ℕ) × (result ≡ record limits {
      waiting = waiting_by allowed (wanted_by threads (members_in (option_copied cfg.entry))) limits.waiting;
    }) }
{
    let wanted = wanted_by(threads, members_of(cfg));
    let allowed = allowed();
    let waiting = waiting_by(allowed, wanted, limits.waiting);
    let all = wanted.saturating_add(limits.waiting);
    if let Some(has) = allowed.filter(|has| *has < all) {
        let _ = eprintln!(rt;
            "jkd: {has} descriptors are allowed and {all} are wanted: {waiting} clients may wait"
        );
    }
    ClientLimits { waiting, ..limits }
}
