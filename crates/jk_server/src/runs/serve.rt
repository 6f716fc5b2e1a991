//! A connector's run: the balancers start, the workers serve, the desks are closed.
ghost use Rattle.std.specs.Prelude.{◌≡◌, ◌<◌, ◌≤◌, map, true, vec_len, IfErr, IfOk};
ghost use Rattle.std.specs.Option.{ForSome};
ghost use Rattle.std.specs.List.{All};
ghost use Rattle.site_mounts.specs.Sites.{stands_in};
ghost use Rattle.gear_parts.specs.Starts.{AreStarted};
ghost use Rattle.jk_server.specs.Runs.{RunsGears};
ghost use Rattle.site_reports.specs.Starts.{AreStarts};
ghost use Rattle.jk_server.specs.Started.{IsNewSite, AreReady, RunsStarted, pool_table};
ghost use Rattle.jk_server.specs.RunTells.{gears_at, run_tells};
ghost use Rattle.jk_server.specs.Watches.{watch_at};

use crate::runs::closing::settle;
use crate::runs::ends::SiteRun;
use crate::runs::new_site::NewSite;
use crate::runs::parts::{SitePlan, WatchPlan, work};
use crate::workers::MAX_WORKERS;
use conn_pool::{Idle, Pools, Tape, Watch};
use gear_parts::{Common, Gear, first_moment};
use jk_io::{Clock, Dial, Door, NoMemory, SizeList, SizeTable};
use lb_model::MemberConfig;
use lb_shared::{DeskShare, SharedSite, Shelf, Site, SiteBlank, SiteName};
use request_log::Timed;
use site_config::{Config, Lb};
use site_reports::books_of;
use std::alloc::Global;
use std::marker::Brand;
use std::sync::Wait;
use std::thread::Threads;

/// Serves the clients of a site by a worker for each gear, which writes the log of its requests where its gear has one. The
/// balancers start with number 0 at the moment that the first gear's clock gives, and a journal is cut where it keeps as many
/// entries as the plan says. After the run each is cut once more, in order, and its segment goes to the first gear's shelf.
///
/// For want of memory before the workers the gears come back, and nothing was asked of them but that moment.
pub fn serve_gears<
    D: Door + Drop + Send,
    G: Dial + Drop + Send,
    T: Tape + Drop + Send,
    K: Clock + Drop + Send,
    S: Shelf + Drop + Send,
    O: Timed + Drop + Send,
    R: Threads + Wait + Sync,
>(
    rt: &R,
    alloc: Global,
    plan: SitePlan<'_>,
    gears: Vec<Gear<D, G, T, K, S, O>>,
) -> Result<SiteRun<Brand, Gear<D, G, T, K, S, O>>, Vec<Gear<D, G, T, K, S, O>>>
where
    D::L: Send,
    requires some { 0 < vec_len gears }
    requires few { vec_len gears ≤ MAX_WORKERS }
    requires stands { stands_in plan.cfg.now plan.map.now ≡ true }
    requires idle { All (λ g. T.is_idle g.tape) gears.items }
    ensures ran { let told = run_tells D.Door T.Tape K.Clock D.L.Meanings S.Shelf O.Meanings D.L.may_wait in
        IfOk result (RunsGears told plan.entry gears.items) }
    ensures unasked { let told = run_tells D.Door T.Tape K.Clock D.L.Meanings S.Shelf O.Meanings D.L.may_wait in
        IfErr result (λ back. AreStarted (gears_at told gears.items) (gears_at told back.items)) }
{
    let mut gears = gears;
    let at = first_moment(&mut gears);
    match new_site(alloc, plan, at, gears.len()) {
        Ok(new) => over_site::<Brand, D, G, T, K, S, O, R>(rt, alloc, plan, new, gears),
        Err(NoMemory) => Err(gears),
    }
}

/// A Site for this many workers that isn't open yet, whose balancers start at this moment.
fn new_site(alloc: Global, plan: SitePlan<'_>, at: u64, workers: usize) -> Result<NewSite, NoMemory>
    ensures parts { IfOk result (λ new. (new.blank.entries.parts ≡ workers) × (new.blank.cuts.parts ≡ workers)) }
    ensures at { IfOk result (λ new. new.at ≡ at) }
    ensures books { IfOk result (λ new. AreStarts plan.entry.cfg.now.lbs new.at 0 new.books) }
{
    Ok(NewSite {
        blank: SiteBlank::new(workers as u64),
        books: books_of(alloc, plan.cfg.lbs.as_slice(), at, 0)?,
        at,
    })
}

/// The watch that begins at this moment.
fn watch_at(plan: Option<WatchPlan>, at: u64) -> Option<Watch>
    ensures watch { result ≡ watch_at plan at }
    ensures every { ForSome result (λ w. 0 < w.every) }
{
    match plan {
        Some(WatchPlan { every, limit }) if every > 0 => Some(Watch {
            every,
            limit,
            last: at,
        }),
        _ => None,
    }
}

/// The pool sizes of each balancer's members.
fn pool_sizes(alloc: Global, lbs: &[Lb]) -> Result<SizeTable, NoMemory>
    ensures { IfOk result (λ table. table ≡ pool_table lbs.now) }
{
    let mut table = Vec::with_capacity(alloc, lbs.len())?;
    for lb in lbs {
        table.push(sizes_in(alloc, lb.book.members.as_slice())?)?;
    }
    Ok(SizeTable::from_vec(table))
}

/// The pool sizes of these members.
fn sizes_in(alloc: Global, members: &[MemberConfig]) -> Result<SizeList, NoMemory>
    ensures { IfOk result (λ sizes. sizes ≡ map (λ m. m.pool) members.now) }
{
    Ok(SizeList::from_vec(members.iter().map(|member| member.pool).collect(alloc)?))
}

/// A pool of idle links for each member of each balancer.
fn pools_for<'r, C: Drop, R>(
    rt: &'r R,
    alloc: Global,
    cfg: &Config,
) -> Result<Pools<'r, Idle<C>, R>, NoMemory>
    ensures { IfOk result (λ pools. pools ≡ pool_table cfg.now.lbs) }
{
    let lbs = cfg.lbs.as_slice();
    let pools = Pools::new(rt, alloc, &pool_sizes(alloc, lbs)?)?;
    Ok(pools)
}

/// Serves over the Site with this name, by workers that share it and the pools of idle links. For want of memory before the
/// workers the gears come back, and nothing was asked of them.
fn over_site<
    'r,
    L: SiteName + Send + Sync,
    D: Door + Drop + Send,
    G: Dial + Drop + Send,
    T: Tape + Drop + Send,
    K: Clock + Drop + Send,
    S: Shelf + Drop + Send,
    O: Timed + Drop + Send,
    R: Threads + Wait + Sync,
>(
    rt: &'r R,
    alloc: Global,
    plan: SitePlan<'_>,
    new: NewSite,
    gears: Vec<Gear<D, G, T, K, S, O>>,
) -> Result<SiteRun<L, Gear<D, G, T, K, S, O>>, Vec<Gear<D, G, T, K, S, O>>>
where
    D::L: Send,
    requires new { IsNewSite L.name L.cuts_name L.parts L.starts L.sizes L.firsts L.cut_at plan.cut plan.cfg.now.lbs new }
    requires ready { AreReady T.is_idle L.parts plan.cfg.now plan.map.now (vec_len gears) gears.items }
    ensures ran { let told = run_tells D.Door T.Tape K.Clock D.L.Meanings S.Shelf O.Meanings D.L.may_wait in
        IfOk result (RunsStarted told plan.entry new.at gears.items) }
    ensures unasked { IfErr result (λ back. back.items ≡ gears.items) }
{
    let watch = watch_at(plan.watch, new.at);
    let pools = match pools_for(rt, alloc, plan.cfg) {
        Ok(pools) => pools,
        Err(NoMemory) => return Err(gears),
    };
    let (shared, share) = match shared_site::<L, R>(rt, alloc, plan, new) {
        Ok(shared) => shared,
        Err(NoMemory) => return Err(gears),
    };
    let common = Common {
        site: &shared,
        pools: &pools,
        cfg: plan.cfg,
        watch,
        format: plan.format,
    };
    match work(rt, alloc, plan, &common, share, gears) {
        Ok(ran) => Ok(settle(shared, ran)),
        Err(gears) => Err(gears),
    }
}

/// Opens a Site that workers share.
fn shared_site<'r, L: SiteName, R>(
    rt: &'r R,
    alloc: Global,
    plan: SitePlan<'_>,
    new: NewSite,
) -> Result<(SharedSite<'r, L, R>, DeskShare<L>), NoMemory>
    requires { IsNewSite L.name L.cuts_name L.parts L.starts L.sizes L.firsts L.cut_at plan.cut plan.cfg.now.lbs new }
    ensures { IfOk result (λ x. (x.1.parts ≡ L.parts) × (x.1.amount ≡ 0)) }
{
    let NewSite {
        blank: SiteBlank { entries, cuts },
        books,
        at: _,
    } = new;
    let (site, share) = Site::<L>::open(entries, books);
    SharedSite::new(rt, alloc, site, share, cuts, plan.cut)
}
