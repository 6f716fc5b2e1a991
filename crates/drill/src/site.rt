//! The site of a drill: two members behind one balancer, and the container that both of them are.
ghost use Rattle.std.specs.Prelude.{◌≡◌, ◌≤◌, ℕ, [], ◌∷◌, length, codes, true, IfOk, Some, slice_get};
ghost use Rattle.exchange.specs.Requests.{sizes_of};
ghost use Rattle.site_config.specs.declared.balancer.Lb.{Lb};
ghost use Rattle.site_config.specs.declared.config.Named.TheVariants as named;
ghost use Rattle.site_config.specs.declared.endpoint.Endpoint.{Endpoint};
ghost use Rattle.site_mounts.specs.Sites.{stands_in};
ghost use Rattle.drill.specs.Sites.{IsDrillApp, IsDrillBook, IsDrillEnd, IsDrillLb, IsDrillSite, member_of, two_members};

use ajp_container::AppConfig;
use jk_io::{Bytes, ListOf, NoMemory};
use lb_model::{Activation, FailList, LbConfig, MemberConfig, MemberList, Method};
use site_config::{
    Config, EndList, Endpoint, IgnoredList, Lb, LbList, MemberLimits, Named, NamedList,
};
use site_mounts::{MapError, UriMap, read_map};
use std::alloc::Global;

/// The balancer's name.
pub(crate) const BALANCER: &[u8] = b"lb";

/// Every path is mounted at it.
const MAP: &[u8] = b"/*=lb\n";

const POOL: u32 = 64;

/// Seconds between two maintenances, and until a failed member is tried again. The clock of a drill stands still.
const MINUTE: u64 = 60;

const PORT: u16 = 8009;

const RETRIES: u32 = 2;

/// The greatest packet of the members and of the container.
const PACKET: u32 = 8192;

/// What the threads of a drill serve by.
#[derive(Drop)]
pub(crate) struct DrillSite {
    pub(crate) cfg: Config,
    pub(crate) map: UriMap,
    pub(crate) app: AppConfig,
    pub ghost site: { IsDrillSite cfg map },
    pub ghost container: { IsDrillApp app },
}

fn member(alloc: Global, name: &[u8], factor: u32) -> Result<MemberConfig, NoMemory>
    ensures { IfOk result (λ m. m ≡ member_of name.now factor) }
{
    Ok(MemberConfig {
        name: Bytes::from_slice(alloc, name)?,
        route: Bytes::from_slice(alloc, name)?,
        factor,
        distance: 0,
        activation: Activation::Active,
        redirect: None,
        pool: POOL,
    })
}

fn members(alloc: Global) -> Result<MemberList, NoMemory>
    ensures { IfOk result (λ ms. ms ≡ two_members) }
{
    let mut members = MemberList::new(alloc);
    members.push(member(alloc, b"a", 1)?)?;
    members.push(member(alloc, b"b", 2)?)?;
    Ok(members)
}

/// How the balancer chooses.
pub(crate) fn book_config(alloc: Global) -> Result<LbConfig, NoMemory>
    ensures { IfOk result IsDrillBook }
{
    let members = members(alloc)?;
    match LbConfig::new(Method::Request, true, false, false, MINUTE, MINUTE, members) {
        Ok(config) => Ok(config),
        Err(_) => unreachable!(),
    }
}

fn endpoint(alloc: Global) -> Result<Endpoint, NoMemory>
    ensures { IfOk result IsDrillEnd }
{
    Ok(Endpoint {
        host: Bytes::from_slice(alloc, b"localhost")?,
        port: PORT,
        retries: RETRIES,
        packet: PACKET,
        secret: None,
        recovery: 0,
        ping_new: false,
        ping_each: false,
        ping_idle: false,
        fail_on: FailList::new(alloc),
        limits: MemberLimits::none(),
    })
}

fn endpoints(alloc: Global) -> Result<EndList, NoMemory>
    ensures two { IfOk result (λ ends. length ends ≡ 2) }
    ensures each { IfOk result (λ ends. (m : ℕ) (e : Endpoint) → slice_get ends m ≡ Some e → IsDrillEnd e) }
{
    let mut ends = EndList::new(alloc);
    ends.push(endpoint(alloc)?)?;
    ends.push(endpoint(alloc)?)?;
    Ok(ends)
}

fn balancer_with(alloc: Global, book: LbConfig, ends: EndList) -> Result<Lb, NoMemory>
    requires book { IsDrillBook book }
    requires two { length ends ≡ 2 }
    requires each { (m : ℕ) (e : Endpoint) → slice_get ends m ≡ Some e → IsDrillEnd e }
    ensures two { IfOk result (λ lb. length lb.book.members ≡ 2) }
    ensures balancer { IfOk result IsDrillLb }
{
    Ok(Lb {
        name: Bytes::from_slice(alloc, BALANCER)?,
        book,
        ends,
        cookie: Bytes::from_slice(alloc, b"JSESSIONID")?,
        path: Bytes::from_slice(alloc, b";jsessionid")?,
    })
}

fn balancers(alloc: Global) -> Result<LbList, NoMemory>
    ensures sized { IfOk result (λ lbs. sizes_of lbs ≡ 2 ∷ []) }
    ensures balancer { IfOk result (λ lbs. (lb : Lb) → slice_get lbs 0 ≡ Some lb → IsDrillLb lb) }
{
    let book = book_config(alloc)?;
    let lb = balancer_with(alloc, book, endpoints(alloc)?)?;
    let mut lbs = LbList::new(alloc);
    lbs.push(lb)?;
    Ok(lbs)
}

fn names(alloc: Global) -> Result<NamedList, NoMemory>
    ensures { IfOk result (λ names. names ≡ (codes "lb", named.Balancer 0) ∷ []) }
{
    let mut names = NamedList::new(alloc);
    names.push((Bytes::from_slice(alloc, BALANCER)?, Named::Balancer(0)))?;
    Ok(names)
}

fn config(alloc: Global) -> Result<Config, NoMemory>
    ensures sized { IfOk result (λ c. sizes_of c.lbs ≡ 2 ∷ []) }
    ensures balancer { IfOk result (λ c. (lb : Lb) → slice_get c.lbs 0 ≡ Some lb → IsDrillLb lb) }
    ensures maintains { IfOk result (λ c. c.maintain ≡ 60) }
    ensures named { IfOk result (λ c. c.listed ≡ (codes "lb", named.Balancer 0) ∷ []) }
{
    let lbs = balancers(alloc)?;
    let listed = names(alloc)?;
    Ok(Config {
        lbs,
        statuses: ListOf::new(alloc),
        listed,
        maintain: MINUTE,
        ignored: IgnoredList::new(alloc),
    })
}

fn map_of(alloc: Global, cfg: &Config) -> Result<UriMap, NoMemory>
    requires { cfg.now.listed ≡ (codes "lb", named.Balancer 0) ∷ [] }
    ensures { IfOk result (λ map. stands_in cfg.now map ≡ true) }
{
    match read_map(alloc, MAP, cfg) {
        Ok(map) => Ok(map),
        Err(MapError::Refused { .. }) => unreachable!(),
        Err(MapError::NoMemory) => Err(NoMemory),
    }
}

fn application(alloc: Global) -> Result<AppConfig, NoMemory>
    ensures { IfOk result IsDrillApp }
{
    Ok(AppConfig {
        route: Bytes::from_slice(alloc, b"drill")?,
        secret: None,
        packet: PACKET,
    })
}

/// The site: members a of factor 1 and b of factor 2, mounted at every path.
pub(crate) fn drill_site(alloc: Global) -> Result<DrillSite, NoMemory> {
    let cfg = config(alloc)?;
    let map = map_of(alloc, &cfg)?;
    let app = application(alloc)?;
    Ok(DrillSite { cfg, map, app })
}
