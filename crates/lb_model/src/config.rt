//! A balancer's configuration, and its ranges.
ghost use Rattle.std.specs.Prelude.{◌≡◌, ℕ, ◌<◌, ◌≤◌, ◌^◌, ◌↔◌, length, take, map, slice_set, IfOk, IfErr, IsTrue, MatchOption};
ghost use Rattle.lb_model.specs.Ranges.{AreInRange, IsCount, IsFirstBadMember, IsInRange, IsPeriod, IsRefusedConfig, factors_in, redirects_within};
ghost use Rattle.lb_model.specs.Multiple.{multiple_of};
ghost use Rattle.std.specs.Option.{SomeIff};

use crate::config_error::ConfigError;
use crate::lcm::lcm_of;
use crate::member::{MemberConfig, MemberList, Method};
use jk_io::{ListOf, NoMemory};
use std::alloc::Global;

/// The most members of a balancer.
pub const MAX_MEMBERS: usize = 64;

/// The most balancers of a site.
pub const MAX_BALANCERS: usize = 1024;

/// The most seconds of a period: a day.
pub const MAX_PERIOD_SECONDS: u64 = 86_400;

/// A balancer's configuration, each value in its range.
#[derive(Drop)]
pub struct LbConfig {
    pub method: Method,
    /// Whether a session stays with its member.
    pub sticky: bool,
    /// Whether a session is refused where neither its member nor that one's redirect serves.
    pub force: bool,
    /// Whether it stands for one worker that is mounted without a balancer.
    pub direct: bool,
    /// Seconds between two maintenances, 1 to 86,400.
    pub maintain: u64,
    /// Seconds until a failed member may be tried again, 1 to 86,400.
    pub recover: u64,
    /// 1 to 64 members.
    pub members: MemberList,
    pub ghost count: { IsCount (length members) },
    pub ghost in_range: { AreInRange members },
    pub ghost maintains: { IsPeriod maintain },
    pub ghost recovers: { IsPeriod recover },
    pub ghost narrow: { multiple_of (factors_in members) < 2 ^ 32 },
}

fn redirect_is_within(members: u32, index: u32, redirect: Option<u32>) -> bool
    ensures value { result ≡ redirects_within members index redirect }
{
    match redirect {
        None => true,
        Some(target) => target < members && target != index,
    }
}

fn is_in_range(members: u32, index: u32, member: &MemberConfig) -> bool
    ensures value { IsTrue result ↔ IsInRange members index member.now }
{
    let weights = member.factor >= 1 && member.factor <= 65535 && member.distance <= 65535;
    let pool = member.pool >= 1 && member.pool <= 1024;
    weights && pool && redirect_is_within(members, index, member.redirect)
}

fn is_period(seconds: u64) -> bool
    ensures value { IsTrue result ↔ IsPeriod seconds }
{
    seconds >= 1 && seconds <= MAX_PERIOD_SECONDS
}

fn are_periods(maintain: u64, recover: u64) -> bool
    ensures value { IsTrue result ↔ (IsPeriod maintain × IsPeriod recover) }
{
    is_period(maintain) && is_period(recover)
}

// The first member with a value out of its range.
fn first_bad(members: &[MemberConfig]) -> Option<u32>
    requires { IsCount (length members.now) }
    ensures value { MatchOption result (AreInRange members.now) (IsFirstBadMember members.now) }
{
    let count = members.len() as u32;
    for (i, member) in members.iter().enumerate() {
        let index = i as u32;
        if !is_in_range(count, index, member) {
            return Some(index);
        }
    }
    None
}

// The members' factors go to the front of the table.
fn put_factors(members: &[MemberConfig], table: &mut [u32])
    requires { length members.now ≤ length table.old }
    ensures front { take (length members.now) table.new ≡ factors_in members.now }
{
    for (i, member) in members.iter().enumerate() {
        table[i] = member.factor;
    }
}

pub(crate) fn common_multiple(members: &[MemberConfig]) -> Option<u32>
    requires count { IsCount (length members.now) }
    requires in_range { AreInRange members.now }
    ensures value { SomeIff result (multiple_of (factors_in members.now) < 2 ^ 32) (multiple_of (factors_in members.now)) }
{
    let mut table = [0u32; 64];
    put_factors(members, &mut table);
    lcm_of(&table[..members.len()])
}

fn copy_members(alloc: Global, members: &[MemberConfig]) -> Result<Vec<MemberConfig>, NoMemory>
    ensures ok { IfOk result (λ v. v.items ≡ members.now) }
{
    let mut copies = Vec::with_capacity(alloc, members.len())?;
    for member in members {
        copies.push(member.copy()?)?;
    }
    Ok(copies)
}

impl LbConfig {
    /// The configuration of these values, or the first refusal. It takes no memory.
    pub fn new(
        method: Method,
        sticky: bool,
        force: bool,
        direct: bool,
        maintain: u64,
        recover: u64,
        members: MemberList,
    ) -> Result<LbConfig, ConfigError>
        ensures flags { IfOk result (λ c. (c.method ≡ method) × (c.sticky ≡ sticky) × (c.force ≡ force) × (c.direct ≡ direct)) }
        ensures times { IfOk result (λ c. (c.maintain ≡ maintain) × (c.recover ≡ recover)) }
        ensures members { IfOk result (λ c. c.members ≡ members) }

        // Each refusal holds where it is given, and none of them of a configuration.
        ensures refused { IfErr result (IsRefusedConfig maintain recover members) }
    {
        if members.is_empty() {
            return Err(ConfigError::NoMembers);
        }
        if members.len() > MAX_MEMBERS {
            return Err(ConfigError::TooMany);
        }
        if let Some(index) = first_bad(members.as_slice()) {
            return Err(ConfigError::BadMember { index });
        }
        if !are_periods(maintain, recover) {
            return Err(ConfigError::BadTime);
        }
        if common_multiple(members.as_slice()).is_none() {
            return Err(ConfigError::TooWide);
        }
        Ok(LbConfig {
            method,
            sticky,
            force,
            direct,
            maintain,
            recover,
            members,
        })
    }

    /// An equal configuration.
    pub fn copy(&self) -> Result<LbConfig, NoMemory>
        ensures ok { IfOk result (λ c. c ≡ self.now) }
    {
        let members = copy_members(self.members.allocator(), self.members.as_slice())?;
        Ok(LbConfig {
            method: self.method,
            sticky: self.sticky,
            force: self.force,
            direct: self.direct,
            maintain: self.maintain,
            recover: self.recover,
            members: ListOf::from_vec(members),
        })
    }
}
