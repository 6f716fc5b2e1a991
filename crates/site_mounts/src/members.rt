//! Members of a balancer by their names.
ghost use Rattle.std.specs.Prelude.{◌≡◌, ◌≤◌, ◌<◌, length, map, IfOk};
ghost use Rattle.site_config.specs.Names.{words};
ghost use Rattle.site_mounts.specs.Members.{are_members, is_member, is_named, set_of};
ghost use Rattle.lb_model.specs.declared.config.TheConstants.{MAX_MEMBERS};

use jk_io::NoMemory;
use lb_model::MemberConfig;
use site_config::push_words;
use std::alloc::Global;

fn is_member(members: &[MemberConfig], name: &[u8]) -> bool
    ensures { result ≡ is_member members.now name.now }
{
    members.iter().any(|m| m.name.as_slice() == name)
}

fn are_members(members: &[MemberConfig], names: &[&[u8]]) -> bool
    ensures { result ≡ are_members members.now (map (λ n. n.now) names.now) }
{
    for name in names {
        if !is_member(members, *name) {
            return false;
        }
    }
    true
}

/// Whether each name of a list is a member's.
pub(crate) fn lists_members(
    alloc: Global,
    members: &[MemberConfig],
    list: &[u8],
) -> Result<bool, NoMemory>
    ensures { IfOk result (λ good. good ≡ are_members members.now (words list.now)) }
{
    let mut names = Vec::new(alloc);
    push_words(&mut names, list)?;
    Ok(are_members(members, names.as_slice()))
}

fn is_named(names: &[&[u8]], member: &MemberConfig) -> bool
    ensures { result ≡ is_named (map (λ n. n.now) names.now) member.now }
{
    for name in names {
        if *name == member.name.as_slice() {
            return true;
        }
    }
    false
}

/// The set of the members that have one of these names: bit m stands for member m.
fn set_of(members: &[MemberConfig], names: &[&[u8]]) -> u64
    requires { length members.now ≤ MAX_MEMBERS }
    ensures { result ≡ set_of members.now (map (λ n. n.now) names.now) }
{
    let mut set = 0;
    let mut left = members;
    while let [others @ .., member] = left {
        set = u64::from(is_named(names, member)) + 2 * set;
        left = others;
    }
    set
}

/// The set of the members that a list names.
pub(crate) fn listed_set(
    alloc: Global,
    members: &[MemberConfig],
    list: &[u8],
) -> Result<u64, NoMemory>
    requires { length members.now ≤ MAX_MEMBERS }
    ensures { IfOk result (λ set. set ≡ set_of members.now (words list.now)) }
{
    let mut names = Vec::new(alloc);
    push_words(&mut names, list)?;
    Ok(set_of(members, names.as_slice()))
}
