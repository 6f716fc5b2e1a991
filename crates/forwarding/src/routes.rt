//! The member that a request's session ids name.
ghost use Rattle.std.specs.Prelude.{◌≡◌, ◌≤◌, length};
ghost use Rattle.forwarding.specs.Routes.{routed_of, member_named, member_with};
ghost use Rattle.lb_model.specs.declared.config.TheConstants.{MAX_MEMBERS};

use crate::cuts::cut_at;
use crate::ids::IdList;
use jk_io::Bytes;
use lb_model::{MemberConfig, MemberList};

/// The member that the first id with a member's route names; where several members have that route, the first of them.
/// A balancer has at most 64 members. No memory is taken.
pub fn routed(ids: &IdList, members: &MemberList) -> Option<u32>
    requires { length members.now ≤ MAX_MEMBERS }
    ensures member { result ≡ routed_of ids.now members.now }
{
    for id in ids.as_slice() {
        if let Some(member) = member_named(members.as_slice(), id) {
            return Some(member);
        }
    }
    None
}

fn member_named(members: &[MemberConfig], id: &Bytes) -> Option<u32>
    requires { length members.now ≤ MAX_MEMBERS }
    ensures { result ≡ member_named members.now id.now }
{
    let (_, route) = cut_at(id.as_slice(), b'.')?;
    match place_of(members, route) {
        Some(at) => Some(at as u32),
        None => None,
    }
}

fn place_of(members: &[MemberConfig], route: &[u8]) -> Option<usize>
    ensures { result ≡ member_with members.now route.now }
{
    members.iter().position(|m| m.route.as_slice() == route)
}
