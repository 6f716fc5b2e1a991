//! The member that a round goes to.
ghost use Rattle.std.specs.Prelude.{◌≡◌, ◌<◌, Some, length, slice_get};

use crate::request::Request;
use lb_model::MemberConfig;
use site_config::Endpoint;

/// A member of a balancer, by its place there.
#[derive(Clone, Copy)]
pub struct Target<'a> {
    pub member: u32,
    pub config: &'a MemberConfig,
    pub endpoint: &'a Endpoint,
}

/// The member at this place of the request's balancer.
pub(crate) fn target_of<'a>(request: &Request<'a>, member: u32) -> Target<'a>
    requires { member < length request.now.balancer.now.book.members }
    ensures member { result.member ≡ member }
    ensures config { slice_get request.now.balancer.now.book.members member ≡ Some result.config.now }
    ensures endpoint { slice_get request.now.balancer.now.ends member ≡ Some result.endpoint.now }
{
    Target {
        member,
        config: &request.balancer.book.members.as_slice()[member as usize],
        endpoint: &request.balancer.ends.as_slice()[member as usize],
    }
}
