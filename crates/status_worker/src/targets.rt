//! The members that a command's names mean.
ghost use Rattle.std.specs.Prelude.{◌≡◌, ◌<◌, IfSome, length};
ghost use Rattle.status_worker.specs.Targets.{change_for, is_called, member_named, redirect_for};

use crate::command::{NamedChange, NamedRedirect};
use lb_model::{Change, LbConfig, MemberConfig, Redirect};

fn is_called(name: &[u8], member: &MemberConfig) -> bool
    ensures { result ≡ is_called name.now member.now }
{
    member.name.as_slice() == name
}

fn find(members: &[MemberConfig], name: &[u8]) -> Option<usize>
    ensures value { result ≡ member_named members.now name.now }
    ensures within { IfSome result (λ at. at < length members.now) }
{
    members.iter().position(|member| is_called(name, member))
}

/// The first member of the balancer that has this name. It takes no memory.
pub fn member_named(config: &LbConfig, name: &[u8]) -> Option<u32>
    ensures value { result ≡ member_named config.now.members name.now }
    ensures within { IfSome result (λ member. member < length config.now.members) }
{
    let at = find(config.members.as_slice(), name)?;
    Some(at as u32)
}

fn redirect_for(config: &LbConfig, redirect: &NamedRedirect) -> Option<Redirect>
    ensures { result ≡ redirect_for config.now.members redirect.now }
{
    match redirect {
        NamedRedirect::Keep => Some(Redirect::Keep),
        NamedRedirect::None => Some(Redirect::None),
        NamedRedirect::To(name) => {
            let member = member_named(config, name.as_slice())?;
            Some(Redirect::To(member))
        }
    }
}

/// The change as the balancer's Book takes it; none exactly where its redirect names no member. It takes no memory.
pub fn change_for(config: &LbConfig, change: &NamedChange) -> Option<Change>
    ensures { result ≡ change_for config.now.members change.now }
{
    let redirect = redirect_for(config, &change.redirect)?;
    Some(Change {
        activation: change.activation,
        factor: change.factor,
        distance: change.distance,
        redirect,
    })
}
