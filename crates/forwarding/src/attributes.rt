//! The attributes that a connector tells of a request.
ghost use Rattle.std.specs.Prelude.{◌≡◌, ◌++◌, IfOk, OnOk};
ghost use Rattle.std.specs.Option.{option_copied};
ghost use Rattle.forwarding.specs.Forwards.{attribute_for, attributes_for as attributes_in_order, route_for as route_in};

use ajp_request::{Attribute, AttributeList};
use http_front::Head;
use jk_io::{Bytes, NoMemory};
use lb_model::MemberConfig;
use site_config::Endpoint;
use std::alloc::Global;

const QUERY: u8 = 0x05;

const ROUTE: u8 = 0x06;

const SECRET: u8 = 0x0C;

/// The attributes of a request for a member. In a balancer that is `direct` no route is told.
pub fn attributes_of(
    alloc: Global,
    head: &Head,
    direct: bool,
    member: &MemberConfig,
    endpoint: &Endpoint,
) -> Result<AttributeList, NoMemory>
    ensures { IfOk result (λ attributes. attributes ≡ attributes_in_order head.now.query (route_in direct member.now) endpoint.now.secret) }
{
    attributes_for(
        alloc,
        head.query.as_ref(),
        route_for(direct, member),
        endpoint.secret.as_ref(),
    )
}

/// The route that is told: none in a balancer that stands for one worker.
fn route_for(direct: bool, member: &MemberConfig) -> Option<&Bytes>
    ensures { option_copied result ≡ route_in direct member.now }
{
    if direct { None } else { Some(&member.route) }
}

/// The attributes in their order, each only where there is something to tell.
fn attributes_for(
    alloc: Global,
    query: Option<&Bytes>,
    route: Option<&Bytes>,
    secret: Option<&Bytes>,
) -> Result<AttributeList, NoMemory>
    ensures { IfOk result (λ attributes. attributes ≡ attributes_in_order (option_copied query.entry) (option_copied route.entry) (option_copied secret.entry)) }
{
    let mut attributes = AttributeList::new(alloc);
    put(&mut attributes, QUERY, query)?;
    put(&mut attributes, ROUTE, route)?;
    put(&mut attributes, SECRET, secret)?;
    Ok(attributes)
}

fn put(attributes: &mut AttributeList, code: u8, text: Option<&Bytes>) -> Result<(), NoMemory>
    ensures { OnOk result (attributes.new ≡ attributes.old ++ attribute_for code (option_copied text.entry)) }
{
    let Some(text) = text else {
        return Ok(());
    };
    attributes.push(Attribute::Plain(code, text.copy()?))?;
    Ok(())
}
