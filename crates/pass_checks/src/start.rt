//! The Book that the callers take turns at.
ghost use Rattle.std.specs.Prelude.{IfOk};
ghost use Rattle.lb_passes.specs.Passes.{MayTakeTurns};

use jk_io::{Bytes, NoMemory};
use lb_book::Book;
use lb_model::{Activation, LbConfig, MemberConfig, MemberList, Method};
use std::alloc::Global;

fn member(alloc: Global, name: &[u8]) -> Result<MemberConfig, NoMemory> {
    Ok(MemberConfig {
        name: Bytes::from_slice(alloc, name)?,
        route: Bytes::from_slice(alloc, name)?,
        factor: 1,
        distance: 0,
        activation: Activation::Active,
        redirect: None,
        pool: 64,
    })
}

fn members(alloc: Global) -> Result<MemberList, NoMemory> {
    let mut members = MemberList::new(alloc);
    members.push(member(alloc, b"a")?)?;
    members.push(member(alloc, b"b")?)?;
    Ok(members)
}

/// A Book of members a and b, of factor 1.
pub fn start_book(alloc: Global) -> Result<Book, NoMemory>
    ensures { IfOk result MayTakeTurns }
{
    let members = members(alloc)?;
    match LbConfig::new(Method::Request, true, false, false, 60, 60, members) {
        Ok(config) => Book::start(alloc, config, 0, 0),
        Err(_) => Err(NoMemory),
    }
}
