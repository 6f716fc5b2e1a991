//! The size of one pool.
ghost use Rattle.std.specs.Prelude.{◌≡◌, [], ◌∷◌, IfOk};

use jk_io::{ListOf, NoMemory, SizeList, SizeTable};
use std::alloc::Global;

fn sizes(alloc: Global, size: u32) -> Result<SizeList, NoMemory>
    ensures { IfOk result (λ sizes. sizes ≡ size ∷ []) }
{
    Ok(ListOf::from_vec(Vec::from_slice(alloc, &[size])?))
}

/// One balancer with one member, of which `size` links may be kept.
pub fn one_pool(alloc: Global, size: u32) -> Result<SizeTable, NoMemory>
    ensures { IfOk result (λ table. table ≡ (size ∷ []) ∷ []) }
{
    let mut table = SizeTable::new(alloc);
    table.push(sizes(alloc, size)?)?;
    Ok(table)
}
