//! Lists of numbers, tables of members, and links in memory.
ghost use Rattle.std.specs.Prelude.{◌≡◌, [], ◌∷◌, ◌++◌, IfOk, OnOk};

use jk_io::{Bytes, ListOf, MemLink, NoMemory, SizeTable, Source};
use std::alloc::Global;

fn sizes<T: Copy>(alloc: Global, list: &[T]) -> Result<ListOf<T>, NoMemory>
    ensures { IfOk result (λ l. l ≡ list.now) }
{
    Ok(ListOf::from_vec(Vec::from_slice(alloc, list)?))
}

/// Adds a balancer whose members have these sizes.
pub fn push_sizes(table: &mut SizeTable, list: &[u32]) -> Result<(), NoMemory>
    ensures { OnOk result (table.new ≡ table.old ++ list.now ∷ []) }
{
    table.push(sizes(table.allocator(), list)?)?;
    Ok(())
}

/// One balancer, whose members have these sizes.
pub fn one_balancer(alloc: Global, list: &[u32]) -> Result<SizeTable, NoMemory>
    ensures { IfOk result (λ table. table ≡ list.now ∷ []) }
{
    let mut table = SizeTable::new(alloc);
    push_sizes(&mut table, list)?;
    Ok(table)
}

/// A link that has these bytes to come, and fails nowhere.
pub fn link_of(alloc: Global, text: &[u8]) -> Result<MemLink, NoMemory> {
    Ok(MemLink::new(alloc, Bytes::from_slice(alloc, text)?, ListOf::new(alloc)))
}

/// The length of the next read, 9 where it failed.
pub fn length_read<S: Source>(source: &mut S) -> usize {
    let mut buf = [0u8; 8];
    source.read(&mut buf).unwrap_or(9)
}
