//! Views of a balancer.
ghost use Rattle.std.specs.Prelude.{◌≡◌, IfOk};
ghost use Rattle.lb_model.specs.Rows.{HaveRedirectsWithin};

use crate::member::Activation;
use crate::state::MemberState;
use jk_io::{Bytes, ListOf, NoMemory};
use std::alloc::Global;

/// What is to be seen of a member.
#[derive(Drop)]
pub struct MemberRow {
    pub name: Bytes,
    pub state: MemberState,
    /// What it was given since the last maintenance, in its units.
    pub load: u128,
    /// Its tickets that are out, its trial among them.
    pub busy: u32,
    pub activation: Activation,
    pub factor: u32,
    pub distance: u32,
    pub redirect: Option<u32>,
}

/// The rows of a balancer's members, by index.
pub type RowList = ListOf<MemberRow>;

/// A balancer as it is at a moment.
#[derive(Drop)]
pub struct View {
    /// The number of the next entry.
    pub next: u64,
    /// The moment of the last entry, in seconds.
    pub at: u64,
    pub rows: RowList,
    pub ghost redirects: { HaveRedirectsWithin rows },
}

impl MemberRow {
    /// An equal row.
    pub fn copy(&self) -> Result<MemberRow, NoMemory>
        ensures ok { IfOk result (λ r. r ≡ self.now) }
    {
        Ok(MemberRow {
            name: self.name.copy()?,
            state: self.state,
            load: self.load,
            busy: self.busy,
            activation: self.activation,
            factor: self.factor,
            distance: self.distance,
            redirect: self.redirect,
        })
    }
}

fn copy_rows(alloc: Global, rows: &[MemberRow]) -> Result<Vec<MemberRow>, NoMemory>
    ensures ok { IfOk result (λ v. v.items ≡ rows.now) }
{
    let mut copies = Vec::with_capacity(alloc, rows.len())?;
    for row in rows {
        copies.push(row.copy()?)?;
    }
    Ok(copies)
}

impl View {
    /// An equal view.
    pub fn copy(&self) -> Result<View, NoMemory>
        ensures ok { IfOk result (λ v. v ≡ self.now) }
    {
        let rows = copy_rows(self.rows.allocator(), self.rows.as_slice())?;
        Ok(View {
            next: self.next,
            at: self.at,
            rows: ListOf::from_vec(rows),
        })
    }
}
