//! The area of the outside: the subject of each file of rows, and the claims on the system.

use crate::{gates, memory, pools, reaches, shared_pools, system};
use anyhow::Result;
use check_rows::files::print_claim;
use check_rows::row::BlockRow;
use check_rows::told::{RowTeller, judge_told};
use check_rows::ways::Way;
use jk_io::NoMemory;
use std::alloc::Global;
use std::net::Net;
use std::rt::{Clock, Files};
use std::sync::Wait;

/// The rows, over the system that they need.
#[derive(Drop)]
struct Outside<'r, R> {
    rt: &'r R,
}

impl<'r, R: AllocGlobal + Wait + Clock + Files + Net> RowTeller for Outside<'r, R> {
    fn tell(
        &self,
        alloc: Global,
        row: BlockRow<'_>,
        bytes: &[u8],
        _way: Way,
        out: &mut String,
    ) -> Result<(), NoMemory> {
        match row.word("kind") {
            "gate" => gates::tell(self.rt, alloc, row, out),
            "pool" => pools::tell(alloc, row, out),
            "pools" => shared_pools::tell(self.rt, alloc, row.word("acts"), out),
            "talks" => reaches::tell(self.rt, alloc, row, out),
            "asks" => reaches::tell_asks(alloc, row.word("fails"), bytes, out),
            "real-files" => system::tell_files(self.rt, alloc, row.word("names"), out),
            _ => memory::tell(alloc, row, out),
        }
    }
}

/// What the system's clock and streams do.
fn show_system<R: Print + Input + Clock>(rt: &R) -> Result<()> {
    print_claim(rt, "the clock is past 2023", system::is_past_2023(rt))?;
    print_claim(rt, "standard output takes a byte", system::takes_a_byte(rt))?;
    print_claim(rt, "standard input comes to its end", system::ends(rt))
}

/// Shows each row that comes out otherwise, how many come out as they say, and whether each claim holds.
pub fn judge<R: Print + Input + AllocGlobal + Wait + Clock + Files + Net>(rt: &R) -> Result<()> {
    judge_told(rt, "outside/outside.txt", &Outside { rt })?;
    show_system(rt)
}
