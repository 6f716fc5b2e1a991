//! The area of HTTP: the subject of each file of rows.

use crate::{bodies, heads, laws, replies, routes};
use anyhow::Result;
use check_rows::row::BlockRow;
use check_rows::told::{RowTeller, judge_all_told};
use check_rows::ways::Way;
use jk_io::NoMemory;
use std::alloc::Global;
use std::rt::Files;

/// What a file's rows are about.
#[derive(Clone, Copy)]
enum Area {
    Heads,
    Bodies,
    Replies,
    Routes,
}

static FILES: [(&str, Area); 4] = [
    ("http/heads.txt", Area::Heads),
    ("http/bodies.txt", Area::Bodies),
    ("http/replies.txt", Area::Replies),
    ("http/routes.txt", Area::Routes),
];

impl RowTeller for Area {
    fn tell(
        &self,
        alloc: Global,
        row: BlockRow<'_>,
        bytes: &[u8],
        way: Way,
        out: &mut String,
    ) -> Result<(), NoMemory> {
        match self {
            Area::Heads => heads::tell(alloc, row, bytes, way, out),
            Area::Bodies => bodies::tell(alloc, row, bytes, way, out),
            Area::Replies => replies::tell(alloc, row, bytes, way, out),
            Area::Routes => routes::tell(alloc, row, bytes, out),
        }
    }
}

/// Shows each row that comes out otherwise, and how many of each file come out as they say.
pub fn judge_http<R: Print + AllocGlobal + Files>(rt: &R) -> Result<()> {
    laws::hold_of_some();
    judge_all_told(rt, &FILES)
}
