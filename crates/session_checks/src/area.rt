//! The area of talks and sessions: the subject of each file of rows.

use crate::{containers, sessions, talks};
use anyhow::Result;
use check_rows::row::BlockRow;
use check_rows::told::{RowTeller, judge_all_told};
use check_rows::ways::Way;
use jk_io::NoMemory;
use std::alloc::Global;
use std::rt::Files;

/// Which side of a talk is looked at, or whose bytes come in the ways of a row on a session.
#[derive(Clone, Copy)]
enum Area {
    Containers,
    Talks,
    Clients,
    Members,
}

static FILES: [(&str, Area); 7] = [
    ("talk/containers.txt", Area::Containers),
    ("talk/talks.txt", Area::Talks),
    ("session/sessions.txt", Area::Clients),
    ("session/failing.txt", Area::Clients),
    ("session/replies.txt", Area::Members),
    ("session/places.txt", Area::Clients),
    ("session/member_places.txt", Area::Members),
];

impl RowTeller for Area {
    fn tell(
        &self,
        alloc: Global,
        row: BlockRow<'_>,
        bytes: &[u8],
        way: Way,
        out: &mut String,
    ) -> Result<(), NoMemory> {
        match self {
            Area::Containers => containers::tell(alloc, row, bytes, way, out),
            Area::Talks => talks::tell(alloc, row, bytes, way, out),
            Area::Clients => sessions::tell_client(alloc, row, bytes, way, out),
            Area::Members => sessions::tell_member(alloc, row, bytes, way, out),
        }
    }
}

/// Shows each row that comes out otherwise, and how many of each file come out as they say.
pub fn judge<R: Print + AllocGlobal + Files>(rt: &R) -> Result<()> {
    judge_all_told(rt, &FILES)
}
