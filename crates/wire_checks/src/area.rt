//! The area of the wire: the subject of each file of rows.

use crate::{links, messages, packets, requests};
use anyhow::Result;
use check_rows::row::BlockRow;
use check_rows::told::{RowTeller, judge_all_told};
use check_rows::ways::Way;
use jk_io::NoMemory;
use std::alloc::Global;
use std::rt::Files;

/// What a file's rows are about.
#[derive(Clone, Copy)]
enum Area {
    Packets,
    Messages,
    Requests,
    Links,
}

static FILES: [(&str, Area); 6] = [
    ("wire/packets.txt", Area::Packets),
    ("wire/messages.txt", Area::Messages),
    ("wire/requests.txt", Area::Requests),
    ("wire/links.txt", Area::Links),
    ("wire/reply.txt", Area::Messages),
    ("wire/request.txt", Area::Requests),
];

impl RowTeller for Area {
    fn tell(
        &self,
        alloc: Global,
        row: BlockRow<'_>,
        bytes: &[u8],
        way: Way,
        out: &mut String,
    ) -> Result<(), NoMemory> {
        match self {
            Area::Packets => packets::tell(alloc, row, bytes, way, out),
            Area::Messages => messages::tell(alloc, row, bytes, out),
            Area::Requests => requests::tell(alloc, row, bytes, out),
            Area::Links => links::tell(alloc, row, bytes, out),
        }
    }
}

/// Shows each row that comes out otherwise, and how many of each file come out as they say.
pub fn judge<R: Print + AllocGlobal + Files>(rt: &R) -> Result<()> {
    judge_all_told(rt, &FILES)
}
