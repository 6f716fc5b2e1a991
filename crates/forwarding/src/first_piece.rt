//! How much of a body is sent right after the Forward Request.
ghost use Rattle.std.specs.Prelude.{◌≡◌, ◌≤◌};
ghost use Rattle.forwarding.specs.FirstPiece.{first_len as first_len_of, piece_for};
ghost use Rattle.ajp_wire.specs.declared.writing.TheConstants.{MAX_PIECE_BYTES};

use http_front::BodyPlan;
use site_config::{EndList, Endpoint};

/// What of a body packet isn't data: the packet's head, and the data's length.
const PIECE_FRAME: u32 = 6;

/// The least limit of a piece: that of a packet of 8,192 bytes.
pub const MIN_PIECE_BYTES: u32 = 8_186;

/// The most bytes of data that a body packet for this member holds.
pub fn piece_of(endpoint: &Endpoint) -> u32
    ensures value { result ≡ piece_for endpoint.now }
    ensures some { MIN_PIECE_BYTES ≤ result }
    ensures most { result ≤ MAX_PIECE_BYTES }
{
    endpoint.packet - PIECE_FRAME
}

/// How long the first piece is: at most the body, and at most what a packet holds, whichever member is chosen.
pub fn first_len(plan: BodyPlan, ends: &EndList) -> u64
    ensures value { result ≡ first_len_of plan ends.now }
{
    match plan {
        BodyPlan::None | BodyPlan::Chunked => 0,
        BodyPlan::Exact(length) => ends.as_slice().iter().fold(
            length,
            |len, endpoint| len.min(u64::from(piece_of(endpoint))),
        ),
    }
}
