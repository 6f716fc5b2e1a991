//! The laws on chunked bodies speak of some bytes.
ghost use Rattle.std.specs.Prelude.{◌≡◌, codes};
ghost use Rattle.http_front.specs.Chunked.{ChunkedBody, IsChunkedBody, spelled, data_in};

use http_front::{
    bad_lines_are_what_no_body_has, chunked_bodies_are_read_whole,
    only_chunked_bodies_are_read_whole,
};

/// Two chunks, the second with an extension, are a body of the grammar.
fn two_chunks_are_spelled()
    ensures { (b : ChunkedBody) × IsChunkedBody b × (spelled b ≡ codes "3\r\nabc\r\n2;x=y\r\nde\r\n0\r\n\r\n") × (data_in b ≡ codes "abcde") }
{}

pub fn hold_of_some() {
    two_chunks_are_spelled();
    chunked_bodies_are_read_whole();
    only_chunked_bodies_are_read_whole();
    bad_lines_are_what_no_body_has();
}
