//! A request's address, moment and time, where they are known: for its log line, beside its row.
use httpdate::HttpDate;
use jk_io::Bytes;

/// What a log's line may tell besides its row, each where it is known.
#[derive(Drop)]
pub struct Seen {
    /// The client's address; empty where it isn't known.
    pub addr: Bytes,
    /// When the request's head was read.
    pub at: Option<HttpDate>,
    /// The milliseconds from then to the reply's end.
    pub took: Option<u64>,
}
