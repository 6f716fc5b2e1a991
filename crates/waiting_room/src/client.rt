//! A client that waits.
ghost use Rattle.std.specs.Prelude.{◌≡◌, IfErr, IfOk};

use real_io::StreamEnd;
use std::alloc::Global;

/// A client that waits: the end of its stream, and what was read of it already.
#[derive(Drop)]
pub struct Client {
    pub end: StreamEnd,
    pub ahead: Vec<u8>,
}

impl Client {
    /// A client of whom these bytes came. Where there is no memory for them its end comes back.
    pub fn of(alloc: Global, end: StreamEnd, came: &[u8]) -> Result<Client, StreamEnd>
        ensures ok { IfOk result (λ client. (client.end ≡ end) × (client.ahead.items ≡ came.now)) }
        ensures err { IfErr result (λ back. back ≡ end) }
    {
        let mut ahead = Vec::new(alloc);
        match ahead.extend_from_slice(came) {
            Ok(()) => Ok(Client { end, ahead }),
            Err(_) => Err(end),
        }
    }
}
