//! The means of a session, which it changes: desk, clock, reach, client, inbox.

use http_front::Inbox;

/// The desk and the clock of its calls, the reach to members, the client, and the client's bytes that were read and not used.
#[derive(Drop)]
pub struct Surroundings<'a, 'b, 'c, 'd, 'e, B, K, R, C> {
    pub desk: &'a mut B,
    pub clock: &'b mut K,
    pub reach: &'c mut R,
    pub client: &'d mut C,
    pub inbox: &'e mut Inbox,
}
