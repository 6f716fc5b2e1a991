//! The means of an exchange: desk and clock, and the two sides of a talk, the reach and the client.

use http_front::{BodyIn, Inbox};

/// The two sides of a talk: the reach to members, and the client with the body of its request.
#[derive(Drop)]
pub struct Sides<'a, 'b, 'c, 'd, R, C> {
    pub reach: &'a mut R,
    pub client: &'b mut C,
    pub body: &'c mut BodyIn,
    pub inbox: &'d mut Inbox,
}

/// The desk and the clock of its calls, and the two sides of the talks.
#[derive(Drop)]
pub struct Means<'a, 'b, 'c, 'd, 'e, 'f, B, K, R, C> {
    pub desk: &'a mut B,
    pub clock: &'b mut K,
    pub sides: Sides<'c, 'd, 'e, 'f, R, C>,
}
