//! `Upload`: the request's body, as far as it came.

use http_front::{BodyIn, Inbox};

/// The body of the request, and the client's bytes that were read and not used.
#[derive(Drop)]
pub(crate) struct Upload<'a, 'b> {
    pub(crate) body: &'a mut BodyIn,
    pub(crate) inbox: &'b mut Inbox,
}
