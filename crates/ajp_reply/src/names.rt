//! The names of reply headers that have a code.

ghost use Rattle.std.specs.Prelude.{◌≡◌, ◌<◌, length, map};
ghost use Rattle.ajp_reply.specs.Spelling.{reply_names as names_of_replies};
ghost use Rattle.ajp_wire.specs.declared.names.TheConstants.{CODES_LIMIT};

/// In the order of their codes, from A001 on.
static REPLY_NAMES: [&[u8]; 11] = [
    b"Content-Type",
    b"Content-Language",
    b"Content-Length",
    b"Date",
    b"Last-Modified",
    b"Location",
    b"Set-Cookie",
    b"Set-Cookie2",
    b"Servlet-Engine",
    b"Status",
    b"WWW-Authenticate",
];

/// The table of the names of headers.
pub fn reply_names() -> &'static [&'static [u8]]
    ensures names { map (λ name. name.now) result.now ≡ names_of_replies }
    ensures few { length result.now < CODES_LIMIT }
{
    &REPLY_NAMES
}
