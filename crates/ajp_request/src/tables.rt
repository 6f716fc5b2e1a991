//! The codes of a Forward Request.
ghost use Rattle.std.specs.Prelude.{◌≡◌, ◌<◌, length, map};
ghost use Rattle.std.specs.Option.{option_copied};
ghost use Rattle.ajp_wire.specs.Reading.{named_from};
ghost use Rattle.ajp_request.specs.Tables.{methods, method_from, method_code as code_of_method, header_names as names_of_headers, is_plain as is_plain_code};
ghost use Rattle.ajp_wire.specs.declared.names.TheConstants.{CODES_LIMIT};

use ajp_wire::name_of;

/// The methods that have a code, from 1 on.
static METHODS: [&[u8]; 27] = [
    b"OPTIONS",
    b"GET",
    b"HEAD",
    b"POST",
    b"PUT",
    b"DELETE",
    b"TRACE",
    b"PROPFIND",
    b"PROPPATCH",
    b"MKCOL",
    b"COPY",
    b"MOVE",
    b"LOCK",
    b"UNLOCK",
    b"ACL",
    b"REPORT",
    b"VERSION-CONTROL",
    b"CHECKIN",
    b"CHECKOUT",
    b"UNCHECKOUT",
    b"SEARCH",
    b"MKWORKSPACE",
    b"UPDATE",
    b"LABEL",
    b"MERGE",
    b"BASELINE-CONTROL",
    b"MKACTIVITY",
];

/// The names of headers that have a code, from A001 on.
static HEADER_NAMES: [&[u8]; 14] = [
    b"accept",
    b"accept-charset",
    b"accept-encoding",
    b"accept-language",
    b"authorization",
    b"connection",
    b"content-type",
    b"content-length",
    b"cookie",
    b"cookie2",
    b"host",
    b"pragma",
    b"referer",
    b"user-agent",
];

/// The codes of the attributes that hold one string.
static PLAIN_CODES: [u8; 11] = [1, 2, 3, 4, 5, 6, 7, 8, 9, 0x0C, 0x0D];

/// The code of a Forward Request among the messages to a container.
pub const FORWARD_REQUEST: u8 = 2;

/// The byte of a method that an attribute stores.
pub const STORED: u8 = 0xFF;

/// The code of an attribute with a name and a value.
pub const NAMED: u8 = 0x0A;

/// The code of the size of the SSL key.
pub const KEY_SIZE: u8 = 0x0B;

/// The code of the attribute that stores a method.
pub const STORED_METHOD: u8 = 0x0D;

/// The byte after the last attribute.
pub const END: u8 = 0xFF;

/// The table of the names of headers.
pub fn header_names() -> &'static [&'static [u8]]
    ensures names { map (λ name. name.now) result.now ≡ names_of_headers }
    ensures few { length result.now < CODES_LIMIT }
{
    &HEADER_NAMES
}

/// The method of a code.
pub fn method_of(code: u8) -> Option<&'static [u8]>
    ensures { option_copied result ≡ named_from 1 methods code }
{
    name_of(&METHODS, 1, u16::from(code))
}

/// The code of a method, which is looked up as it is written.
pub fn method_code(method: &[u8]) -> Option<u8>
    ensures { result ≡ code_of_method method.now }
{
    place_in(&METHODS, method)
}

fn place_in(table: &[&[u8]], name: &[u8]) -> Option<u8>
    requires { length table.now < CODES_LIMIT }
    ensures { result ≡ method_from 1 (map (λ known. known.now) table.now) name.now }
{
    let mut code = 1u8;
    for known in table {
        if *known == name {
            return Some(code);
        }
        code += 1;
    }
    None
}

/// Whether an attribute of this code holds one string.
pub fn is_plain(code: u8) -> bool
    ensures { result ≡ is_plain_code code }
{
    PLAIN_CODES.contains(&code)
}
