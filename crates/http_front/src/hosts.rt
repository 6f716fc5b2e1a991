//! The server's name and port that a request asks for (RFC 9112, section 3.2).
ghost use Rattle.std.specs.Prelude.{◌≡◌, ◌<◌, ◌+◌, ◌^◌, List, [], length, take, drop, Some, None, IfSome, IfNone, Ok, Err, MatchResult, codes};
ghost use Rattle.http_front.specs.Fields.{named};
ghost use Rattle.http_front.specs.Host.{split_port, ported, server_of, host_of};

use crate::answers::Form;
use crate::fields::{Lone, only_value};
use jk_io::{Bytes, parse_decimal};

const LOCALHOST: &[u8] = b"localhost";

const HTTP_PORT: u16 = 80;

const MAX_PORT: u64 = 65_535;

/// A server's name and port.
#[derive(Clone, Copy)]
pub struct Server<'a> {
    pub name: &'a [u8],
    pub port: u16,
}

/// The server of a head's Host: a 1.1 request has one Host line, a 1.0 request at most one.
pub fn host_of(old: bool, lines: &[(Bytes, Bytes)]) -> Result<Server<'_>, Form>
    ensures { MatchResult result (λ server. host_of old (named (codes "host") lines.now) ≡ Ok (server.name.now, server.port))
        (λ form. host_of old (named (codes "host") lines.now) ≡ Err form) }
{
    match only_value(lines, b"host") {
        Lone::Absent => {
            if old {
                Ok(Server {
                    name: LOCALHOST,
                    port: HTTP_PORT,
                })
            } else {
                Err(Form::BadHost)
            }
        }
        Lone::One(value) => server_of(value),
        Lone::More => Err(Form::BadHost),
    }
}

/// The server of a Host value.
fn server_of(host: &[u8]) -> Result<Server<'_>, Form>
    ensures { MatchResult result (λ server. server_of host.now ≡ Ok (server.name.now, server.port)) (λ form. server_of host.now ≡ Err form) }
{
    if host.is_empty() {
        return Ok(Server {
            name: LOCALHOST,
            port: HTTP_PORT,
        });
    }
    match split_port(host) {
        Some(at) => ported(&host[..at], &host[at + 1..]),
        None => Ok(Server {
            name: host,
            port: HTTP_PORT,
        }),
    }
}

/// A server whose port stands in digits, or none where they are missing.
fn ported<'a>(name: &'a [u8], port: &[u8]) -> Result<Server<'a>, Form>
    ensures { MatchResult result (λ server. ported name.now port.now ≡ Ok (server.name.now, server.port)) (λ form. ported name.now port.now ≡ Err form) }
{
    if port.is_empty() {
        return Ok(Server {
            name,
            port: HTTP_PORT,
        });
    }
    match parse_decimal(port) {
        Some(number) => {
            if number > MAX_PORT {
                return Err(Form::BadHost);
            }
            Ok(Server {
                name,
                port: number as u16,
            })
        }
        None => Err(Form::BadHost),
    }
}

/// The place of the last colon, where no `]` stands after it.
fn split_port(host: &[u8]) -> Option<usize>
    ensures found { IfSome result (λ at. split_port host.now ≡ Some (take at host.now, drop (at + 1) host.now)) }
    ensures within { IfSome result (λ at. (at < length host.now) × (at + 1 < 2 ^ 64)) }
    ensures none { IfNone result (split_port host.now ≡ None) }
{
    let mut at = host.len();
    while at > 0 {
        if host[at - 1] == b':' {
            return Some(at - 1);
        }
        if host[at - 1] == b']' {
            return None;
        }
        at -= 1;
    }
    None
}
