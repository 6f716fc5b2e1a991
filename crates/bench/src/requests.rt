//! How many Forward Requests of 12 headers are written and are read a second.
//!
//! bench/ajp_copy.c copies as many bytes by a plain loop.
ghost use Rattle.ajp_request.specs.Writing.{IsForward};

use crate::done::Done;
use ajp_request::{Forward, decode_forward, encode_forward};
use ajp_wire::HEAD_BYTES;
use std::alloc::Global;

/// The most bytes of a packet.
const PACKET_BYTES: u32 = 8192;

/// A GET as a browser makes it.
static PACKET: &[u8] = b"\x12\x34\x01\xfd\
    \x02\x02\0\x08HTTP/1.1\0\
    \0\x0e/shop/item.jsp\0\0\x0a192.0.2.17\0\
    \0\x0a192.0.2.17\0\0\x0fwww.example.org\0\
    \0\x50\0\0\x0c\
    \xa0\x0b\0\x0fwww.example.org\0\
    \xa0\x0e\0\x46Mozilla/5.0 (X11; Linux x86_64; rv:128.0) Gecko/20100101 Firefox/128.0\0\
    \xa0\x01\0\x3ftext/html,application/xhtml+xml,application/xml;q=0.9,*/*;q=0.8\0\
    \xa0\x04\0\x0een-US,en;q=0.5\0\
    \xa0\x03\0\x11gzip, deflate, br\0\
    \xa0\x0d\0\x26https://www.example.org/shop/index.jsp\0\
    \xa0\x09\0\x2eJSESSIONID=0123456789ABCDEF0123456789ABCDEF.n1\0\
    \xa0\x06\0\x0akeep-alive\0\
    \0\x19Upgrade-Insecure-Requests\0\0\x011\0\
    \0\x0eSec-Fetch-Dest\0\0\x08document\0\
    \0\x0eSec-Fetch-Mode\0\0\x08navigate\0\
    \0\x0dCache-Control\0\0\x09max-age=0\0\
    \xff";

fn payload() -> &'static [u8] {
    PACKET.get(HEAD_BYTES..).unwrap_or(&[])
}

/// What is told of this many rounds.
fn told(rounds: u32) -> Done {
    Done {
        amount: u64::from(rounds),
        figures: [PACKET.len() as u64, 0, 0],
    }
}

fn write_often(alloc: Global, request: &Forward, rounds: u32) -> Option<Done>
    requires { IsForward request.now }
{
    for _ in 0..rounds {
        if encode_forward(alloc, request, PACKET_BYTES).is_err() {
            return None;
        }
    }
    Some(told(rounds))
}

/// Writes the request `rounds` times.
pub fn write(alloc: Global, rounds: u32) -> Option<Done> {
    match decode_forward(alloc, payload()) {
        Ok(request) => write_often(alloc, &request, rounds),
        Err(_) => None,
    }
}

/// Reads the request `rounds` times.
pub fn read(alloc: Global, rounds: u32) -> Option<Done> {
    for _ in 0..rounds {
        if decode_forward(alloc, payload()).is_err() {
            return None;
        }
    }
    Some(told(rounds))
}
