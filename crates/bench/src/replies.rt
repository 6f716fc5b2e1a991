//! How many replies of 8 KiB are written and are read a second: a head with six headers, a chunk that fills its packet,
//! and the end. Of N replies, N heads are done first, then N chunks, then N ends.
//!
//! bench/ajp_copy.c copies as many bytes by a plain loop.
ghost use Rattle.ajp_reply.specs.Spelling.{IsMessage};

use crate::done::Done;
use ajp_reply::{Message, decode_reply, encode_reply};
use ajp_wire::HEAD_BYTES;
use std::alloc::Global;

/// The most bytes of a packet.
const PACKET_BYTES: u32 = 8192;

static HEAD: &[u8] = b"AB\0\xbc\
    \x04\0\xc8\0\x02OK\0\0\x06\
    \xa0\x01\0\x18text/html; charset=UTF-8\0\
    \xa0\x03\0\x048184\0\
    \xa0\x05\0\x1dFri, 27 Nov 2026 03:46:00 GMT\0\
    \0\x0dCache-Control\0\0\x13private, max-age=60\0\
    \0\x04ETag\0\0\x17\"5d8c72a5edda8d6a:3239\"\0\
    \0\x16X-Content-Type-Options\0\0\x07nosniff\0";

static END: &[u8] = b"AB\0\x02\x05\x01";

/// The packet of 8,184 bytes of data: its length, its code, the data's length, and a zero byte after the data.
fn chunk() -> [u8; PACKET_BYTES as usize] {
    let mut packet = [b'x'; PACKET_BYTES as usize];
    packet[..7].copy_from_slice(b"AB\x1f\xfc\x03\x1f\xf8");
    packet[8191] = 0;
    packet
}

fn payload(packet: &[u8]) -> &[u8] {
    packet.get(HEAD_BYTES..).unwrap_or(&[])
}

/// Whether a message is written `rounds` times.
fn is_written(alloc: Global, message: &Message, rounds: u32) -> bool
    requires { IsMessage message.now }
{
    for _ in 0..rounds {
        if encode_reply(alloc, message, PACKET_BYTES).is_err() {
            return false;
        }
    }
    true
}

/// Whether the message of a packet is written `rounds` times.
fn write_packet(alloc: Global, packet: &[u8], rounds: u32) -> bool {
    match decode_reply(alloc, payload(packet)) {
        Ok(message) => is_written(alloc, &message, rounds),
        Err(_) => false,
    }
}

/// Whether the message of a packet is read `rounds` times.
fn read_packet(alloc: Global, packet: &[u8], rounds: u32) -> bool {
    for _ in 0..rounds {
        if decode_reply(alloc, payload(packet)).is_err() {
            return false;
        }
    }
    true
}

fn told(all: bool, rounds: u32) -> Option<Done> {
    if !all {
        return None;
    }
    let bytes = HEAD.len() + PACKET_BYTES as usize + END.len();
    Some(Done {
        amount: u64::from(rounds),
        figures: [bytes as u64, 0, 0],
    })
}

/// Writes the reply `rounds` times.
pub fn write(alloc: Global, rounds: u32) -> Option<Done> {
    let chunk = chunk();
    let all = write_packet(alloc, HEAD, rounds)
        && write_packet(alloc, &chunk, rounds)
        && write_packet(alloc, END, rounds);
    told(all, rounds)
}

/// Reads the reply `rounds` times.
pub fn read(alloc: Global, rounds: u32) -> Option<Done> {
    let chunk = chunk();
    let all = read_packet(alloc, HEAD, rounds)
        && read_packet(alloc, &chunk, rounds)
        && read_packet(alloc, END, rounds);
    told(all, rounds)
}
