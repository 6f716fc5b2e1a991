//! How many heads of requests with 12 header lines are read a second: where each comes in a read of its own, where a
//! read brings many, and by the parser alone.
//!
//! bench/heads.c is a plain loop over the same bytes.

use crate::done::Done;
use crate::feed::Feed;
use http_front::{HeadGot, Inbox, MAX_HEAD_LINES, read_head};
use httparse::Status;
use httparse::spans::{EMPTY_HEADER_SPAN, HeaderSpan, parse_request};
use std::alloc::Global;

/// A browser's request.
static HEAD: &str =
    "GET /shop/list;jsessionid=8F3A1C77D2.tomcat1/items?page=2&sort=price HTTP/1.1\r\n\
    Host: shop.example.org:8080\r\n\
    User-Agent: Mozilla/5.0 (X11; Linux x86_64; rv:128.0) Gecko/20100101 Firefox/128.0\r\n\
    Accept: text/html,application/xhtml+xml,application/xml;q=0.9,*/*;q=0.8\r\n\
    Accept-Language: en-US,en;q=0.5\r\n\
    Accept-Encoding: gzip, deflate, br\r\n\
    Referer: http://shop.example.org:8080/shop/list\r\n\
    Cookie: JSESSIONID=8F3A1C77D2.tomcat1; theme=dark\r\n\
    Connection: keep-alive\r\n\
    Upgrade-Insecure-Requests: 1\r\n\
    If-Modified-Since: Fri, 27 Nov 2026 03:46:00 GMT\r\n\
    Cache-Control: max-age=0\r\n\
    X-Forwarded-For: 192.0.2.17\r\n\
    \r\n";

/// How many heads stand one after the other where a read brings many.
const HEADS_IN_A_ROW: usize = 128;

fn lines_of(got: &HeadGot) -> Option<u64> {
    match got {
        HeadGot::Head(head) => Some(head.headers.len() as u64),
        HeadGot::End => None,
    }
}

/// Reads a head, and answers how many header lines it has.
fn read_lines(alloc: Global, inbox: &mut Inbox, client: &mut Feed) -> Option<u64> {
    match read_head(alloc, inbox, client) {
        Ok(got) => lines_of(&got),
        Err(_) => None,
    }
}

/// Reads heads from a client whose heads never end, and answers how many header lines they had.
fn read_often(alloc: Global, inbox: &mut Inbox, client: &mut Feed, heads: u32) -> Option<u64> {
    let mut lines = 0u64;
    for _ in 0..heads {
        lines = lines.saturating_add(read_lines(alloc, inbox, client)?);
    }
    Some(lines)
}

/// Reads heads of a text that goes on and on, and answers how many header lines they had.
fn read_text(alloc: Global, text: &[u8], heads: u32) -> Option<u64> {
    match Inbox::new(alloc) {
        Ok(mut inbox) => read_often(alloc, &mut inbox, &mut Feed::new(text), heads),
        Err(_) => None,
    }
}

fn told(heads: u32, lines: u64) -> Done {
    let heads = u64::from(heads);
    Done {
        amount: heads,
        figures: [heads, lines, 0],
    }
}

fn read_heads(alloc: Global, text: &[u8], heads: u32) -> Option<Done> {
    Some(told(heads, read_text(alloc, text, heads)?))
}

/// Each head comes in a read of its own.
pub fn read(alloc: Global, heads: u32) -> Option<Done> {
    read_heads(alloc, HEAD.as_bytes(), heads)
}

/// A read fills the inbox with heads.
pub fn read_row(alloc: Global, heads: u32) -> Option<Done> {
    match HEAD.as_bytes().repeat(alloc, HEADS_IN_A_ROW) {
        Ok(row) => read_heads(alloc, row.as_slice(), heads),
        Err(_) => None,
    }
}

/// How many header lines the parser finds in a head.
fn parse_lines(spans: &mut [HeaderSpan]) -> Option<u64> {
    match parse_request(HEAD.as_bytes(), spans) {
        Ok(Status::Complete(parts)) => Some(parts.headers as u64),
        _ => None,
    }
}

/// The parser reads the bytes of a head, and no head is made.
pub fn parse(heads: u32) -> Option<Done> {
    let mut spans = [EMPTY_HEADER_SPAN; MAX_HEAD_LINES];
    let mut lines = 0u64;
    for _ in 0..heads {
        lines = lines.saturating_add(parse_lines(&mut spans)?);
    }
    Some(told(heads, lines))
}
