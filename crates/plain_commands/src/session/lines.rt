//! The three lines that are printed of a session.
ghost use Rattle.std.specs.Prelude.{◌≡◌, ◌++◌, OnOk, IfOk, IsSomeAnd, codes, decimal};
ghost use Rattle.plain_commands.specs.DryLines.{bytes_line, dry_text, end_words, hex_or_dash, sent_in, why_words};

use client_session::{SessionEnd, SessionStop, Why};
use jk_io::{Bytes, NoMemory, Talk, put_decimal};
use std::alloc::Global;

fn put_hex(alloc: Global, out: &mut Bytes, bytes: &[u8]) -> Result<(), NoMemory>
    ensures { OnOk result (out.new ≡ out.old ++ hex_or_dash bytes.now) }
{
    if bytes.is_empty() {
        return out.extend(b"-");
    }
    out.extend(hex::encode(alloc, bytes)?.as_bytes())
}

fn put_bytes(alloc: Global, out: &mut Bytes, to: &[u8], bytes: &[u8]) -> Result<(), NoMemory>
    ensures { OnOk result (out.new ≡ out.old ++ bytes_line to.now bytes.now) }
{
    out.extend(to)?;
    put_decimal(out, bytes.len() as u128)?;
    out.extend(b" ")?;
    put_hex(alloc, out, bytes)?;
    out.extend(b"\n")
}

/// All that went to members.
fn put_sent(out: &mut Bytes, talks: &[Talk]) -> Result<(), NoMemory>
    ensures { OnOk result (out.new ≡ out.old ++ sent_in talks.now) }
{
    for talk in talks {
        out.extend(talk.sent.as_slice())?;
    }
    Ok(())
}

fn put_members(alloc: Global, out: &mut Bytes, talks: &[Talk]) -> Result<(), NoMemory>
    ensures { OnOk result (out.new ≡ out.old ++ bytes_line (codes "to member ") (sent_in talks.now)) }
{
    let mut sent = Bytes::new(alloc);
    put_sent(&mut sent, talks)?;
    put_bytes(alloc, out, b"to member ", sent.as_slice())
}

fn put_number(out: &mut Bytes, word: &[u8], number: u32) -> Result<(), NoMemory>
    ensures { OnOk result (out.new ≡ out.old ++ word.now ++ decimal number) }
{
    out.extend(word)?;
    put_decimal(out, u128::from(number))
}

fn put_own(out: &mut Bytes, status: u16, requests: u32) -> Result<(), NoMemory>
    ensures { OnOk result (out.new ≡ out.old ++ codes "own-" ++ decimal status ++ codes " " ++ decimal requests) }
{
    put_number(out, b"own-", u32::from(status))?;
    put_number(out, b" ", requests)
}

// That a client was left while it waits is answered as want of memory: none waits in memory.
fn put_why(out: &mut Bytes, why: Why, requests: u32) -> Result<(), NoMemory>
    ensures { OnOk result (IsSomeAnd (why_words why requests) (λ words. out.new ≡ out.old ++ words)) }
{
    match why {
        Why::ByClient => put_number(out, b"by-client ", requests),
        Why::Last => put_number(out, b"last ", requests),
        Why::Own(status) => put_own(out, status, requests),
        Why::Refused(refusal) => put_own(out, refusal.code(), requests),
        Why::Cut => put_number(out, b"cut ", requests),
        Why::Unread => put_number(out, b"unread ", requests),
        Why::Idle => Err(NoMemory),
    }
}

// An end that shows nothing is answered as want of memory: where no call of a link fails and one thread has the desk, no
// other such end comes.
fn put_end(out: &mut Bytes, end: SessionEnd) -> Result<(), NoMemory>
    ensures { OnOk result (IsSomeAnd (end_words end) (λ words. out.new ≡ out.old ++ words)) }
{
    let SessionEnd { requests, stop } = end;
    match stop {
        SessionStop::Closed(why) => put_why(out, why, requests),
        SessionStop::Truncated => put_number(out, b"truncated ", requests),
        SessionStop::ClientFault | SessionStop::Stray { .. } | SessionStop::NoMemory => {
            Err(NoMemory)
        }
    }
}

/// Why a session ended, and after how many requests.
pub(crate) fn words_of(alloc: Global, end: SessionEnd) -> Result<Bytes, NoMemory>
    ensures { IfOk result (λ words. IsSomeAnd (end_words end) (λ shown. words ≡ shown)) }
{
    let mut words = Bytes::new(alloc);
    put_end(&mut words, end)?;
    Ok(words)
}

/// The lines of a session: what went to members, what the client has, and how it ended.
pub(crate) fn lines_of(
    alloc: Global,
    talks: &[Talk],
    sent: &[u8],
    words: &[u8],
) -> Result<Bytes, NoMemory>
    ensures { IfOk result (λ text. text ≡ dry_text talks.now sent.now words.now) }
{
    let mut text = Bytes::new(alloc);
    put_members(alloc, &mut text, talks)?;
    put_bytes(alloc, &mut text, b"to client ", sent)?;
    text.extend(b"end ")?;
    text.extend(words)?;
    text.extend(b"\n")?;
    Ok(text)
}
