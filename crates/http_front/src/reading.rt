//! `read_head`: the next head of a client's bytes.
ghost use Rattle.std.specs.Prelude.{◌≡◌, ◌≤◌, ◌<◌, ◌++◌, ℕ, List, Option, Ok, length, IfOk, IfErr, OnErr, IsErrOf};
ghost use Rattle.jk_io.specs.Told.{IsEmpty, Rose};
ghost use Rattle.http_front.specs.Answer.{UsesHead, UsesEnd, IfHead, OnEnd, IfRefused, IsCalmHead};
ghost use Rattle.http_front.specs.Reads.{ReadsClient};
ghost use Rattle.http_front.specs.Refusal.{status_of};
ghost use Rattle.http_front.specs.Request.{Refuses, EndsInHead, IsDecided};
ghost use Rattle.http_front.specs.Search.{IsSearched, IsPartOfHead, IsLook, IsStop, IsFoundHead, HasEnded};
ghost use Rattle.http_front.specs.Unread.{unread};

use crate::answers::{Form, HeadError, HeadGot};
use crate::cut::{Search, find_end, skip_empty_lines};
use crate::inbox::{Inbox, MAX_HEAD_BYTES};
use crate::judging::refused;
use crate::parsing::head_from;
use jk_io::Link;
use std::alloc::Global;

/// What a look at the bytes in hand says.
#[derive(Clone, Copy)]
pub enum Look {
    /// A head of `len` bytes comes after `blank` bytes of empty lines.
    Whole { blank: usize, len: usize },
    /// No head has its end yet; `blank` bytes of empty lines, and `searched` bytes after them, need no second look.
    Part { blank: usize, searched: usize },
}

/// What stands at the front of a client's bytes.
#[derive(Clone, Copy)]
pub enum Found {
    /// A head of `len` bytes comes after `blank` bytes of empty lines.
    Head { blank: usize, len: usize },
    /// The bytes ended, all of them empty lines.
    End,
}

/// Looks for a head in the bytes, from what an earlier look at fewer of them saw.
fn look_at(bytes: &[u8], blank: usize, searched: usize) -> Look
    requires { IsSearched bytes.now blank searched }
    ensures { IsLook bytes.now result }
{
    let begin = skip_empty_lines(bytes, blank);
    let from = if begin == blank { searched } else { 0 };
    match find_end(&bytes[begin..], from) {
        Search::Ends(len) => Look::Whole { blank: begin, len },
        Search::Open(at) => Look::Part {
            blank: begin,
            searched: at,
        },
    }
}

/// Reads on where the inbox has room for more of a head, and answers how many bytes came; 0 is the end.
fn read_on<C: Link>(inbox: &mut Inbox, client: &mut C) -> Result<usize, HeadError>
    ensures more { IfOk result (λ n. (came : List ℕ) × (length came ≡ n) × (inbox.new ≡ inbox.old ++ came)) }
    ensures room { IfOk result (λ n. length inbox.old < MAX_HEAD_BYTES) }
    ensures end { IfOk result (λ n. n ≡ 0 → IsEmpty (C.incoming client.new)) }
    ensures stopped { IfErr result (IsStop inbox.old) }
    ensures err { OnErr result (inbox.new ≡ inbox.old) }
    ensures unasked { MAX_HEAD_BYTES ≤ length inbox.old → client.new ≡ client.old }
    ensures unread { unread inbox.new (C.incoming client.new) ≡ unread inbox.old (C.incoming client.old) }
    ensures reads { ReadsClient C.Meanings HeadError.Fault (IsCalmHead result) client.old client.new result }
{
    if inbox.len() == MAX_HEAD_BYTES {
        return Err(refused(Form::TooBig));
    }
    match inbox.read_more(client) {
        Ok(count) => Ok(count),
        Err(error) => Err(HeadError::from(error)),
    }
}

/// What stands where the bytes end and no head has its end: empty lines alone, or the front of a head.
fn end_at(bytes: &[u8], blank: usize) -> Result<Found, HeadError>
    requires part { (searched : ℕ) × IsPartOfHead bytes.now blank searched }
    requires short { length bytes.now < MAX_HEAD_BYTES }
    ensures found { IsFoundHead bytes.now result }
    ensures ended { HasEnded result }
    ensures no_fault { IsErrOf result HeadError.Fault → ⊥ }
{
    if blank == bytes.len() {
        Ok(Found::End)
    } else {
        Err(HeadError::Truncated)
    }
}

/// Reads until a head has its end in the inbox, the bytes end, or the limit is reached.
fn find_head<C: Link>(inbox: &mut Inbox, client: &mut C) -> Result<Found, HeadError>
    ensures found { IsFoundHead inbox.new result }
    ensures ended { HasEnded result → IsEmpty (C.incoming client.new) }
    ensures awaited { IsErrOf result HeadError.Fault → IsDecided inbox.new → ⊥ }
    ensures unasked { IsDecided inbox.old → client.new ≡ client.old }
    ensures unread { unread inbox.new (C.incoming client.new) ≡ unread inbox.old (C.incoming client.old) }
    ensures reads { ReadsClient C.Meanings HeadError.Fault (IsCalmHead result) client.old client.new result }
{
    let mut blank = 0;
    let mut searched = 0;
    loop {
        match look_at(inbox.as_slice(), blank, searched) {
            Look::Whole { blank, len } => return Ok(Found::Head { blank, len }),
            Look::Part {
                blank: begin,
                searched: at,
            } => {
                blank = begin;
                searched = at;
            }
        }
        match read_on(inbox, client) {
            Ok(0) => return end_at(inbox.as_slice(), blank),
            Ok(_) => {}
            Err(error) => return Err(error),
        }
    }
}

/// Takes what was found from the front of the inbox.
fn take_found(alloc: Global, inbox: &mut Inbox, found: Found) -> Result<HeadGot, HeadError>
    requires { IsFoundHead inbox.old (Ok found) }
    ensures head { (more : Option (List ℕ)) → IfHead result (UsesHead (unread inbox.old more) (unread inbox.new more)) }
    ensures end { (more : Option (List ℕ)) → (HasEnded (Ok found) → IsEmpty more)
        → OnEnd result (UsesEnd (unread inbox.old more) (unread inbox.new more)) }
    ensures refused { IfRefused result (λ status form. (status ≡ status_of form) × Refuses inbox.new form) }
    ensures not_cut { IsErrOf result HeadError.Truncated → ⊥ }
    ensures no_fault { IsErrOf result HeadError.Fault → ⊥ }
    ensures err { OnErr result (inbox.new ≡ inbox.old) }
{
    match found {
        Found::Head { blank, len } => {
            let head = head_from(alloc, &inbox.as_slice()[blank..blank + len])?;
            inbox.skip(blank + len);
            Ok(HeadGot::Head(head))
        }
        Found::End => {
            inbox.skip(inbox.len());
            Ok(HeadGot::End)
        }
    }
}

/// Reads the next head. It takes from the client what it has, as far as the inbox has room, and
/// leaves what follows the head in the inbox.
pub fn read_head<C: Link>(
    alloc: Global,
    inbox: &mut Inbox,
    client: &mut C,
) -> Result<HeadGot, HeadError>
    ensures head { IfHead result (UsesHead (unread inbox.old (C.incoming client.old)) (unread inbox.new (C.incoming client.new))) }
    ensures end { OnEnd result (UsesEnd (unread inbox.old (C.incoming client.old)) (unread inbox.new (C.incoming client.new))) }

    // After a refusal, a fault and want of memory nothing is used.
    ensures refused { IfRefused result (λ status form. (status ≡ status_of form) × Refuses inbox.new form) }
    ensures truncated { IsErrOf result HeadError.Truncated → EndsInHead inbox.new × IsEmpty (C.incoming client.new) }
    ensures fault { IsErrOf result HeadError.Fault → Rose (C.faults client.old) (C.faults client.new) }
    ensures err { OnErr result (unread inbox.new (C.incoming client.new) ≡ unread inbox.old (C.incoming client.old)) }

    // No byte after those that decide is waited for: where the inbox decides, the client is not touched, and
    // a read that fails was needed.
    ensures unasked { IsDecided inbox.old → client.new ≡ client.old }
    ensures awaited { IsErrOf result HeadError.Fault → IsDecided inbox.new → ⊥ }
    ensures steady { IsCalmHead result → C.faults client.new ≡ C.faults client.old }

    ensures same { (C.sent client.new ≡ C.sent client.old) × (C.beside client.new ≡ C.beside client.old) }
    ensures no_fewer { C.faults client.old ≤ C.faults client.new }
{
    let found = find_head(inbox, client)?;
    take_found(alloc, inbox, found)
}
