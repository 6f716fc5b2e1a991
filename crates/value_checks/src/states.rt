//! States of a member and what happens to it, as a line has them.

use check_lines::texts::{long, put_number};
use jk_io::{Bytes, NoMemory};
use lb_model::{Activation, Kind, MemberState};
use lb_rules::{Touch, next_state};

fn counted_state(word: &str, number: &str) -> Option<MemberState> {
    match word {
        "error" => Some(MemberState::Error { at: long(number)? }),
        "probe" => Some(MemberState::Probe {
            ticket: long(number)?,
        }),
        _ => None,
    }
}

/// A state as a journal's line has it.
pub fn state_of(word: &str) -> Option<MemberState> {
    match word {
        "ok" => Some(MemberState::Ok),
        "recover" => Some(MemberState::Recover),
        _ => {
            let (word, number) = word.split_once(':')?;
            counted_state(word, number)
        }
    }
}

pub fn activation_of(word: &str) -> Option<Activation> {
    match word {
        "A" => Some(Activation::Active),
        "D" => Some(Activation::Disabled),
        "S" => Some(Activation::Stopped),
        _ => None,
    }
}

fn kind_of(word: &str) -> Option<Kind> {
    match word {
        "done" => Some(Kind::Done),
        "failed" => Some(Kind::Failed),
        "gone" => Some(Kind::Gone),
        _ => None,
    }
}

fn returned(ticket: &str, kind: &str, at: &str) -> Option<Touch> {
    Some(Touch::Returned {
        ticket: long(ticket)?,
        kind: kind_of(kind)?,
        at: long(at)?,
    })
}

fn maintained(at: &str, recover: &str) -> Option<Touch> {
    Some(Touch::Maintained {
        at: long(at)?,
        recover: long(recover)?,
    })
}

fn plain_touch(word: &str) -> Option<Touch> {
    match word {
        "recover" => Some(Touch::Recover),
        "reset" => Some(Touch::Reset),
        "revived" => Some(Touch::Revived),
        _ => None,
    }
}

fn chosen(ticket: &str) -> Option<Touch> {
    Some(Touch::Chosen {
        ticket: long(ticket)?,
    })
}

fn touch_of(words: &[&str]) -> Option<Touch> {
    match words {
        [word] => plain_touch(word),
        ["chosen", ticket] => chosen(ticket),
        ["returned", ticket, kind, at] => returned(ticket, kind, at),
        ["maintained", at, recover] => maintained(at, recover),
        _ => None,
    }
}

fn put_state(out: &mut Bytes, state: MemberState) -> Result<(), NoMemory> {
    match state {
        MemberState::Ok => out.extend(b"ok"),
        MemberState::Error { at } => put_number(out, "error:", at),
        MemberState::Recover => out.extend(b"recover"),
        MemberState::Probe { ticket } => put_number(out, "probe:", ticket),
    }
}

fn state_after(direct: bool, state: &str, touch: &[&str]) -> Option<MemberState> {
    Some(next_state(state_of(state)?, &touch_of(touch)?, direct))
}

/// The state after an event, in a direct balancer or in another one.
pub fn tell_state(
    direct: bool,
    state: &str,
    touch: &[&str],
    out: &mut Bytes,
) -> Result<bool, NoMemory> {
    match state_after(direct, state, touch) {
        Some(state) => {
            put_state(out, state)?;
            Ok(true)
        }
        None => Ok(false),
    }
}
