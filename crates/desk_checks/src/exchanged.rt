//! Tellings of any desk.

use check_lines::Once;
use check_lines::calls::tell_stray;
use check_lines::texts::put_number;
use jk_io::{Bytes, NoMemory};
use lb_model::{Ask, RoomError, View};
use play_script::put_rows;

/// What a fresh session asks.
pub const FRESH: Ask = Ask {
    routed: None,
    fresh: true,
    tried: 0,
    disabled: 0,
    stopped: 0,
};

/// Puts how an exchange ended. Want of memory is an error here.
pub fn tell_once<M>(once: &Once<M>, out: &mut Bytes) -> Result<(), NoMemory> {
    match once {
        Once::Returned { member } => put_number(out, "returned ", u64::from(*member)),
        Once::Unchosen => out.extend(b"unchosen"),
        Once::Refused(RoomError::Full(_)) => out.extend(b"full"),
        Once::Refused(RoomError::NoMemory) => Err(NoMemory),
        Once::Stray(stray) => tell_stray(out, *stray),
    }
}

/// Puts a view: the next number, the moment, and the members.
pub fn tell_view(view: &View, out: &mut Bytes) -> Result<(), NoMemory> {
    put_number(out, "next ", view.next)?;
    put_number(out, " at ", view.at)?;
    out.push(b'\n')?;
    put_rows(out, view.rows.as_slice())
}
