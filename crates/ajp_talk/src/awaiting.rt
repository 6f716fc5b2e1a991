//! A link that is told what is waited for.

ghost use Rattle.std.specs.Prelude.{◌≡◌};
ghost use Rattle.ajp_wire.specs.Moments.{link_at};

use jk_io::{Awaited, Link};

/// Tells a link what is waited for next on it. What it tells of itself stays.
pub(crate) fn await_on<L: Link>(line: &mut L, what: Awaited)
    ensures heard { L.heard line.old what line.new }
    ensures same { link_at L.Meanings line.new ≡ link_at L.Meanings line.old }
    ensures beside { L.beside line.new ≡ L.beside line.old }
{
    line.await_next(what);
}
