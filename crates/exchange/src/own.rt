//! Answers of the connector's own.
ghost use Rattle.std.specs.Prelude.{◌≡◌, ◌≤◌};
ghost use Rattle.ajp_wire.specs.Moments.{link_at};
ghost use Rattle.exchange.specs.Steps.{IsWritten};

use crate::delivery::deliver;
use crate::ending::ExchangeEnd;
use http_out::{Own, OwnKind};
use jk_io::{IoError, Sink};

/// Writes this answer to the client, which has it once it went out.
pub(crate) fn write_own<C: Sink>(own: Own, kind: OwnKind, client: &mut C) -> ExchangeEnd
    ensures written { IsWritten own kind
        (link_at C.Meanings client.old) (link_at C.Meanings client.new) result }
    ensures same { (C.incoming client.new ≡ C.incoming client.old) × (C.beside client.new ≡ C.beside client.old) }
    ensures no_fewer { C.faults client.old ≤ C.faults client.new }
{
    match deliver(client, own.answer(kind).as_slice()) {
        Ok(()) => ExchangeEnd::Own(own.status()),
        Err(IoError::Failed) => ExchangeEnd::ClientFault,
        Err(IoError::NoMemory) => ExchangeEnd::NoMemory,
    }
}
