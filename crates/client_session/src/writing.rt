//! Writing to the client.
ghost use Rattle.std.specs.Prelude.{◌≡◌};
ghost use Rattle.http_out.specs.Own.{status_of};
ghost use Rattle.client_session.specs.Standings.{IsClientStep};
ghost use Rattle.client_session.specs.Writing.{WritesOwn, WritesPart, WritesRefusal, stop_by};

use crate::ending::{SessionStop, Why};
use exchange::deliver;
use http_out::{Own, OwnKind};
use jk_io::{IoError, Sink};
use status_worker::{PageRefusal, refusal_answer};

/// Why a write to the client ended the session.
fn stop_of(error: IoError) -> SessionStop
    ensures { result ≡ stop_by error }
{
    match error {
        IoError::Failed => SessionStop::ClientFault,
        IoError::NoMemory => SessionStop::NoMemory,
    }
}

/// Writes bytes whole and sends them on their way, or says why the session ends.
pub(crate) fn send<C: Sink>(bytes: &[u8], client: &mut C) -> Result<(), SessionStop>
    ensures { IsClientStep C.Meanings client.old client.new (λ s n. WritesPart bytes.now s n result) }
{
    match deliver(client, bytes) {
        Ok(()) => Ok(()),
        Err(error) => Err(stop_of(error)),
    }
}

/// Writes this answer of the connector's own, after which the session ends.
pub(crate) fn write_own<C: Sink>(own: Own, kind: OwnKind, client: &mut C) -> SessionStop
    ensures { IsClientStep C.Meanings client.old client.new (λ s n. WritesOwn (status_of own) kind s n result) }
{
    match deliver(client, own.answer(kind).as_slice()) {
        Ok(()) => SessionStop::Closed(Why::Own(own.status())),
        Err(error) => stop_of(error),
    }
}

/// Writes the answer to a refused request of a status worker, after which the session ends.
pub(crate) fn write_refusal<C: Sink>(
    refusal: PageRefusal,
    kind: OwnKind,
    client: &mut C,
) -> SessionStop
    ensures { IsClientStep C.Meanings client.old client.new (λ s n. WritesRefusal refusal kind s n result) }
{
    match deliver(client, refusal_answer(refusal, kind).as_slice()) {
        Ok(()) => SessionStop::Closed(Why::Refused(refusal)),
        Err(error) => stop_of(error),
    }
}
