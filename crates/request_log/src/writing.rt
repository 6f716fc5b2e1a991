//! The log of rows of which nothing else is known.
ghost use Rattle.std.specs.Prelude.{◌≡◌, ◌++◌, [], None, IfOk, IsOk, OnOk, OnErr};
ghost use Rattle.std.specs.List.{flat_map};
ghost use Rattle.jk_io.specs.Told.{appended, HasCause, PutsFront};
ghost use Rattle.request_log.specs.Lines.{lines_alike, log_of, unseen};

use crate::format::Format;
use crate::line::put_line;
use crate::seen::Seen;
use jk_io::{Bytes, IoError, NoMemory, Sink, write_all};
use lb_model::{Served, ServedList};
use std::alloc::Global;

fn unseen(alloc: Global) -> Seen
    ensures { result ≡ unseen }
{
    Seen {
        addr: Bytes::new(alloc),
        at: None,
        took: None,
    }
}

fn put_rows(out: &mut Bytes, format: &Format, rows: &[Served], seen: &Seen) -> Result<(), NoMemory>
    ensures { OnOk result (out.new ≡ out.old ++ lines_alike format.now seen.now rows.now) }
{
    for row in rows {
        put_line(out, format, row, seen)?;
    }
    Ok(())
}

/// The log of these rows.
pub fn log_text(alloc: Global, format: &Format, rows: &ServedList) -> Result<Bytes, NoMemory>
    ensures { IfOk result (λ text. text ≡ log_of format.now rows.now.rows) }
{
    let mut out = Bytes::new(alloc);
    put_rows(&mut out, format, rows.as_slice(), &unseen(alloc))?;
    Ok(out)
}

/// Writes the log of these rows. After a refusal a front of it was written.
pub fn write_log<G: Sink>(
    alloc: Global,
    format: &Format,
    rows: &ServedList,
    sink: &mut G,
) -> Result<(), IoError>
    ensures put { OnOk result (G.sent sink.new ≡ appended (G.sent sink.old) (log_of format.now rows.now.rows)) }
    ensures front { OnErr result (PutsFront (G.sent sink.old) (G.sent sink.new) (log_of format.now rows.now.rows)) }
    ensures same { (G.incoming sink.new ≡ G.incoming sink.old) × (G.received sink.new ≡ G.received sink.old)
        × (G.beside sink.new ≡ G.beside sink.old) }
    ensures cause { HasCause (G.faults sink.old) (G.faults sink.new) result }
    ensures steady { IsOk result → G.faults sink.new ≡ G.faults sink.old }
{
    let text = log_text(alloc, format, rows)?;
    write_all(sink, text.as_slice())
}
