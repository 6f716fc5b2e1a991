//! A log that is written row by row, as each request ends.
ghost use Rattle.std.specs.Prelude.{◌≡◌, ◌/◌, ◌≤◌, None, [], IsOk, OnOk, OnErr, IfSome, IfNone};
ghost use Rattle.jk_io.specs.Told.{HasCause, PutsFront, appended};
ghost use Rattle.httpdate.specs.Date.{unix_secs};
ghost use Rattle.request_log.specs.Lines.{between, line_of};
ghost use Rattle.request_log.specs.LogStates.{GainsRows, Greets, LogState};

use crate::format::Format;
use crate::line::put_line;
use crate::seen::Seen;
use httpdate::HttpDate;
use jk_io::{Bytes, IoError, MemLink, NoMemory, Peer, Sink, write_all};
use lb_model::{RowSink, Served};
use std::alloc::Global;
use std::marker::Model;

/// What tells the moments of a log's lines.
pub trait Times {
    /// The milliseconds since 1970, where a clock tells them.
    fn millis(&mut self) -> Option<u64>;
}

/// No clock.
#[derive(Clone, Copy, Drop)]
pub struct NoTimes;

impl Times for NoTimes {
    fn millis(&mut self) -> Option<u64> {
        None
    }
}

/// What lines are written to, beside a clock for their moments.
pub trait Timed: Sink {
    type T: Times + Drop + Send;

    /// The clock that tells the moments of its lines.
    fn times(&self) -> Self::T;
}

impl Timed for MemLink {
    type T = NoTimes;

    fn times(&self) -> NoTimes {
        NoTimes
    }
}

/// Rows that are written to a sink, a line each. Where a line can't be written whole, no more are written.
#[derive(Drop)]
pub struct LogRows<'a, G, T> {
    format: &'a Format,
    sink: G,
    times: T,
    /// What is seen of the request under way.
    seen: Seen,
    /// When its head was read.
    began: Option<u64>,
    /// The memory of a line.
    line: Bytes,
    broken: Option<IoError>,
}

impl<'a, G, T> Model for LogRows<'a, G, T> {
    ghost use Rattle.request_log.specs.LogStates.{LogState};

    ghost Value = { LogState G };

    ghost view = { λ l. record { format = l.format.now; addr = l.seen.addr; sink = l.sink; broken = l.broken } };
}

impl<'a, G: Sink, T: Times + Drop> LogRows<'a, G, T> {
    ghost use Rattle.request_log.specs.LogStates.{Greets};

    /// No row was put. No memory is taken.
    pub fn new(alloc: Global, format: &'a Format, sink: G, times: T) -> LogRows<'a, G, T>
        ensures { result ≡ record { format = format.now; addr = []; sink = sink; broken = None } }
    {
        LogRows {
            format,
            sink,
            times,
            seen: Seen {
                addr: Bytes::new(alloc),
                at: None,
                took: None,
            },
            began: None,
            line: Bytes::new(alloc),
            broken: None,
        }
    }

    /// Is told whose requests the next rows are. Where there is no memory for that, no more lines are written.
    pub fn greet(&mut self, peer: &Peer)
        ensures { Greets self.old peer.now self.new }
    {
        match peer.addr.copy() {
            Ok(addr) => self.seen.addr = addr,
            Err(NoMemory) => self.broken = Some(self.broken.unwrap_or(IoError::NoMemory)),
        }
    }

    /// Why no more lines are written, where it is so.
    pub fn broken(&self) -> Option<IoError>
        ensures { result ≡ self.now.broken }
    {
        self.broken
    }

    /// What the lines went to.
    pub fn into_sink(self) -> G
        ensures { result ≡ self.entry.sink }
    {
        self.sink
    }
}

/// The date of a moment up to the year 9999.
fn date_at(millis: u64) -> Option<HttpDate>
    ensures at { IfSome result (λ date. unix_secs date ≡ millis / 1000) }
    ensures late { IfNone result (253402300800 ≤ millis / 1000) }
{
    HttpDate::from_unix_secs(millis / 1000).ok()
}

/// The milliseconds from one moment to another, where both are known.
fn between(began: Option<u64>, ended: Option<u64>) -> Option<u64>
    ensures { result ≡ between began ended }
{
    Some(ended?.saturating_sub(began?))
}

/// Writes the line of a row, in this memory.
fn write_row<G: Sink>(
    line: &mut Bytes,
    format: &Format,
    row: &Served,
    seen: &Seen,
    sink: &mut G,
) -> Result<(), IoError>
    ensures put { OnOk result (G.sent sink.new ≡ appended (G.sent sink.old) (line_of format.now row.now seen.now)) }
    ensures front { OnErr result (PutsFront (G.sent sink.old) (G.sent sink.new) (line_of format.now row.now seen.now)) }
    ensures cause { HasCause (G.faults sink.old) (G.faults sink.new) result }
    ensures steady { IsOk result → G.faults sink.new ≡ G.faults sink.old }
{
    line.clear();
    put_line(line, format, row, seen)?;
    write_all(sink, line.as_slice())
}

impl<'a, G: Sink, T: Times + Drop> RowSink for LogRows<'a, G, T> {
    ghost use Rattle.request_log.specs.LogStates.{GainsRows};
    ghost use Rattle.request_log.specs.LogRules.{gains_nothing, gains_on};

    ghost gained = { GainsRows G.Meanings };

    ghost has_room = { λ _. Unit {0} };

    ghost gains_nothing = { gains_nothing G.Meanings };

    ghost gains_on = { gains_on G.Meanings };

    fn room(&mut self) -> Result<(), NoMemory> {
        self.began = self.times.millis();
        self.seen.at = self.began.and_then(date_at);
        Ok(())
    }

    fn put(&mut self, row: Served) {
        if self.broken.is_some() {
            return;
        }
        self.seen.took = between(self.began, self.times.millis());
        if let Err(error) = write_row(
            &mut self.line,
            self.format,
            &row,
            &self.seen,
            &mut self.sink,
        ) {
            self.broken = Some(error);
        }
    }
}
