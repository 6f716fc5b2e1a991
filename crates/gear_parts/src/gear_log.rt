//! The log of a gear while its worker puts rows into it; a gear may have none.
ghost use Rattle.std.specs.Prelude.{◌≡◌};
ghost use Rattle.gear_parts.specs.GearLogs.{LogGains, GreetsIf, broken_by, log_faults, new_log, sink_of};

use crate::worker_log::WorkerLog;
use jk_io::{IoError, NoMemory, Peer};
use lb_model::{RowSink, Served};
use request_log::{Format, LogRows, Timed};
use std::alloc::Global;
use std::marker::Model;

/// Rows that are written as the lines of a log, where there is one; else they are dropped.
#[derive(Drop)]
pub struct GearLog<'f, O: Timed> {
    rows: Option<LogRows<'f, O, O::T>>,
}

impl<'f, O: Timed> Model for GearLog<'f, O> {
    ghost use Rattle.std.specs.Prelude.{Option};
    ghost use Rattle.request_log.specs.LogStates.{LogState};

    ghost Value = { Option (LogState O) };

    ghost view = { λ l. l.rows };
}

impl<'f, O: Timed> GearLog<'f, O> {
    ghost use Rattle.gear_parts.specs.GearLogs.{new_log, sink_of};

    /// A log of this format in what a gear has for it. No memory is taken.
    pub fn new(alloc: Global, format: &'f Format, log: Option<O>) -> GearLog<'f, O>
        ensures { result ≡ new_log format.now log }
    {
        let Some(sink) = log else {
            return GearLog { rows: None };
        };
        let times = sink.times();
        GearLog {
            rows: Some(LogRows::new(alloc, format, sink, times)),
        }
    }

    /// What the gear has for its log.
    pub fn into_log(self) -> Option<O>
        ensures { result ≡ sink_of self.entry }
    {
        match self.rows {
            Some(rows) => Some(rows.into_sink()),
            None => None,
        }
    }
}

impl<'f, O: Timed> RowSink for GearLog<'f, O> {
    ghost use Rattle.gear_parts.specs.GearLogs.{LogGains};
    ghost use Rattle.gear_parts.specs.GearLogRules.{gained_on, nothing_gained};

    ghost gained = { LogGains O.Meanings };

    ghost has_room = { λ _. Unit {0} };

    ghost gains_nothing = { nothing_gained O.Meanings };

    ghost gains_on = { gained_on O.Meanings };

    fn room(&mut self) -> Result<(), NoMemory> {
        match &mut self.rows {
            Some(rows) => rows.room(),
            None => Ok(()),
        }
    }

    fn put(&mut self, row: Served) {
        if let Some(rows) = &mut self.rows {
            rows.put(row);
        }
    }
}

impl<'f, O: Timed> WorkerLog for GearLog<'f, O> {
    ghost use Rattle.gear_parts.specs.GearLogs.{GreetsIf, broken_by, log_faults};
    ghost use Rattle.gear_parts.specs.GearLogRules.{breaks_calmly, breaks_loudly};

    ghost greets = { λ s peer t. GreetsIf s peer t };

    ghost broken_by = { λ s. broken_by s };

    ghost log_faults = { λ s. log_faults O.faults s };

    ghost breaks_loudly = { breaks_loudly O.Meanings };

    ghost breaks_calmly = { breaks_calmly O.Meanings };

    fn greet(&mut self, peer: &Peer) {
        if let Some(rows) = &mut self.rows {
            rows.greet(peer);
        }
    }

    fn broken(&self) -> Option<IoError> {
        match &self.rows {
            Some(rows) => rows.broken(),
            None => None,
        }
    }
}
