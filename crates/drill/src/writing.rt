//! A drill's order, and its summary or its journal, written.
ghost use Rattle.std.specs.Prelude.{◌≡◌, ◌≤◌};
ghost use Rattle.drill.specs.Written.{RunsDrill, WritesTold, status_of};
ghost use Rattle.drill.specs.declared.plan.TheConstants.{MAX_REQUESTS, MAX_THREADS};

use crate::drill_error::{DrillError, NO_MEMORY};
use crate::running::run_drill;
use jk_io::{IoError, Sink, write_all};
use std::alloc::Global;
use std::sync::Wait;
use std::thread::Threads;

/// The requests of a drill, by how many threads they are made, and what is printed of them.
#[derive(Clone, Copy)]
pub struct DrillOrder {
    pub seed: u64,
    pub threads: u32,
    pub requests: u32,
    /// Whether the journal's text is printed, and not the summary.
    pub text: bool,
    pub passes: bool,
}

impl DrillOrder {
    pub fn new(seed: u64, threads: u32, requests: u32, text: bool, passes: bool) -> DrillOrder
        ensures { result ≡ record { seed = seed; threads = threads; requests = requests; text = text; passes = passes } }
    {
        DrillOrder {
            seed,
            threads,
            requests,
            text,
            passes,
        }
    }
}

/// The status of a drill that was written.
const WRITTEN: u8 = 0;

/// The status of a write that failed.
const OUTPUT_FAULT: u8 = 5;

/// How the writing of a drill ended.
#[derive(Drop)]
pub enum DrillEnd {
    /// What it handed out was written whole.
    Written,
    /// A write failed.
    OutputFault,
    /// Memory was wanted in a write.
    NoMemory,
    /// It handed out nothing.
    Lacked(DrillError),
}

impl DrillEnd {
    /// The program's status.
    pub fn status(&self) -> u8
        ensures { result ≡ status_of self.now }
    {
        match self {
            DrillEnd::Written => WRITTEN,
            DrillEnd::OutputFault => OUTPUT_FAULT,
            DrillEnd::NoMemory => NO_MEMORY,
            DrillEnd::Lacked(error) => error.status(),
        }
    }
}

/// Writes what a drill handed out.
fn put_text<O: Sink>(out: &mut O, text: &[u8]) -> DrillEnd
    ensures { WritesTold (O.sent out.old) (O.sent out.new) (O.faults out.old) (O.faults out.new) text.now result }
{
    match write_all(out, text) {
        Ok(()) => DrillEnd::Written,
        Err(IoError::Failed) => DrillEnd::OutputFault,
        Err(IoError::NoMemory) => DrillEnd::NoMemory,
    }
}

/// Runs a drill, and writes what it hands out.
pub fn write_drill<O: Sink, R: Threads + Wait + Sync>(
    rt: &R,
    alloc: Global,
    order: DrillOrder,
    out: &mut O,
) -> DrillEnd
    requires threads { (1 ≤ order.threads) × (order.threads ≤ MAX_THREADS) }
    requires requests { (1 ≤ order.requests) × (order.requests ≤ MAX_REQUESTS) }

    // What it handed out was written, or a front of it; else it says why there is nothing, and nothing was written.
    ensures { RunsDrill order.seed order.threads order.requests order.text order.passes
        (O.sent out.old) (O.sent out.new) (O.faults out.old) (O.faults out.new) result }
{
    let DrillOrder {
        seed,
        threads,
        requests,
        text,
        passes,
    } = order;
    match run_drill(rt, alloc, seed, threads, requests, text, passes) {
        Ok(drilled) => put_text(out, drilled.text.as_slice()),
        Err(error) => DrillEnd::Lacked(error),
    }
}
