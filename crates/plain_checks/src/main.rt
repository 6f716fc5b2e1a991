//! Does the commands over files, input and output in memory, row by row, reads the words of each as an order, or as a wish for
//! a text, and shows each row that comes out otherwise.
//!
//! The rows stand in crates/plain_checks/data/plain, and their wanted output comes from the rules, worked out by hand or by a
//! program of vectors/. How a row is written stands in docs/FORMATS.md. Here its keys are:
//!
//!     output              the whole output; where there is a `part`, these are in it
//!     status N            the status, if it isn't 0
//!     reads N             how many bytes the input gave
//!     file-fails N        the read of a file with this number, from 0, fails
//!     input-fails N       a read of the input fails after its first N bytes
//!     output-fails        the output takes what is wanted, and then fails
//!     kind KIND           what is done, if it isn't the command; values.rt has each kind, and words.rt the two of words
#![tactic(auto)]

mod area;
mod plain;
mod row_text;
mod scripts;
mod sites;
mod told;
mod values;
mod words;

use anyhow::Result;

fn main(rt: HostRuntime) -> Result<()> {
    area::judge(&rt)
}
