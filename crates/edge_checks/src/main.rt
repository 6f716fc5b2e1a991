//! Serves over the real edge: sockets of the loopback, files of the directory of the run, and the system's clock. Shows each row
//! that comes out otherwise, and each claim on what a worker gets of the real world or a person is told of it, with whether it holds.
//!
//! The rows stand in crates/edge_checks/data/edge, and what they want comes from the rules, worked out by hand or by
//! vectors/serving.py. How a row is written stands in docs/FORMATS.md. In each the words order a front, at the port `\2` of the
//! loopback, which serves over the real world before a container of the route n1, at the port `\1`. A client dials until the
//! front listens, and sends the bytes of the file `client`. The other keys are:
//!
//!     stopped PATH        once the client has its answer a stop is asked for at the control socket PATH
//!     kept NAME ..        files that the front wrote are told, one after the other, and taken away
//!     dated NAME ..       the same, of moments their form
//!     checked NAME ..     the same, but the verdict on them all as a journal is told
//!
//! What comes out is each byte that the client got, what the front wrote, its `status N`, what who asked for a stop was answered,
//! and the files. The moments are the system's, so of each, as after `Date: `, the form is told: `0` for a digit, `x` for a letter.
#![tactic(auto)]

mod clients;
mod files;
mod fronts;
mod gears;
mod ports;
mod rows;
mod said;
mod telling;

use anyhow::Result;
use check_rows::files::{print_count, read_rows};
use check_rows::row::RowError;
use clients::contain_and_ask;
use fronts::{BegunRow, begin, told};
use gear_worlds::RealWorld;
use jk_commands::let_go;
use rows::{is_held, row_of};
use std::thread;

/// The file of rows.
const FILE: &str = "edge/fronts.txt";

/// How many workers a front has.
const WORKERS: u32 = 1;

/// How many gears the world of the claims expects. It says where it listens with the last of them, which nobody asks for.
const GEARS: u32 = 2;

fn main(rt: HostRuntime) -> Result<()> {
    let text = read_rows(&rt, FILE)?;
    let mut shown = String::new(rt.alloc());
    let mut fits = 0u64;
    for lines in text.as_str().split("\nrow ").skip(1) {
        let row = row_of(lines);
        let mut world = RealWorld::new(&rt, WORKERS);
        let told = match begin(&rt, rt.alloc(), row) {
            Ok(
                BegunRow {
                    order,
                    door,
                    asking,
                },
            ) => {
                let others = move || contain_and_ask(&rt, rt.alloc(), door, &asking);
                match thread::spawn(&rt, others) {
                    Ok(others) => told(&rt, rt.alloc(), row, order, &mut world, others),
                    Err(_) => Err(RowError::NoMemory),
                }
            }
            Err(error) => Err(error),
        };
        let_go(world);
        if is_held(rt.alloc(), row, told, &mut shown)? {
            fits = fits.saturating_add(1);
        }
    }
    print_count(&rt, shown.as_str(), fits, "rows", FILE)?;
    gears::judge(&rt, &mut RealWorld::new(&rt, GEARS))?;
    said::judge(&rt, RealWorld::new(&rt, GEARS))
}
