//! Files, the clock and the streams of the system.

use crate::lists::length_read;
use crate::memory;
use jk_io::{Clock, NoMemory, write_all};
use real_io::{RealClock, RealFiles, StdIn, StdOut};
use std::alloc::Global;
use std::net::Net;
use std::rt::{Clock as SystemClock, Files};

/// A moment of 2023, in seconds since 1970.
const MOMENT: u64 = 1_700_000_000;

/// What a read of each of these files answers.
pub fn tell_files<R: Files + Net>(
    rt: &R,
    alloc: Global,
    names: &str,
    out: &mut String,
) -> Result<(), NoMemory> {
    memory::tell_files(alloc, &mut RealFiles::new(rt), names, out)
}

pub fn is_past_2023<R: SystemClock>(rt: &R) -> bool {
    RealClock::new(rt).now() > MOMENT
}

pub fn takes_a_byte<R: Print>(rt: &R) -> bool {
    write_all(&mut StdOut::new(rt), b"\n") == Ok(())
}

pub fn ends<R: Input>(rt: &R) -> bool {
    length_read(&mut StdIn::new(rt.reader())) == 0
}
