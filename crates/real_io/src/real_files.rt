//! The files and the clock of the system.
ghost use Rattle.std.specs.Prelude.{◌≡◌, ◌≤◌, ◌↔◌, IfOk, IsTrue, Some, false, length, pos, true};
ghost use Rattle.std.specs.IoError.{raw_os_error};

use crate::failed_calls::FailedCalls;
use crate::std_streams::ReadSource;
use jk_io::{Bytes, Clock, FileError, Files, MAX_INPUT_BYTES, read_whole};
use std::alloc::Global;
use std::io::Write;
use std::net::Net;
use std::os::unix::net::UnixStream;
use std::rt::{Clock as SystemClock, Files as SystemFiles};
use std::{fs, io};

/// What is written to a socket whose answer is read.
const ASKED: &[u8] = b"stop\n";

/// The system's number for the open of a file that is a socket, ENXIO.
const IS_SOCKET: i32 = 6;

/// The files of the system. They tell nothing of what they hold. A file that is a Unix socket is asked to stop, and holds what
/// it answers.
#[derive(Drop)]
pub struct RealFiles<'r, R: SystemFiles + Net> {
    rt: &'r R,
    /// Only a socket is read: any other file can't be.
    sockets: bool,
    failed: FailedCalls,
}

impl<'r, R: SystemFiles + Net> RealFiles<'r, R> {
    pub fn new(rt: &'r R) -> RealFiles<'r, R>
        ensures { (result.sockets ≡ false) × (result.failed ≡ 0) }
    {
        RealFiles {
            rt,
            sockets: false,
            failed: FailedCalls::none(),
        }
    }

    /// The sockets among the files: any other file can't be read.
    pub fn sockets(rt: &'r R) -> RealFiles<'r, R>
        ensures { (result.sockets ≡ true) × (result.failed ≡ 0) }
    {
        RealFiles {
            rt,
            sockets: true,
            failed: FailedCalls::none(),
        }
    }
}

impl<'r, R: SystemFiles + Net> Files for RealFiles<'r, R> {
    ghost use Rattle.std.specs.Prelude.{None};

    ghost files = { λ _. None };

    ghost faults = { λ f. f.failed };

    /// A name that isn't UTF-8 is that of no file.
    fn read_file(&mut self, alloc: Global, name: &Bytes) -> Result<Bytes, FileError> {
        match read_named(self.rt, alloc, name, self.sockets) {
            Err(FileError::Failed) => {
                self.failed.fail();
                Err(FileError::Failed)
            }
            answer => answer,
        }
    }
}

/// Whether a file can't be opened since it is a socket, which is dialled.
pub fn is_of_socket(error: &io::Error) -> bool
    ensures { IsTrue result ↔ (raw_os_error error.now ≡ Some (pos 6)) }
{
    error.raw_os_error() == Some(IS_SOCKET)
}

// A name that isn't UTF-8 is that of no file.
fn read_named<R: SystemFiles + Net>(
    rt: &R,
    alloc: Global,
    name: &Bytes,
    sockets: bool,
) -> Result<Bytes, FileError>
    ensures { IfOk result (λ bytes. length bytes ≤ MAX_INPUT_BYTES) }
{
    let Ok(path) = str::from_utf8(name.as_slice()) else {
        return Err(FileError::Failed);
    };
    match fs::open(rt, path) {
        Ok(_) if sockets => Err(FileError::Failed),
        Ok(file) => read_whole(alloc, &mut ReadSource::new(file)),
        Err(error) if is_of_socket(&error) => read_answer(rt, alloc, path),
        Err(_) => Err(FileError::Failed),
    }
}

// What a socket answers that is asked to stop.
fn read_answer<R: Net>(rt: &R, alloc: Global, path: &str) -> Result<Bytes, FileError>
    ensures { IfOk result (λ bytes. length bytes ≤ MAX_INPUT_BYTES) }
{
    match asked(rt, path) {
        Ok(stream) => read_whole(alloc, &mut ReadSource::new(stream)),
        Err(_) => Err(FileError::Failed),
    }
}

fn asked<R: Net>(rt: &R, path: &str) -> io::Result<UnixStream> {
    let mut stream = UnixStream::connect(rt, path)?;
    stream.write_all(ASKED)?;
    Ok(stream)
}

/// The clock of the system, in seconds since 1970; while it can't be read it stands still.
#[derive(Drop)]
pub struct RealClock<'r, R: SystemClock> {
    rt: &'r R,
    last: u64,
}

impl<'r, R: SystemClock> RealClock<'r, R> {
    pub fn new(rt: &'r R) -> RealClock<'r, R>
        ensures { result.last ≡ 0 }
    {
        RealClock { rt, last: 0 }
    }
}

impl<'r, R: SystemClock> Clock for RealClock<'r, R> {
    ghost use Rattle.std.specs.Prelude.{None};

    ghost answers = { λ _. None };

    fn now(&mut self) -> u64 {
        if let Ok(time) = self.rt.since_1970() {
            self.last = time.as_secs();
        }
        self.last
    }
}
