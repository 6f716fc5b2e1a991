//! A log over a file.
ghost use Rattle.std.specs.Prelude.{◌≡◌, ◌<◌, ◌≤◌, IfOk, None, length};

use crate::real_times::RealTimes;
use crate::tries::{APART_MILLIS, patience};
use crate::trouble::Trouble;
use jk_io::{Bytes, IoError, Meanings, Sink};
use libc::net::poll;
use real_io::{Notices, moment};
use request_log::Timed;
use std::io::{self, ErrorKind, Write};
use std::time::Clock;

/// A sink at the end of a file, whose lines have the system's moments. It tells nothing of what is written.
#[derive(Drop)]
pub struct FileLog<'r, F: Write + Drop, R: Clock> {
    rt: &'r R,
    /// Where the file is.
    path: Bytes,
    file: F,
    /// Where it is said that a line can't be written.
    notices: Notices,
    /// Why a line couldn't be written.
    trouble: Option<Trouble>,
    failed: u64,
}

impl<'r, F: Write + Drop, R: Clock> FileLog<'r, F, R> {
    /// A sink over the file at this path, which was opened to write at its end.
    pub fn new(rt: &'r R, path: Bytes, file: F, notices: Notices) -> FileLog<'r, F, R>
        ensures { (result.path ≡ path) × (result.file ≡ file) × (result.trouble ≡ None) × (result.failed ≡ 0) }
    {
        FileLog {
            rt,
            path,
            file,
            notices,
            trouble: None,
            failed: 0,
        }
    }

    /// Why a line couldn't be written.
    pub(crate) fn take_trouble(&mut self) -> Option<Trouble>
        ensures { result ≡ self.old.trouble }
    {
        self.trouble.take()
    }
}

impl<'r, F: Write + Drop, R: Clock> Meanings for FileLog<'r, F, R> {
    ghost use Rattle.std.specs.Prelude.{None};

    type Beside = ();

    ghost incoming = { λ _. None };

    ghost received = { λ _. None };

    ghost sent = { λ _. None };

    ghost beside = { λ _. tt };

    ghost faults = { λ l. l.failed };
}

impl<'r, F: Write + Drop, R: Clock + Sync> Timed for FileLog<'r, F, R> {
    type T = RealTimes<'r, R>;

    fn times(&self) -> RealTimes<'r, R> {
        RealTimes::new(self.rt)
    }
}

impl<'r, F: Write + Drop, R: Clock> Sink for FileLog<'r, F, R> {
    /// What can't be written is tried again for a minute.
    fn write(&mut self, piece: &[u8]) -> Result<usize, IoError> {
        let until = moment().saturating_add(patience(self.trouble.as_ref()));
        match put_until(&mut self.file, &self.notices, until, &self.path, piece) {
            Ok(n) => Ok(n),
            Err(reason) => {
                self.notices.given_up(shown(&self.path), &reason);
                self.trouble = trouble_of(&self.path, reason);
                self.failed = self.failed.saturating_add(1);
                Err(IoError::Failed)
            }
        }
    }
}

// A path for a person to read; it is UTF-8, since its file was opened.
fn shown(path: &Bytes) -> &str {
    str::from_utf8(path.as_slice()).unwrap_or("?")
}

// What is told of a file that can't be written; nothing where there is no memory for it.
fn trouble_of(path: &Bytes, reason: io::Error) -> Option<Trouble> {
    let path = path.copy().ok()?;
    let path = String::from_utf8(path.into_vec()).ok()?;
    Some(Trouble::Unwritten { path, reason })
}

// Writes to a file, and says how many bytes it took. Where that fails it is tried again until a moment, which is said on
// standard error.
fn put_until<F: Write>(
    file: &mut F,
    notices: &Notices,
    until: u64,
    path: &Bytes,
    piece: &[u8],
) -> io::Result<usize>
    ensures { IfOk result (λ n. (0 < n) × (n ≤ length piece.now)) }
{
    let mut is_said = false;
    for _ in 0..u64::MAX {
        let reason = match put(file, piece) {
            Ok(n) => return Ok(n),
            Err(reason) => reason,
        };
        if moment() >= until {
            return Err(reason);
        }
        if !is_said {
            notices.unkept(shown(path), &reason);
            is_said = true;
        }
        poll(&mut [], APART_MILLIS);
    }
    Err(ErrorKind::TimedOut.into())
}

// One write, and how many bytes it took; a signal in its midst is no failure.
fn put<F: Write>(file: &mut F, piece: &[u8]) -> io::Result<usize>
    ensures { IfOk result (λ n. (0 < n) × (n ≤ length piece.now)) }
{
    for _ in 0..u64::MAX {
        match file.write(piece) {
            Ok(n) if n > 0 => return Ok(n),
            Ok(_) => return Err(ErrorKind::WriteZero.into()),
            Err(error) if error.kind() == ErrorKind::Interrupted => {}
            Err(error) => return Err(error),
        }
    }
    Err(ErrorKind::Interrupted.into())
}
