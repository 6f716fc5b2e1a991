//! The last words on standard error, once a command ended.
use jk_cli::{Order, WordsError};
use jk_io::NoMemory;
use real_io::is_of_socket;
use remarks::{Ended, ReadFile, RemarkOut, WriteSink, remarks_on, unread_file};
use std::alloc::Global;
use std::io::{Read, Write};
use std::net::Net;
use std::os::unix::net::UnixStream;
use std::rt::Files;
use std::{fs, io, str};

/// Opens and reads once more a file that the system didn't give, to learn why. A socket can't be opened: it is dialled.
fn probe<R: Files + Net>(rt: &R, path: &str, of_stop: bool) -> io::Result<&'static str> {
    let mut byte = [0u8; 1];
    match fs::open(rt, path) {
        Ok(_) if of_stop => Ok("it is no socket"),
        Ok(mut file) => {
            file.read(&mut byte)?;
            Ok("a read failed")
        }
        Err(error) if is_of_socket(&error) => {
            UnixStream::connect(rt, path)?;
            Ok("a read failed")
        }
        Err(error) => Err(error),
    }
}

/// Why the system doesn't give a file.
fn reason_of<R: Files + Net + AllocGlobal>(
    rt: &R,
    name: &[u8],
    of_stop: bool,
) -> Result<String, NoMemory> {
    let Ok(path) = str::from_utf8(name) else {
        return Ok(String::from_str(rt.alloc(), "its name is not UTF-8")?);
    };
    match probe(rt, path, of_stop) {
        Ok(reason) => Ok(String::from_str(rt.alloc(), reason)?),
        Err(error) => Ok(format!(in rt.alloc(); "{error}")?),
    }
}

/// Why a file that couldn't be read wasn't; nothing where each was.
pub(crate) fn reason<R: Files + Net + AllocGlobal>(
    rt: &R,
    asked: &Result<Order, WordsError>,
    reads: &[ReadFile],
) -> Result<String, NoMemory> {
    match unread_file(reads) {
        Some(name) => reason_of(rt, name, asks_stop(asked)),
        None => Ok(String::new(rt.alloc())),
    }
}

/// Whether a front is asked to end.
pub(crate) fn asks_stop(asked: &Result<Order, WordsError>) -> bool {
    matches!(asked, Ok(Order::Stop { .. }))
}

/// Writes what a person is told of a command that ended. A write that fails ends it and changes nothing, and so does want of
/// memory.
pub(crate) fn tell<W: Write + Drop>(alloc: Global, err: W, ended: &Ended<'_>) {
    let mut out = RemarkOut::new(alloc, WriteSink::new(err));
    let _ = remarks_on(alloc, &mut out, ended);
    let _ = out.finish();
}
