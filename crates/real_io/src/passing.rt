//! Errors of the system that pass.
ghost use Rattle.std.specs.Prelude.{◌≡◌, ◌↔◌, IsTrue};
ghost use Rattle.std.specs.IoError.{error_kind, raw_os_error};
ghost use Rattle.real_io.specs.Passing.{IsPassing, IsWanting, passes_as};

use libc::net::poll;
use std::io;
use std::io::ErrorKind;

/// The milliseconds between two tries.
const TRY_AGAIN_MILLIS: i32 = 20;

/// Too few descriptors, too many files or too little memory for a moment. The numbers are those of Linux for ENFILE, EMFILE
/// and ENOBUFS.
pub fn is_wanting(error: &io::Error) -> bool
    ensures { IsTrue result ↔ IsWanting (raw_os_error error.now) }
{
    matches!(error.raw_os_error(), Some(23 | 24 | 105))
}

/// A client that went before it was accepted, or a signal; or what `is_wanting` says.
pub fn is_passing(error: &io::Error) -> bool
    ensures { IsTrue result ↔ IsPassing (error_kind error.now) (raw_os_error error.now) }
{
    passes(error.kind()) || is_wanting(error)
}

// Whether errors of a kind pass, whatever their numbers.
fn passes(kind: ErrorKind) -> bool
    ensures { result ≡ passes_as kind }
{
    match kind {
        ErrorKind::ConnectionAborted | ErrorKind::ConnectionReset | ErrorKind::Interrupted => true,
        ErrorKind::TimedOut | ErrorKind::OutOfMemory => true,
        _ => false,
    }
}

/// Waits for a moment.
pub fn pause() {
    poll(&mut [], TRY_AGAIN_MILLIS);
}
