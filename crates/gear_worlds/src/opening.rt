//! The openings of the real world: the socket that accepts clients, and files.
ghost use Rattle.std.specs.Prelude.{◌≡◌, ◌++◌, IfOk, IsUtf8, codes, map, string_bytes};
ghost use Rattle.gear_worlds.specs.Files.{file_path, worker_file};

use crate::journal_files::path_of;
use jk_io::{Bytes, ListOf, NoMemory, put_decimal};
use site_config::Lb;
use std::alloc::Global;
use std::fs::{self, OpenOptions};
use std::io::{self, ErrorKind};
use std::net::{Net, SocketAddr, TcpListener, TcpStream};
use std::rt::Files;

/// The number with which the journals of a run begin.
pub(crate) const FIRST_NUMBER: u64 = 0;

// The bytes as a text; an error where they aren't UTF-8.
fn as_text(bytes: &Bytes) -> io::Result<&str> {
    match str::from_utf8(bytes.as_slice()) {
        Ok(text) => Ok(text),
        Err(_) => Err(ErrorKind::InvalidInput.into()),
    }
}

/// The bytes as a person reads them. Those that aren't UTF-8 are shown by a mark.
pub(crate) fn shown(alloc: Global, bytes: &Bytes) -> Result<String, NoMemory>
    ensures { IfOk result (λ text. IsUtf8 bytes.now → string_bytes text ≡ bytes.now) }
{
    Ok(String::from_utf8_lossy(alloc, bytes.as_slice())?)
}

/// Opens the socket unless it is open, and gives a further handle of it.
pub(crate) fn listen<R: Net<Stream = TcpStream, Listener = TcpListener>>(
    rt: &R,
    listener: &mut Option<TcpListener>,
    address: &Bytes,
) -> io::Result<TcpListener> {
    if let Some(open) = listener {
        return open.try_clone();
    }
    let first = TcpListener::bind(rt, as_text(address)?)?;
    let handle = first.try_clone()?;
    *listener = Some(first);
    Ok(handle)
}

/// Where a socket is bound, in text.
pub(crate) fn bound_address(
    alloc: Global,
    address: Option<SocketAddr>,
) -> Result<Option<Bytes>, NoMemory> {
    match address {
        Some(address) => {
            let text = format!(in alloc; "{address}")?;
            Ok(Some(Bytes::from_vec(text.into_bytes())))
        }
        None => Ok(None),
    }
}

/// The names of the balancers, in order.
pub(crate) fn names_of(alloc: Global, lbs: &[Lb]) -> Result<ListOf<Bytes>, NoMemory>
    ensures { IfOk result (λ names. names ≡ map (λ lb. lb.name) lbs.now) }
{
    let mut names = ListOf::new(alloc);
    for lb in lbs {
        names.push(lb.name.copy()?)?;
    }
    Ok(names)
}

/// A file by which a directory is tried.
pub(crate) fn trial_path(dir: &Bytes) -> Result<Bytes, NoMemory>
    ensures { IfOk result (λ path. path ≡ dir.now ++ codes "/.jkd-try") }
{
    let mut path = dir.copy()?;
    path.extend(b"/.jkd-try")?;
    Ok(path)
}

/// Whether a file can be made: it is, and it is taken away again.
pub(crate) fn make_and_remove<R: Files>(rt: &R, path: &Bytes) -> io::Result<()> {
    let path = as_text(path)?;
    OpenOptions::new().write(true).create(true).open(rt, path)?;
    fs::remove_file(rt, path)
}

/// The file of a worker's log.
pub(crate) fn log_path(dir: &Bytes, number: u32) -> Result<Bytes, NoMemory>
    ensures { IfOk result (λ path. path ≡ worker_file dir.now number) }
{
    let mut path = dir.copy()?;
    path.extend(b"/worker-")?;
    put_decimal(&mut path, u128::from(number))?;
    path.extend(b".log")?;
    Ok(path)
}

/// The file with which the journal of a balancer begins.
fn first_path(dir: &Bytes, lb: &Lb) -> Result<Bytes, NoMemory>
    ensures { IfOk result (λ path. path ≡ file_path dir.now lb.now.name 0) }
{
    path_of(dir, lb.name.as_slice(), FIRST_NUMBER)
}

/// The first file that is there already of those with which the balancers' journals would begin, if there is one.
pub(crate) fn taken<R: Files>(rt: &R, dir: &Bytes, lbs: &[Lb]) -> Result<Option<Bytes>, NoMemory> {
    for lb in lbs {
        let path = first_path(dir, lb)?;
        if is_there(rt, &path) {
            return Ok(Some(path));
        }
    }
    Ok(None)
}

// Whether a file is there. One that can't be looked at isn't.
fn is_there<R: Files>(rt: &R, path: &Bytes) -> bool {
    match as_text(path) {
        Ok(path) => fs::exists(rt, path).unwrap_or(false),
        Err(_) => false,
    }
}

/// Opens a file to write at its end, and makes it where it is missing.
pub(crate) fn open_log<R: Files>(rt: &R, path: &Bytes) -> io::Result<R::File> {
    OpenOptions::new()
        .append(true)
        .create(true)
        .open(rt, as_text(path)?)
}
