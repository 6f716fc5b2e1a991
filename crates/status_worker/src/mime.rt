//! How a page is written: as its query's `mime` says.
ghost use Rattle.std.specs.Prelude.{◌≡◌, IfOk};
ghost use Rattle.std.specs.List.{find};
ghost use Rattle.std.specs.Option.{option_copied};
ghost use Rattle.status_worker.specs.Fields.{fields_of};
ghost use Rattle.status_worker.specs.Mimes.{content_type, is_mime, mime_among, mime_in, mime_named, mime_of};

use crate::error::StatusError;
use crate::field::Field;
use crate::query::read_fields;
use jk_io::NoMemory;
use std::alloc::Global;

/// How a page is written.
#[derive(Clone, Copy, PartialEq, Eq)]
pub enum Mime {
    /// A line for each balancer and each member.
    Txt,
    /// A table for a browser.
    Html,
    /// Figures in Prometheus' text format.
    Prom,
}

impl Mime {
    /// The value of Content-Type.
    pub fn content_type(self) -> &'static [u8]
        ensures { result.now ≡ content_type self }
    {
        match self {
            Mime::Txt => b"text/plain",
            Mime::Html => b"text/html; charset=utf-8",
            Mime::Prom => b"text/plain; version=0.0.4; charset=utf-8",
        }
    }
}

/// The mime of this name; another name is that of none, and the page is the plain one.
fn mime_named(text: &[u8]) -> Mime
    ensures { result ≡ mime_named text.now }
{
    if text == b"html".as_slice() {
        Mime::Html
    } else if text == b"prom".as_slice() {
        Mime::Prom
    } else {
        Mime::Txt
    }
}

fn is_mime(field: &Field) -> bool
    ensures { result ≡ is_mime field.now }
{
    field.name.as_slice() == b"mime".as_slice()
}

fn find_mime(fields: &[Field]) -> Option<&Field>
    ensures { option_copied result ≡ find is_mime fields.now }
{
    fields.iter().find(|field| is_mime(field))
}

/// What the first field of the name `mime` says.
fn mime_in(fields: &[Field]) -> Mime
    ensures { result ≡ mime_in fields.now }
{
    match find_mime(fields) {
        Some(field) => mime_named(field.value.as_slice()),
        None => Mime::Txt,
    }
}

/// What a query that is there says.
fn mime_by(alloc: Global, query: &[u8]) -> Result<Mime, NoMemory>
    ensures { IfOk result (λ mime. mime ≡ mime_among (fields_of query.now)) }
{
    match read_fields(alloc, query) {
        Ok(fields) => Ok(mime_in(fields.as_slice())),
        Err(StatusError::BadQuery) => Ok(Mime::Txt),
        Err(StatusError::NoMemory) => Err(NoMemory),
    }
}

/// How the page of a query is written; a query that can't be read has no page, and counts as one without `mime`.
pub fn read_mime(alloc: Global, query: Option<&[u8]>) -> Result<Mime, NoMemory>
    ensures { IfOk result (λ mime. mime ≡ mime_of (option_copied query.entry)) }
{
    match query {
        None => mime_by(alloc, b""),
        Some(query) => mime_by(alloc, query),
    }
}
