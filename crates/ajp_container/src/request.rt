//! The parts of a request that choose the application and ask for a body.
ghost use Rattle.std.specs.Prelude.{◌≡◌};
ghost use Rattle.std.specs.Option.{option_copied};
ghost use Rattle.std.specs.Str.{str_eq_ignore_ascii_case};
ghost use Rattle.ajp_container.specs.Request.{secret_of as secret_held, secret_in, lets_in as lets_in_by, application_of as application_by, value_named, length_in, content_length as length_of, has_first as has_first_of, asks_body as asks_body_of, has_text, names_session, has_session as has_session_of};

use crate::app_config::AppConfig;
use crate::application::{Application, application_at, is_echo};
use ajp_request::{Attribute, Forward};
use jk_io::{Bytes, parse_decimal};

/// The code of the attribute that holds a secret.
const SECRET: u8 = 0x0C;

const MAX_LENGTH_DIGITS: usize = 19;

/// The application that answers a request.
pub fn application_of(app: &AppConfig, forward: &Forward) -> Application
    ensures { result ≡ application_by app.now forward.now }
{
    if !lets_in(app.secret.as_ref(), secret(forward.attributes.as_slice())) {
        return Application::Forbidden;
    }
    application_at(forward.uri.as_slice())
}

/// Whether a container with the secret `secret` lets in a request that gives `given`.
fn lets_in(secret: Option<&Bytes>, given: Option<&[u8]>) -> bool
    ensures { result ≡ lets_in_by (option_copied secret.entry) (option_copied given.entry) }
{
    match (secret, given) {
        (None, _) => true,
        (Some(_), None) => false,
        (Some(secret), Some(given)) => given == secret.as_slice(),
    }
}

/// The secret that a request brings along.
fn secret(attributes: &[Attribute]) -> Option<&[u8]>
    ensures { option_copied result ≡ secret_in attributes.now }
{
    for attribute in attributes {
        if let Some(text) = secret_of(attribute) {
            return Some(text);
        }
    }
    None
}

fn secret_of(attribute: &Attribute) -> Option<&[u8]>
    ensures { option_copied result ≡ secret_held attribute.now }
{
    match attribute {
        Attribute::Plain(code, text) if *code == SECRET => Some(text.as_slice()),
        Attribute::Plain(..) | Attribute::Named(..) | Attribute::KeySize(_) => None,
    }
}

/// The length that a request names for its body.
pub fn content_length(forward: &Forward) -> Option<u64>
    ensures { result ≡ length_of forward.now }
{
    match value_of(forward.headers.as_slice(), b"content-length") {
        Some(value) => length(value),
        None => None,
    }
}

/// The value of the first header of a name.
fn value_of<'a>(headers: &'a [(Bytes, Bytes)], name: &[u8]) -> Option<&'a [u8]>
    ensures { option_copied result ≡ value_named name.now headers.now }
{
    for header in headers {
        if is_named(header, name) {
            return Some(header.1.as_slice());
        }
    }
    None
}

/// Whether a header has the name, in either case.
fn is_named(header: &(Bytes, Bytes), name: &[u8]) -> bool
    ensures { result ≡ str_eq_ignore_ascii_case header.now.0 name.now }
{
    header.0.as_slice().eq_ignore_ascii_case(name)
}

fn length(value: &[u8]) -> Option<u64>
    ensures { result ≡ length_in value.now }
{
    if value.len() > MAX_LENGTH_DIGITS {
        return None;
    }
    parse_decimal(value)
}

/// Whether a first body packet follows a request.
pub fn has_first(forward: &Forward) -> bool
    ensures { result ≡ has_first_of forward.now }
{
    match content_length(forward) {
        Some(length) => 0 < length,
        None => false,
    }
}

/// Whether the container asks for the request's whole body.
pub fn asks_body(app: &AppConfig, forward: &Forward) -> bool
    ensures { result ≡ asks_body_of app.now forward.now }
{
    is_echo(application_of(app, forward))
}

/// Whether the client has a session.
pub fn has_session(forward: &Forward) -> bool
    ensures { result ≡ has_session_of forward.now }
{
    forward
        .headers
        .as_slice()
        .iter()
        .any(|header| is_session(header))
}

fn is_session(header: &(Bytes, Bytes)) -> bool
    ensures { result ≡ names_session header.now }
{
    is_named(header, b"cookie") && contains(header.1.as_slice(), b"JSESSIONID=")
}

/// Whether a text stands somewhere in the bytes.
fn contains(bytes: &[u8], text: &[u8]) -> bool
    ensures { result ≡ has_text text.now bytes.now }
{
    for at in 0..bytes.len() {
        if bytes[at..].starts_with(text) {
            return true;
        }
    }
    false
}
