//! The pages of the applications.
ghost use Rattle.std.specs.Prelude.{◌≡◌, IfOk};
ghost use Rattle.ajp_container.specs.Pages.{with_length as page_with, line as line_of, who as who_page, echo as echo_page, sized as sized_page, empty as empty_page, session_cookie as cookie_of, session as session_page, unknown as unknown_page};

use crate::app_config::AppConfig;
use crate::request::{content_length, has_session};
use ajp_request::Forward;
use jk_io::{Bytes, NoMemory};
use std::alloc::Global;

/// A reply, before it is cut into messages.
#[derive(Drop)]
pub struct AppPage {
    pub status: u16,
    /// Whether its head has a Content-Length.
    pub counted: bool,
    /// The value of Set-Cookie.
    pub cookie: Option<Bytes>,
    pub body: Bytes,
}

fn with_length(status: u16, body: Bytes) -> AppPage
    ensures { result ≡ page_with status body }
{
    AppPage {
        status,
        counted: true,
        cookie: None,
        body,
    }
}

/// A text and LF.
fn line(alloc: Global, text: &[u8]) -> Result<Bytes, NoMemory>
    ensures { IfOk result (λ bytes. bytes ≡ line_of text.now) }
{
    let mut bytes = Bytes::from_slice(alloc, text)?;
    bytes.push(b'\n')?;
    Ok(bytes)
}

/// The container's route.
pub fn who(alloc: Global, app: &AppConfig) -> Result<AppPage, NoMemory>
    ensures { IfOk result (λ page. page ≡ who_page app.now) }
{
    Ok(with_length(200, line(alloc, app.route.as_slice())?))
}

/// The request's own body.
pub fn echo(forward: &Forward, body: Bytes) -> AppPage
    ensures { result ≡ echo_page forward.now body }
{
    AppPage {
        status: 200,
        counted: content_length(forward).is_some(),
        cookie: None,
        body,
    }
}

/// `len` bytes, each an `x`.
pub fn sized(alloc: Global, len: u32) -> Result<AppPage, NoMemory>
    ensures { IfOk result (λ page. page ≡ sized_page len) }
{
    let body = Bytes::from_vec(vec![in alloc; b'x'; len as usize]?);
    Ok(with_length(200, body))
}

/// A status without a body.
pub fn empty(alloc: Global, status: u16) -> AppPage
    ensures { result ≡ empty_page status }
{
    with_length(status, Bytes::new(alloc))
}

/// Says whether the client has a session, and begins one where it has none.
pub fn session(alloc: Global, app: &AppConfig, forward: &Forward) -> Result<AppPage, NoMemory>
    ensures { IfOk result (λ page. page ≡ session_page app.now forward.now) }
{
    if has_session(forward) {
        return Ok(with_length(200, line(alloc, b"old")?));
    }
    Ok(AppPage {
        status: 200,
        counted: true,
        cookie: Some(session_cookie(alloc, app)?),
        body: line(alloc, b"new")?,
    })
}

fn session_cookie(alloc: Global, app: &AppConfig) -> Result<Bytes, NoMemory>
    ensures { IfOk result (λ cookie. cookie ≡ cookie_of app.now) }
{
    let mut cookie = Bytes::from_slice(alloc, b"JSESSIONID=1.")?;
    cookie.extend(app.route.as_slice())?;
    cookie.extend(b"; Path=/")?;
    Ok(cookie)
}

/// The page of a path that no application has.
pub fn unknown(alloc: Global) -> Result<AppPage, NoMemory>
    ensures { IfOk result (λ page. page ≡ unknown_page) }
{
    Ok(with_length(404, line(alloc, b"no application")?))
}
