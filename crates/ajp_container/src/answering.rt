//! The answer to a request.
ghost use Rattle.std.specs.Prelude.{◌≡◌, [], ◌∷◌, ◌++◌, codes, decimal, IfOk, OnOk};
ghost use Rattle.ajp_container.specs.Answer.{message_of, head_of, messages_of, broken_head as broken, answer_by, answer_of};

use crate::app_config::AppConfig;
use crate::application::Application;
use crate::cutting::put_chunks;
use crate::page::{AppPage, echo, empty, session, sized, unknown, who};
use crate::request::application_of;
use ajp_reply::{Message, ReplyParts};
use ajp_request::Forward;
use ajp_wire::HeadPairs;
use jk_io::{Bytes, ListOf, NoMemory, put_decimal};
use std::alloc::Global;

/// Messages in the order in which they are sent.
pub type MessageList = ListOf<Message>;

/// What stands in a packet beside a chunk's bytes: the head, the code, the length and the zero byte.
const CHUNK_FRAME: usize = 8;

/// What the container answers to a request with these data of its body.
pub fn app_answer(
    alloc: Global,
    app: &AppConfig,
    forward: &Forward,
    body: Bytes,
) -> Result<MessageList, NoMemory>
    ensures answer { IfOk result (λ messages. messages ≡ answer_of app.now forward.now body) }
{
    answer(alloc, app, forward, body, application_of(app, forward))
}

fn answer(
    alloc: Global,
    app: &AppConfig,
    forward: &Forward,
    body: Bytes,
    application: Application,
) -> Result<MessageList, NoMemory>
    ensures { IfOk result (λ messages. messages ≡ answer_by app.now forward.now body application) }
{
    match application {
        Application::Forbidden => whole(alloc, app, empty(alloc, 403)),
        Application::Who => whole(alloc, app, who(alloc, app)?),
        Application::Echo => whole(alloc, app, echo(forward, body)),
        Application::Size(len) => whole(alloc, app, sized(alloc, len)?),
        Application::Status(status) => whole(alloc, app, empty(alloc, status)),
        Application::Session => whole(alloc, app, session(alloc, app, forward)?),
        Application::DropAtOnce => Ok(MessageList::new(alloc)),
        Application::DropBehindHead => broken_off(alloc),
        Application::DropBehindChunk => broken_off_in_body(alloc),
        Application::Unknown => whole(alloc, app, unknown(alloc)?),
    }
}

/// The messages of a whole page.
fn whole(alloc: Global, app: &AppConfig, page: AppPage) -> Result<MessageList, NoMemory>
    ensures { IfOk result (λ messages. messages ≡ messages_of app.now.packet page) }
{
    page_messages(alloc, app, &page)
}

fn page_messages(alloc: Global, app: &AppConfig, page: &AppPage) -> Result<MessageList, NoMemory>
    ensures { IfOk result (λ messages. messages ≡ messages_of app.now.packet page.now) }
{
    let mut messages = MessageList::new(alloc);
    put_page(alloc, app, page, &mut messages)?;
    Ok(messages)
}

/// Adds the messages of a page at the end.
fn put_page(
    alloc: Global,
    app: &AppConfig,
    page: &AppPage,
    messages: &mut MessageList,
) -> Result<(), NoMemory>
    ensures { OnOk result (messages.new ≡ messages.old ++ messages_of app.now.packet page.now) }
{
    put_head(alloc, page, messages)?;
    let size = app.packet as usize - CHUNK_FRAME;
    put_chunks(alloc, messages, page.body.as_slice(), size)?;
    messages.push(Message::End { reuse: true })?;
    Ok(())
}

/// Adds the head of a page at the end.
fn put_head(alloc: Global, page: &AppPage, messages: &mut MessageList) -> Result<(), NoMemory>
    ensures { OnOk result (messages.new ≡ messages.old ++ Message.Headers (head_of page.now) ∷ []) }
{
    messages.push(Message::Headers(head(alloc, page)?))?;
    Ok(())
}

/// The head of a page.
fn head(alloc: Global, page: &AppPage) -> Result<ReplyParts, NoMemory>
    ensures { IfOk result (λ parts. parts ≡ head_of page.now) }
{
    let mut headers = HeadPairs::new(alloc);
    if page.counted {
        put_length(alloc, &mut headers, page.body.len())?;
    }
    if let Some(cookie) = &page.cookie {
        headers.push((Bytes::from_slice(alloc, b"Set-Cookie")?, cookie.copy()?))?;
    }
    Ok(ReplyParts {
        status: page.status,
        message: Bytes::from_slice(alloc, message(page.status))?,
        headers,
    })
}

/// Adds the line of a body's length.
fn put_length(alloc: Global, headers: &mut HeadPairs, len: usize) -> Result<(), NoMemory>
    ensures { OnOk result (headers.new ≡ headers.old ++ (codes "Content-Length", decimal len) ∷ []) }
{
    let mut digits = Bytes::new(alloc);
    put_decimal(&mut digits, len as u128)?;
    headers.push((Bytes::from_slice(alloc, b"Content-Length")?, digits))?;
    Ok(())
}

/// The text that a status line has after the status.
fn message(status: u16) -> &'static [u8]
    ensures { result.now ≡ message_of status }
{
    if status == 200 { b"OK" } else { b"Status" }
}

/// The head of a reply with 10 bytes, and nothing after it.
fn broken_off(alloc: Global) -> Result<MessageList, NoMemory>
    ensures { IfOk result (λ messages. messages ≡ Message.Headers broken ∷ []) }
{
    let mut headers = HeadPairs::new(alloc);
    put_length(alloc, &mut headers, 10)?;
    let mut messages = MessageList::new(alloc);
    messages.push(Message::Headers(ReplyParts {
        status: 200,
        message: Bytes::from_slice(alloc, b"OK")?,
        headers,
    }))?;
    Ok(messages)
}

/// The same head, and 3 bytes of the body.
fn broken_off_in_body(alloc: Global) -> Result<MessageList, NoMemory>
    ensures { IfOk result (λ messages. messages ≡ Message.Headers broken ∷ Message.Chunk (codes "xxx") ∷ []) }
{
    let mut messages = broken_off(alloc)?;
    messages.push(Message::Chunk(Bytes::from_slice(alloc, b"xxx")?))?;
    Ok(messages)
}
