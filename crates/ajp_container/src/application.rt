//! Which application a request is for.
ghost use Rattle.std.specs.Prelude.{◌≡◌};
ghost use Rattle.ajp_container.specs.Applications.{application_at, numbered as numbered_at, number_behind as number_behind_of, is_echo as echoes, drops};

use jk_io::parse_decimal;

const WHO: &[u8] = b"/who";

const ECHO: &[u8] = b"/echo";

const SESSION: &[u8] = b"/session";

const DROP_AT_ONCE: &[u8] = b"/drop/0";

const DROP_BEHIND_HEAD: &[u8] = b"/drop/1";

const DROP_BEHIND_CHUNK: &[u8] = b"/drop/2";

const SIZE: &[u8] = b"/size/";

const STATUS: &[u8] = b"/status/";

/// The greatest body that is made, in bytes.
const MAX_SIZE: u64 = 1_048_576;

/// What answers a request.
#[derive(Clone, Copy)]
pub enum Application {
    /// None is asked: the request's secret isn't the container's.
    Forbidden,
    /// The container's route.
    Who,
    /// The request's own body.
    Echo,
    /// This many bytes.
    Size(u32),
    /// No body, with this status.
    Status(u16),
    /// Whether the client has a session.
    Session,
    /// The link is closed, and nothing is sent.
    DropAtOnce,
    /// The link is closed after the head.
    DropBehindHead,
    /// The link is closed after the first bytes of the body.
    DropBehindChunk,
    /// No application has the path.
    Unknown,
}

/// The application of a path.
pub fn application_at(path: &[u8]) -> Application
    ensures { result ≡ application_at path.now }
{
    if path == WHO {
        return Application::Who;
    }
    if path == ECHO {
        return Application::Echo;
    }
    if path == SESSION {
        return Application::Session;
    }
    if path == DROP_AT_ONCE {
        return Application::DropAtOnce;
    }
    if path == DROP_BEHIND_HEAD {
        return Application::DropBehindHead;
    }
    if path == DROP_BEHIND_CHUNK {
        return Application::DropBehindChunk;
    }
    numbered(path)
}

/// The application of a path that has a number.
fn numbered(path: &[u8]) -> Application
    ensures { result ≡ numbered_at path.now }
{
    if let Some(bytes) = number_behind(path, SIZE)
        && bytes <= MAX_SIZE
    {
        return Application::Size(bytes as u32);
    }
    if let Some(status) = number_behind(path, STATUS)
        && 200 <= status
        && status <= 599
    {
        return Application::Status(status as u16);
    }
    Application::Unknown
}

/// The number that a path has after this front.
fn number_behind(path: &[u8], front: &[u8]) -> Option<u64>
    ensures { result ≡ number_behind_of front.now path.now }
{
    if !path.starts_with(front) {
        return None;
    }
    parse_decimal(&path[front.len()..])
}

/// Whether the request's whole body is the answer, and so asked for.
pub fn is_echo(application: Application) -> bool
    ensures { result ≡ echoes application }
{
    matches!(application, Application::Echo)
}

/// Whether the link is closed within the answer.
pub fn is_drop(application: Application) -> bool
    ensures { result ≡ drops application }
{
    matches!(
        application,
        Application::DropAtOnce | Application::DropBehindHead | Application::DropBehindChunk
    )
}
