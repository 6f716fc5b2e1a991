//! The commands by their names.
ghost use Rattle.std.specs.Prelude.{◌≡◌};
ghost use Rattle.status_worker.specs.Meaning.{verb_named, verb_of};

use jk_io::Bytes;

/// What a query asks for.
#[derive(Clone, Copy)]
pub(crate) enum Verb {
    List,
    Update,
    Reset,
    Recover,
}

fn verb_named(text: &[u8]) -> Option<Verb>
    ensures { result ≡ verb_named text.now }
{
    if text == b"list".as_slice() {
        Some(Verb::List)
    } else if text == b"update".as_slice() {
        Some(Verb::Update)
    } else if text == b"reset".as_slice() {
        Some(Verb::Reset)
    } else if text == b"recover".as_slice() {
        Some(Verb::Recover)
    } else {
        None
    }
}

/// The command that is named; the page, where none is.
pub(crate) fn verb_of(command: &Option<Bytes>) -> Option<Verb>
    ensures { result ≡ verb_of command.now }
{
    match command {
        None => Some(Verb::List),
        Some(text) => verb_named(text.as_slice()),
    }
}
