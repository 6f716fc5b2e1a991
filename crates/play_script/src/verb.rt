//! The words that a line may begin with.
ghost use Rattle.std.specs.Prelude.{◌≡◌};
ghost use Rattle.play_script.specs.Verbs.{verb_of};

use crate::parts::is;

/// The word that a line begins with.
#[derive(Clone, Copy)]
pub(crate) enum Verb {
    Lb,
    Member,
    At,
    Select,
    Done,
    Failed,
    Gone,
    Maintain,
    Update,
    Reset,
    Recover,
    Show,
}

/// The verb that a word spells.
pub(crate) fn verb_of(word: &[u8]) -> Option<Verb>
    ensures { result ≡ verb_of word.now }
{
    if is(word, b"lb") {
        Some(Verb::Lb)
    } else if is(word, b"member") {
        Some(Verb::Member)
    } else if is(word, b"at") {
        Some(Verb::At)
    } else if is(word, b"select") {
        Some(Verb::Select)
    } else if is(word, b"done") {
        Some(Verb::Done)
    } else if is(word, b"failed") {
        Some(Verb::Failed)
    } else if is(word, b"gone") {
        Some(Verb::Gone)
    } else if is(word, b"maintain") {
        Some(Verb::Maintain)
    } else if is(word, b"update") {
        Some(Verb::Update)
    } else if is(word, b"reset") {
        Some(Verb::Reset)
    } else if is(word, b"recover") {
        Some(Verb::Recover)
    } else if is(word, b"show") {
        Some(Verb::Show)
    } else {
        None
    }
}
