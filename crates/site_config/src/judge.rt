//! The judgement on one property, whatever stands in the other lines.
ghost use Rattle.std.specs.Prelude.{◌≡◌, []};
ghost use Rattle.std.specs.List.{list_all};
ghost use Rattle.std.specs.Option.{option_map};
ghost use Rattle.site_config.specs.Directives.{behind_worker};
ghost use Rattle.site_config.specs.Names.{is_name, words, word_first};
ghost use Rattle.site_config.specs.Properties.{are_names, name_fault, period_fault, value_fault, reference_fault, directive_fault, fault_of};

use crate::cut::cut_at_separator;
use crate::directive::{Directive, behind_worker};
use crate::names::is_name;
use crate::property::Fault;
use crate::property_line::PropertyLine;
use crate::subject::Subject;
use crate::value::Value;

/// Whether a word is a name, or is empty.
fn is_word_a_name(word: &[u8]) -> bool
    ensures { result ≡ list_all is_name (word_first word.now []) }
{
    word.is_empty() || is_name(word)
}

/// Whether each word of a list is a name.
fn are_names(text: &[u8]) -> bool
    ensures { result ≡ are_names text.now }
{
    let mut rest = text;
    loop {
        match cut_at_separator(rest) {
            Some((word, behind)) => {
                if !is_word_a_name(word) {
                    return false;
                }
                rest = behind;
            }
            None => return is_word_a_name(rest),
        }
    }
}

fn name_fault(good: bool) -> Option<Fault>
    ensures { result ≡ name_fault good }
{
    if good { None } else { Some(Fault::Name) }
}

fn period_fault(good: bool) -> Option<Fault>
    ensures { result ≡ period_fault good }
{
    if good { None } else { Some(Fault::Period) }
}

fn value_fault(directive: Directive, good: bool) -> Option<Fault>
    ensures { result ≡ value_fault directive good }
{
    if good {
        None
    } else {
        Some(Fault::Value(directive))
    }
}

fn reference_fault(value: &[u8]) -> Option<Fault>
    ensures { result ≡ reference_fault (behind_worker value.now) }
{
    match behind_worker(value) {
        None => Some(Fault::Value(Directive::Reference)),
        Some(name) => name_fault(is_name(name)),
    }
}

fn directive_fault(
    directive: Option<Directive>,
    meaning: Option<Value>,
    value: &[u8],
) -> Option<Fault>
    ensures { result ≡ directive_fault directive meaning value.now }
{
    match directive {
        None => None,
        Some(Directive::Reference) => reference_fault(value),
        Some(Directive::BalanceWorkers) => name_fault(are_names(value)),
        Some(directive) => value_fault(directive, meaning.is_some()),
    }
}

/// What is wrong with a line by itself: a bad name goes before a bad value.
#[tactic(auto, using(crate::proofs::SubjectLemmas::list_fault, crate::proofs::SubjectLemmas::maintain_fault, crate::proofs::SubjectLemmas::worker_fault, crate::proofs::SubjectLemmas::no_fault))]
pub(crate) fn fault_of(entry: &PropertyLine<'_>) -> Option<Fault>
    ensures { result ≡ fault_of entry.now.key.now entry.now.value.now }
{
    match entry.subject {
        Subject::List => name_fault(are_names(entry.value)),
        Subject::Maintain => period_fault(entry.meaning.is_some()),
        Subject::Worker { name, directive } => {
            if is_name(name) {
                directive_fault(directive, entry.meaning, entry.value)
            } else {
                Some(Fault::Name)
            }
        }
        Subject::Other => None,
    }
}
