//! Lines of a script after its balancer started.
ghost use Rattle.std.specs.Prelude.{◌≡◌, ℕ, List, false, true, None, Some, IfSome, option_map};
ghost use Rattle.play_script.specs.Values.{end};
ghost use Rattle.play_script.specs.Steps.{ask_of, old_ask, select_of, bytes_in, return_of, change_after, change_of, update_of, member_named, step_by, step_of, IsSmall};

use crate::fields::{activation_in, number_in, redirect_in};
use crate::names::{NameList, index_of};
use crate::parts::{Parts, is};
use crate::values::byte_count;
use crate::verb::{Verb, verb_of};
use jk_io::parse_decimal;
use lb_model::{Activation, Ask, Call, Change, Command, Kind, Outcome};

/// What a line after the balancer's own says.
#[derive(Clone, Copy, Debug)]
pub enum Step {
    /// The moment of what follows.
    At(u64),
    /// A call of the Book.
    Ask(Call),
    /// A line for each member.
    Show,
}

fn ask_of(fresh: bool, routed: Option<u32>) -> Ask
    ensures { result ≡ ask_of fresh routed }
{
    Ask {
        routed,
        fresh,
        tried: 0,
        disabled: 0,
        stopped: 0,
    }
}

fn old_ask(names: &NameList, word: &[u8]) -> Option<Ask>
    ensures { result ≡ old_ask names.now word.now }
{
    if is(word, b"old") {
        return Some(ask_of(false, None));
    }
    let name = word.strip_prefix(b"route=".as_slice())?;
    let member = index_of(names, name)?;
    Some(ask_of(false, Some(member)))
}

fn select_of(names: &NameList, words: &mut Parts) -> Option<Ask>
    ensures { result ≡ select_of names.now words.old }
{
    let Some(word) = words.next() else {
        return Some(ask_of(true, None));
    };
    words.end()?;
    old_ask(names, word)
}

fn bytes_in(words: &mut Parts) -> Option<u64>
    ensures { result ≡ bytes_in words.old }
{
    let Some(word) = words.next() else {
        return Some(0);
    };
    words.end()?;
    byte_count(word)
}

fn return_of(kind: Kind, words: &mut Parts) -> Option<Call>
    ensures { result ≡ return_of kind words.old }
{
    let ticket = parse_decimal(words.next()?)?;
    let bytes = bytes_in(words)?;
    Some(Call::Return {
        ticket,
        outcome: Outcome { kind, bytes },
    })
}

#[tactic(auto, unfolding(crate::specs::Steps::change_after))]
fn change_after(
    names: &NameList,
    activation: Option<Activation>,
    factor: Option<u32>,
    words: &mut Parts,
) -> Option<Change>
    ensures { result ≡ change_after names.now activation factor words.old }
{
    let distance = number_in(words, b"distance=")?;
    let redirect = redirect_in(names, words)?;
    words.end()?;
    Some(Change {
        activation,
        factor,
        distance,
        redirect,
    })
}

fn change_of(names: &NameList, words: &mut Parts) -> Option<Change>
    ensures { result ≡ change_of names.now words.old }
{
    let activation = activation_in(words)?;
    let factor = number_in(words, b"factor=")?;
    change_after(names, activation, factor, words)
}

fn update_of(names: &NameList, words: &mut Parts) -> Option<Command>
    ensures { result ≡ update_of names.now words.old }
{
    let member = index_of(names, words.next()?)?;
    let change = change_of(names, words)?;
    Some(Command::Update { member, change })
}

fn member_named(names: &NameList, words: &mut Parts) -> Option<u32>
    ensures { result ≡ member_named names.now words.old }
{
    index_of(names, words.only()?)
}

fn moment_of(words: &mut Parts) -> Option<Step>
    ensures { (names : List (List ℕ)) → result ≡ step_by names Verb.At words.old }
{
    Some(Step::At(parse_decimal(words.only()?)?))
}

fn selected(names: &NameList, words: &mut Parts) -> Option<Step>
    ensures { result ≡ step_by names.now Verb.Select words.old }
{
    Some(Step::Ask(Call::Select(select_of(names, words)?)))
}

fn returned(kind: Kind, words: &mut Parts) -> Option<Step>
    ensures { result ≡ option_map Step.Ask (return_of kind words.old) }
{
    Some(Step::Ask(return_of(kind, words)?))
}

fn maintained(words: &mut Parts) -> Option<Step>
    ensures { result ≡ option_map (λ _. Step.Ask Call.Maintain) (end words.old) }
{
    words.end()?;
    Some(Step::Ask(Call::Maintain))
}

fn updated(names: &NameList, words: &mut Parts) -> Option<Step>
    ensures { result ≡ step_by names.now Verb.Update words.old }
{
    Some(Step::Ask(Call::Admin(update_of(names, words)?)))
}

fn reset(names: &NameList, words: &mut Parts) -> Option<Step>
    ensures { result ≡ step_by names.now Verb.Reset words.old }
{
    let member = member_named(names, words)?;
    Some(Step::Ask(Call::Admin(Command::Reset { member })))
}

fn recovered(names: &NameList, words: &mut Parts) -> Option<Step>
    ensures { result ≡ step_by names.now Verb.Recover words.old }
{
    let member = member_named(names, words)?;
    Some(Step::Ask(Call::Admin(Command::Recover { member })))
}

fn shown(words: &mut Parts) -> Option<Step>
    ensures { result ≡ option_map (λ _. Step.Show) (end words.old) }
{
    words.end()?;
    Some(Step::Show)
}

fn step_by(names: &NameList, verb: Verb, words: &mut Parts) -> Option<Step>
    ensures { result ≡ step_by names.now verb words.old }
{
    match verb {
        Verb::Lb | Verb::Member => None,
        Verb::At => moment_of(words),
        Verb::Select => selected(names, words),
        Verb::Done => returned(Kind::Done, words),
        Verb::Failed => returned(Kind::Failed, words),
        Verb::Gone => returned(Kind::Gone, words),
        Verb::Maintain => maintained(words),
        Verb::Update => updated(names, words),
        Verb::Reset => reset(names, words),
        Verb::Recover => recovered(names, words),
        Verb::Show => shown(words),
    }
}

/// What a line says after the balancer's own lines, where its members have these names. `None`: a bad line.
pub fn step_of(names: &NameList, line: &[u8]) -> Option<Step>
    ensures value { result ≡ step_of names.now line.now }
    ensures small { IfSome result IsSmall }
{
    let mut words = Parts::of(b' ', line);
    let verb = verb_of(words.next()?)?;
    step_by(names, verb, &mut words)
}
