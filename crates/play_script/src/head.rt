//! Lines of a script before its balancer starts: `lb` and `member`.
ghost use Rattle.std.specs.Prelude.{◌≡◌, ℕ, List, ◌∷◌, Some, option_map};
ghost use Rattle.play_script.specs.Heads.{rules_of, member_after, member_with, member_of, head_by, head_of};
ghost use Rattle.play_script.specs.Values.{flag_of, method_of};
ghost use Rattle.play_script.specs.Words.{words_of_member, words_of_head};

use crate::fields::{activation_in, name_in, number_in};
use crate::names::{NameList, index_of, is_name};
use crate::parts::Parts;
use crate::values::{flag_of, method_of, short_number};
use crate::verb::{Verb, verb_of};
use jk_io::parse_decimal;
use lb_model::{Activation, Method};

/// What an `lb` line says.
#[derive(Clone, Copy)]
pub struct BalancerLine {
    pub method: Method,
    pub sticky: bool,
    pub force: bool,
    /// Seconds between two maintenances.
    pub maintain: u64,
    /// Seconds until a failed member may be tried again.
    pub recover: u64,
}

/// What a `member` line says. Its redirect is a name, since that member's line may come later.
#[derive(Clone, Copy)]
pub struct MemberLine<'a> {
    pub name: &'a [u8],
    pub factor: u32,
    pub activation: Activation,
    pub distance: u32,
    pub redirect: Option<&'a [u8]>,
    pub pool: u32,
}

/// What a line before the balancer's start says.
#[derive(Clone, Copy)]
pub enum ScriptHead<'a> {
    /// The moment of what follows.
    At(u64),
    Rule(BalancerLine),
    Member(MemberLine<'a>),
}

/// The pool size of a member that names none.
const POOL: u32 = 64;

fn rules_of(words: &mut Parts) -> Option<BalancerLine>
    ensures { result ≡ rules_of words.old }
{
    let method = method_of(words.next()?)?;
    let sticky = flag_of(words.next()?)?;
    let force = flag_of(words.next()?)?;
    rules_with(method, sticky, force, words)
}

// The rules of an `lb` line whose first words were these.
fn rules_with(method: Method, sticky: bool, force: bool, words: &mut Parts) -> Option<BalancerLine>
    ensures { (m s f : List ℕ) → method_of m ≡ Some method → flag_of s ≡ Some sticky → flag_of f ≡ Some force
        → result ≡ rules_of (m ∷ s ∷ f ∷ words.old) }
{
    let maintain = parse_decimal(words.next()?)?;
    let recover = parse_decimal(words.only()?)?;
    Some(BalancerLine {
        method,
        sticky,
        force,
        maintain,
        recover,
    })
}

fn member_after<'a>(
    name: &'a [u8],
    factor: u32,
    activation: Option<Activation>,
    distance: Option<u32>,
    words: &mut Parts<'a>,
) -> Option<MemberLine<'a>>
    ensures { option_map words_of_member result ≡ member_after name.now factor activation distance words.old }
{
    let redirect = name_in(words)?;
    let pool = number_in(words, b"pool=")?;
    words.end()?;
    Some(MemberLine {
        name,
        factor,
        activation: activation.unwrap_or(Activation::Active),
        distance: distance.unwrap_or(0),
        redirect,
        pool: pool.unwrap_or(POOL),
    })
}

fn member_with<'a>(name: &'a [u8], factor: u32, words: &mut Parts<'a>) -> Option<MemberLine<'a>>
    ensures { option_map words_of_member result ≡ member_with name.now factor words.old }
{
    let activation = activation_in(words)?;
    let distance = number_in(words, b"distance=")?;
    member_after(name, factor, activation, distance, words)
}

fn member_of<'a>(names: &NameList, words: &mut Parts<'a>) -> Option<MemberLine<'a>>
    ensures { option_map words_of_member result ≡ member_of names.now words.old }
{
    let name = words.next()?;
    let factor = words.next()?;
    if index_of(names, name).is_some() || !is_name(name) {
        return None;
    }
    member_with(name, short_number(factor)?, words)
}

fn head_by<'a>(names: &NameList, verb: Verb, words: &mut Parts<'a>) -> Option<ScriptHead<'a>>
    ensures { option_map words_of_head result ≡ head_by names.now verb words.old }
{
    match verb {
        Verb::At => Some(ScriptHead::At(parse_decimal(words.only()?)?)),
        Verb::Lb => Some(ScriptHead::Rule(rules_of(words)?)),
        Verb::Member => Some(ScriptHead::Member(member_of(names, words)?)),
        _ => None,
    }
}

/// What a line before the balancer's start says, where the members so far have these names. `None`: another line.
pub fn head_of<'a>(names: &NameList, line: &'a [u8]) -> Option<ScriptHead<'a>>
    ensures { option_map words_of_head result ≡ head_of names.now line.now }
{
    let mut words = Parts::of(b' ', line);
    let verb = verb_of(words.next()?)?;
    head_by(names, verb, &mut words)
}
