//! Readings of a line's words, from the first one on.
ghost use Rattle.std.specs.Prelude.{◌≡◌, ◌-◌, ◌==◌, IfSome, if◌then◌else◌};
ghost use Rattle.journal_text.specs.Readings.{answer_by, answer_of, ask_after, ask_of, balancer_after, balancer_of, beginning_of, call_by, call_of, call_size, change_of, chosen_of, command_of, command_size, end_line, entry_after, entry_of, lease_line, member_after, member_of, past, plain_line, return_of, rules_line, update_of};

use crate::line::{BalancerValues, Beginning, Line, MemberValues};
use crate::line_reading::{
    activation_of, byte_count, end, flag_of, given_activation, given_number, how_of, is, kind_of,
    method_of, redirect_of, short_number, state_of, version_of,
};
use crate::wide::wide_number;
use jk_io::parse_decimal;
use lb_model::{Activation, Answer, Ask, Call, Change, Command, Entry, Method, Outcome};
use play_script::Parts;

#[tactic(auto, unfolding(crate::specs::Readings::ask_after))]
fn ask_after(
    rules: u8,
    routed: Option<u32>,
    fresh: bool,
    tried: u64,
    words: &mut Parts,
) -> Option<Ask>
    ensures value { result ≡ ask_after rules routed fresh tried words.old }
    ensures past { IfSome result (λ _. words.new ≡ past (if rules == 1 then 0 else 2) words.old) }
{
    let mut ask = Ask {
        routed,
        fresh,
        tried,
        disabled: 0,
        stopped: 0,
    };
    if rules != 1 {
        ask.disabled = parse_decimal(words.next()?)?;
        ask.stopped = parse_decimal(words.next()?)?;
    }
    Some(ask)
}

fn ask_of(rules: u8, words: &mut Parts) -> Option<Ask>
    ensures value { result ≡ ask_of rules words.old }
    ensures past { IfSome result (λ _. words.new ≡ past (if rules == 1 then 3 else 5) words.old) }
{
    let routed = given_number(words.next()?)?;
    let fresh = flag_of(words.next()?)?;
    let tried = parse_decimal(words.next()?)?;
    ask_after(rules, routed, fresh, tried, words)
}

fn return_of(words: &mut Parts) -> Option<Call>
    ensures value { result ≡ return_of words.old }
    ensures past { IfSome result (λ _. words.new ≡ past 3 words.old) }
{
    let ticket = parse_decimal(words.next()?)?;
    let kind = kind_of(words.next()?)?;
    let bytes = byte_count(words.next()?)?;
    Some(Call::Return {
        ticket,
        outcome: Outcome { kind, bytes },
    })
}

#[tactic(auto, unfolding(crate::specs::Readings::change_of))]
fn change_of(words: &mut Parts) -> Option<Change>
    ensures value { result ≡ change_of words.old }
    ensures past { IfSome result (λ _. words.new ≡ past 4 words.old) }
{
    let activation = given_activation(words.next()?)?;
    let factor = given_number(words.next()?)?;
    let distance = given_number(words.next()?)?;
    let redirect = redirect_of(words.next()?)?;
    Some(Change {
        activation,
        factor,
        distance,
        redirect,
    })
}

fn update_of(words: &mut Parts) -> Option<Command>
    ensures value { result ≡ update_of words.old }
    ensures past { IfSome result (λ _. words.new ≡ past 5 words.old) }
{
    let member = short_number(words.next()?)?;
    let change = change_of(words)?;
    Some(Command::Update { member, change })
}

fn command_of(verb: &[u8], words: &mut Parts) -> Option<Command>
    ensures value { result ≡ command_of verb.now words.old }
    ensures past { IfSome result (λ c. words.new ≡ past (command_size c - 1) words.old) }
{
    if is(verb, b"update") {
        update_of(words)
    } else if is(verb, b"reset") {
        let member = short_number(words.next()?)?;
        Some(Command::Reset { member })
    } else if is(verb, b"recover") {
        let member = short_number(words.next()?)?;
        Some(Command::Recover { member })
    } else {
        None
    }
}

fn call_by(rules: u8, verb: &[u8], words: &mut Parts) -> Option<Call>
    ensures value { result ≡ call_by rules verb.now words.old }
    ensures past { IfSome result (λ c. words.new ≡ past (call_size rules c - 1) words.old) }
{
    if is(verb, b"select") {
        Some(Call::Select(ask_of(rules, words)?))
    } else if is(verb, b"return") {
        return_of(words)
    } else if is(verb, b"maintain") {
        Some(Call::Maintain)
    } else {
        Some(Call::Admin(command_of(verb, words)?))
    }
}

#[tactic(auto, unfolding(crate::specs::Readings::call_of))]
fn call_of(rules: u8, words: &mut Parts) -> Option<Call>
    ensures value { result ≡ call_of rules words.old }
    ensures past { IfSome result (λ c. words.new ≡ past (call_size rules c) words.old) }
{
    let verb = words.next()?;
    call_by(rules, verb, words)
}

fn chosen_of(seq: u64, words: &mut Parts) -> Option<Answer>
    ensures value { result ≡ chosen_of seq words.old }
{
    let member = short_number(words.next()?)?;
    let how = how_of(words.next()?)?;
    let probe = flag_of(words.next()?)?;
    end(words)?;
    Some(Answer::Chosen {
        member,
        ticket: seq,
        how,
        probe,
    })
}

fn answer_by(seq: u64, verb: &[u8], words: &mut Parts) -> Option<Answer>
    ensures value { result ≡ answer_by seq verb.now words.old }
{
    if is(verb, b"chosen") {
        return chosen_of(seq, words);
    }
    end(words)?;
    if is(verb, b"none") {
        Some(Answer::NoMember)
    } else if is(verb, b"forced") {
        Some(Answer::Forced)
    } else if is(verb, b"done") {
        Some(Answer::Done)
    } else {
        None
    }
}

#[tactic(auto, unfolding(crate::specs::Readings::answer_of))]
fn answer_of(seq: u64, words: &mut Parts) -> Option<Answer>
    ensures value { result ≡ answer_of seq words.old }
{
    let verb = words.next()?;
    answer_by(seq, verb, words)
}

#[tactic(auto, unfolding(crate::specs::Readings::entry_after))]
fn entry_after(rules: u8, seq: u64, session: u32, at: u64, words: &mut Parts) -> Option<Entry>
    ensures value { result ≡ entry_after rules seq session at words.old }
{
    let call = call_of(rules, words)?;
    let answer = answer_of(seq, words)?;
    Some(Entry {
        seq,
        session,
        at,
        call,
        answer,
    })
}

fn entry_of(rules: u8, words: &mut Parts) -> Option<Entry>
    ensures value { result ≡ entry_of rules words.old }
{
    let seq = parse_decimal(words.next()?)?;
    let session = short_number(words.next()?)?;
    let at = parse_decimal(words.next()?)?;
    entry_after(rules, seq, session, at, words)
}

#[tactic(auto, unfolding(crate::specs::Readings::balancer_after))]
fn balancer_after(
    method: Method,
    sticky: bool,
    force: bool,
    words: &mut Parts,
) -> Option<BalancerValues>
    ensures value { result ≡ balancer_after method sticky force words.old }
{
    let direct = flag_of(words.next()?)?;
    let maintain = parse_decimal(words.next()?)?;
    let recover = parse_decimal(words.next()?)?;
    let members = short_number(words.next()?)?;
    end(words)?;
    Some(BalancerValues {
        method,
        sticky,
        force,
        direct,
        maintain,
        recover,
        members,
    })
}

/// The values of a balancer's line, after its name.
pub(crate) fn balancer_of(words: &mut Parts) -> Option<BalancerValues>
    ensures value { result ≡ balancer_of words.old }
{
    let method = method_of(words.next()?)?;
    let sticky = flag_of(words.next()?)?;
    let force = flag_of(words.next()?)?;
    balancer_after(method, sticky, force, words)
}

#[tactic(auto, unfolding(crate::specs::Readings::member_after))]
fn member_after(
    factor: u32,
    distance: u32,
    activation: Activation,
    words: &mut Parts,
) -> Option<MemberValues>
    ensures value { result ≡ member_after factor distance activation words.old }
{
    let redirect = given_number(words.next()?)?;
    let pool = short_number(words.next()?)?;
    let state = state_of(words.next()?)?;
    let load = wide_number(words.next()?)?;
    end(words)?;
    Some(MemberValues {
        factor,
        distance,
        activation,
        redirect,
        pool,
        state,
        load,
    })
}

/// The values of a member's line, after its name and its route.
pub(crate) fn member_of(words: &mut Parts) -> Option<MemberValues>
    ensures value { result ≡ member_of words.old }
{
    let factor = short_number(words.next()?)?;
    let distance = short_number(words.next()?)?;
    let activation = activation_of(words.next()?)?;
    member_after(factor, distance, activation, words)
}

#[tactic(auto, unfolding(crate::specs::Readings::beginning_of))]
fn beginning_of(words: &mut Parts) -> Option<Beginning>
    ensures value { result ≡ beginning_of words.old }
{
    let next = parse_decimal(words.next()?)?;
    let at = parse_decimal(words.next()?)?;
    let maintained = parse_decimal(words.next()?)?;
    let chosen = given_number(words.next()?)?;
    end(words)?;
    Some(Beginning {
        next,
        at,
        maintained,
        chosen,
    })
}

fn rules_line(words: &mut Parts) -> Option<Line>
    ensures value { result ≡ rules_line words.old }
{
    let version = version_of(words.next()?)?;
    end(words)?;
    Some(Line::Rules(version))
}

fn lease_line(words: &mut Parts) -> Option<Line>
    ensures value { result ≡ lease_line words.old }
{
    let ticket = parse_decimal(words.next()?)?;
    let member = short_number(words.next()?)?;
    end(words)?;
    Some(Line::Lease { ticket, member })
}

fn end_line(words: &mut Parts) -> Option<Line>
    ensures value { result ≡ end_line words.old }
{
    let count = parse_decimal(words.next()?)?;
    end(words)?;
    Some(Line::End(count))
}

/// The lines that hold no name.
pub(crate) fn plain_line(rules: u8, verb: &[u8], words: &mut Parts) -> Option<Line>
    ensures value { result ≡ plain_line rules verb.now words.old }
{
    if is(verb, b"e") {
        Some(Line::Entry(entry_of(rules, words)?))
    } else if is(verb, b"lease") {
        lease_line(words)
    } else if is(verb, b"from") {
        Some(Line::From(beginning_of(words)?))
    } else if is(verb, b"end") {
        end_line(words)
    } else if is(verb, b"jkj") {
        rules_line(words)
    } else {
        None
    }
}
