//! The lines of a segment, each added to a text.
ghost use Rattle.std.specs.Prelude.{◌≡◌, ◌∷◌, [], ◌++◌, OnOk, codes, decimal};
ghost use Rattle.journal_text.specs.Calls.{answer_words, ask_words, call_words, change_words, command_words, return_words, term_words};
ghost use Rattle.journal_text.specs.Names.{name_word};
ghost use Rattle.journal_text.specs.Lines.{balancer_words, beginning_words, entry_words, joined, line_text, member_words, spaced, standing_words};

use crate::line::{BalancerValues, Beginning, Line, MemberValues};
use crate::names::put_name;
use crate::words::{
    activation_change, activation_letter, flag, how_word, kind_word, method_letter, put_long,
    put_number, put_optional, put_redirect, put_short, put_state, put_word,
};
use jk_io::{Bytes, NoMemory};
use lb_model::{Answer, Ask, Call, Change, Command, Entry, Outcome};

fn put_terms(out: &mut Bytes, rules: u8, ask: &Ask) -> Result<(), NoMemory>
    ensures { OnOk result (out.new ≡ out.old ++ spaced (term_words rules ask.now)) }
{
    if rules == 1 {
        return Ok(());
    }
    put_long(out, ask.disabled)?;
    put_long(out, ask.stopped)
}

fn put_ask(out: &mut Bytes, rules: u8, ask: &Ask) -> Result<(), NoMemory>
    ensures { OnOk result (out.new ≡ out.old ++ spaced (ask_words rules ask.now)) }
{
    put_optional(out, ask.routed)?;
    put_word(out, flag(ask.fresh))?;
    put_long(out, ask.tried)?;
    put_terms(out, rules, ask)
}

fn put_return(out: &mut Bytes, ticket: u64, outcome: Outcome) -> Result<(), NoMemory>
    ensures { OnOk result (out.new ≡ out.old ++ spaced (return_words ticket outcome)) }
{
    put_long(out, ticket)?;
    put_word(out, kind_word(outcome.kind))?;
    put_long(out, outcome.bytes)
}

fn put_change(out: &mut Bytes, change: &Change) -> Result<(), NoMemory>
    ensures { OnOk result (out.new ≡ out.old ++ spaced (change_words change.now)) }
{
    put_word(out, activation_change(change.activation))?;
    put_optional(out, change.factor)?;
    put_optional(out, change.distance)?;
    put_redirect(out, change.redirect)
}

fn put_command(out: &mut Bytes, command: &Command) -> Result<(), NoMemory>
    ensures { OnOk result (out.new ≡ out.old ++ spaced (command_words command.now)) }
{
    match command {
        Command::Update { member, change } => {
            put_word(out, b"update")?;
            put_short(out, *member)?;
            put_change(out, change)
        }
        Command::Reset { member } => {
            put_word(out, b"reset")?;
            put_short(out, *member)
        }
        Command::Recover { member } => {
            put_word(out, b"recover")?;
            put_short(out, *member)
        }
    }
}

fn put_call(out: &mut Bytes, rules: u8, call: &Call) -> Result<(), NoMemory>
    ensures { OnOk result (out.new ≡ out.old ++ spaced (call_words rules call.now)) }
{
    match call {
        Call::Select(ask) => {
            put_word(out, b"select")?;
            put_ask(out, rules, ask)
        }
        Call::Return { ticket, outcome } => {
            put_word(out, b"return")?;
            put_return(out, *ticket, *outcome)
        }
        Call::Maintain => put_word(out, b"maintain"),
        Call::Admin(command) => put_command(out, command),
    }
}

/// Adds the words of an answer, each after a space.
pub fn put_answer(out: &mut Bytes, answer: &Answer) -> Result<(), NoMemory>
    ensures { OnOk result (out.new ≡ out.old ++ spaced (answer_words answer.now)) }
{
    match answer {
        Answer::Chosen {
            member,
            how,
            probe,
            ..
        } => {
            put_word(out, b"chosen")?;
            put_short(out, *member)?;
            put_word(out, how_word(*how))?;
            put_word(out, flag(*probe))
        }
        Answer::NoMember => put_word(out, b"none"),
        Answer::Forced => put_word(out, b"forced"),
        Answer::Done => put_word(out, b"done"),
    }
}

fn put_entry_words(out: &mut Bytes, rules: u8, entry: &Entry) -> Result<(), NoMemory>
    ensures { OnOk result (out.new ≡ out.old ++ spaced (entry_words rules entry.now)) }
{
    put_long(out, entry.seq)?;
    put_short(out, entry.session)?;
    put_long(out, entry.at)?;
    put_call(out, rules, &entry.call)?;
    put_answer(out, &entry.answer)
}

/// Adds the line of an entry, in a segment of these rules. No LF is added here or below.
pub fn put_entry(out: &mut Bytes, rules: u8, entry: &Entry) -> Result<(), NoMemory>
    ensures { OnOk result (out.new ≡ out.old ++ line_text rules (Line.Entry entry.now)) }
{
    out.extend(b"e")?;
    put_entry_words(out, rules, entry)
}

fn put_balancer_words(out: &mut Bytes, values: &BalancerValues) -> Result<(), NoMemory>
    ensures { OnOk result (out.new ≡ out.old ++ spaced (balancer_words values.now)) }
{
    put_word(out, method_letter(values.method))?;
    put_word(out, flag(values.sticky))?;
    put_word(out, flag(values.force))?;
    put_word(out, flag(values.direct))?;
    put_long(out, values.maintain)?;
    put_long(out, values.recover)?;
    put_short(out, values.members)
}

/// Adds the line of a balancer.
pub fn put_balancer(out: &mut Bytes, name: &[u8], values: &BalancerValues) -> Result<(), NoMemory>
    ensures { OnOk result (out.new ≡ out.old ++ joined (codes "lb" ∷ name_word name.now ∷ balancer_words values.now)) }
{
    out.extend(b"lb")?;
    put_name(out, name)?;
    put_balancer_words(out, values)
}

fn put_standing(out: &mut Bytes, values: &MemberValues) -> Result<(), NoMemory>
    ensures { OnOk result (out.new ≡ out.old ++ spaced (standing_words values.now)) }
{
    put_optional(out, values.redirect)?;
    put_short(out, values.pool)?;
    put_state(out, values.state)?;
    put_number(out, values.load)
}

fn put_member_words(out: &mut Bytes, values: &MemberValues) -> Result<(), NoMemory>
    ensures { OnOk result (out.new ≡ out.old ++ spaced (member_words values.now)) }
{
    put_short(out, values.factor)?;
    put_short(out, values.distance)?;
    put_word(out, activation_letter(values.activation))?;
    put_standing(out, values)
}

/// Adds the line of a member.
pub fn put_member(
    out: &mut Bytes,
    name: &[u8],
    route: &[u8],
    values: &MemberValues,
) -> Result<(), NoMemory>
    ensures { OnOk result (out.new ≡ out.old
        ++ joined (codes "member" ∷ name_word name.now ∷ name_word route.now ∷ member_words values.now)) }
{
    out.extend(b"member")?;
    put_name(out, name)?;
    put_name(out, route)?;
    put_member_words(out, values)
}

/// Adds the line of a ticket that is out.
pub fn put_lease(out: &mut Bytes, ticket: u64, member: u32) -> Result<(), NoMemory>
    ensures { OnOk result (out.new ≡ out.old ++ joined (codes "lease" ∷ decimal ticket ∷ decimal member ∷ [])) }
{
    out.extend(b"lease")?;
    put_long(out, ticket)?;
    put_short(out, member)
}

/// Adds the line that says where a segment begins.
pub fn put_beginning(out: &mut Bytes, beginning: &Beginning) -> Result<(), NoMemory>
    ensures { OnOk result (out.new ≡ out.old ++ joined (codes "from" ∷ beginning_words beginning.now)) }
{
    out.extend(b"from")?;
    put_long(out, beginning.next)?;
    put_long(out, beginning.at)?;
    put_long(out, beginning.maintained)?;
    put_optional(out, beginning.chosen)
}

/// Adds the line that ends a segment.
pub fn put_end(out: &mut Bytes, count: u64) -> Result<(), NoMemory>
    ensures { OnOk result (out.new ≡ out.old ++ joined (codes "end" ∷ decimal count ∷ [])) }
{
    out.extend(b"end")?;
    put_long(out, count)
}

/// Adds the line that begins a segment.
pub fn put_rules(out: &mut Bytes, rules: u8) -> Result<(), NoMemory>
    ensures { OnOk result (out.new ≡ out.old ++ joined (codes "jkj" ∷ decimal rules ∷ [])) }
{
    out.extend(b"jkj")?;
    put_number(out, u128::from(rules))
}

/// Adds a line, in a segment of these rules.
pub fn put_line(out: &mut Bytes, rules: u8, line: &Line) -> Result<(), NoMemory>
    ensures { OnOk result (out.new ≡ out.old ++ line_text rules line.now) }
{
    match line {
        Line::Rules(version) => put_rules(out, *version),
        Line::Balancer { name, values } => put_balancer(out, name.as_slice(), values),
        Line::Member {
            name,
            route,
            values,
        } => put_member(out, name.as_slice(), route.as_slice(), values),
        Line::Lease { ticket, member } => put_lease(out, *ticket, *member),
        Line::From(beginning) => put_beginning(out, beginning),
        Line::Entry(entry) => put_entry(out, rules, entry),
        Line::End(count) => put_end(out, *count),
    }
}
