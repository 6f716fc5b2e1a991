//! The summary of a drill.
ghost use Rattle.std.specs.Prelude.{◌≡◌, ◌++◌, IfOk, OnOk};
ghost use Rattle.lb_model.specs.Journal.{chose as chose_of};
ghost use Rattle.drill.specs.Requests.{bodies_of};
ghost use Rattle.drill.specs.Summaries.{choices_of, compared_line, summary_line, summary_text};

use crate::plan::Plan;
use crate::requests::{following, size_of};
use jk_io::{Bytes, NoMemory, put_decimal};
use lb_model::{Answer, Entry};
use std::alloc::Global;

/// Whether an entry chose a member.
fn chose(member: u32, answer: Answer) -> bool
    ensures { result ≡ chose_of member answer }
{
    match answer {
        Answer::Chosen { member: chosen, .. } => chosen == member,
        Answer::NoMember | Answer::Forced | Answer::Done => false,
    }
}

/// How many entries chose a member.
fn choices_of(member: u32, entries: &[Entry]) -> usize
    ensures { result ≡ choices_of member entries.now }
{
    entries
        .iter()
        .filter(|entry| chose(member, entry.answer))
        .count()
}

/// The sizes of all requests together.
pub(crate) fn bodies_of(plan: Plan) -> u64
    ensures { result ≡ bodies_of plan.seed plan.requests }
{
    let mut sum = 0;
    let mut number = plan.seed;
    for _ in 0..plan.requests {
        number = following(number);
        sum += size_of(number);
    }
    sum
}

fn put_line(out: &mut Bytes, word: &[u8], number: u64) -> Result<(), NoMemory>
    ensures { OnOk result (out.new ≡ out.old ++ summary_line word.now number) }
{
    out.extend(word)?;
    out.push(b' ')?;
    put_decimal(out, u128::from(number))?;
    out.push(b'\n')
}

/// Adds the line on the receipts; over passes, the line on their number.
fn put_compared(out: &mut Bytes, threads: u32, passes: bool) -> Result<(), NoMemory>
    ensures { OnOk result (out.new ≡ out.old ++ compared_line threads passes) }
{
    if passes {
        put_line(out, b"passes", u64::from(threads))
    } else {
        out.extend(b"receipts equal\n")
    }
}

fn put_summary(out: &mut Bytes, plan: Plan, passes: bool, entries: &[Entry]) -> Result<(), NoMemory>
    ensures { OnOk result (out.new ≡ out.old ++ summary_text plan.seed plan.threads plan.requests passes entries.now) }
{
    put_line(out, b"requests", u64::from(plan.requests))?;
    put_line(out, b"a", choices_of(0, entries) as u64)?;
    put_line(out, b"b", choices_of(1, entries) as u64)?;
    put_line(out, b"body", bodies_of(plan))?;
    put_line(out, b"entries", entries.len() as u64)?;
    put_compared(out, plan.threads, passes)?;
    put_line(out, b"journal good", entries.len() as u64)
}

/// The summary of a drill with this journal.
pub(crate) fn summary(
    alloc: Global,
    plan: Plan,
    passes: bool,
    entries: &[Entry],
) -> Result<Bytes, NoMemory>
    ensures { IfOk result (λ text. text ≡ summary_text plan.seed plan.threads plan.requests passes entries.now) }
{
    let mut out = Bytes::new(alloc);
    put_summary(&mut out, plan, passes, entries)?;
    Ok(out)
}
