//! The lines of a script up to its balancer's start.
ghost use Rattle.std.specs.Prelude.{◌≡◌, ◌+◌, ◌<◌, ◌≤◌, ◌^◌, length, false, IfOk, IfSome};
ghost use Rattle.std.specs.Option.{option_copied};
ghost use Rattle.play_script.specs.Drafts.{draft_after, moment_after, names_in};
ghost use Rattle.play_script.specs.Play.{is_skipped, LeadsTo};
ghost use Rattle.play_script.specs.Words.{words_of_head};

use crate::draft::Draft;
use crate::head::{ScriptHead, head_of};
use crate::parts::Parts;
use jk_io::NoMemory;
use std::alloc::Global;

/// A script up to the line at which its balancer starts.
#[derive(Drop)]
pub struct BegunScript<'a> {
    pub draft: Draft<'a>,
    /// The moment, in seconds.
    pub at: u64,
    /// How many lines were read: the number of the last one.
    pub number: u64,
    /// The line at which the balancer starts; none where the script ends before.
    pub line: Option<&'a [u8]>,
}

/// Whether the line is blank or a comment.
pub fn is_skipped(line: &[u8]) -> bool
    ensures { result ≡ is_skipped line.now }
{
    match line {
        [] => true,
        [first, ..] => *first == b'#',
    }
}

fn take_head<'a>(draft: &mut Draft<'a>, head: ScriptHead<'a>, at: u64) -> Result<u64, NoMemory>
    ensures moment { IfOk result (λ moment. moment ≡ moment_after (words_of_head head.entry) at) }
    ensures draft { IfOk result (λ _. draft.new ≡ draft_after (words_of_head head.entry) draft.old) }
{
    match head {
        ScriptHead::At(moment) => Ok(moment),
        ScriptHead::Rule(rules) => {
            draft.set_rules(rules);
            Ok(at)
        }
        ScriptHead::Member(member) => {
            draft.add(member)?;
            Ok(at)
        }
    }
}

/// Reads a script's lines up to the one at which its balancer starts.
pub fn begin<'a>(alloc: Global, lines: &mut Parts<'a>) -> Result<BegunScript<'a>, NoMemory>
    requires { length lines.old < 2 ^ 32 }
    ensures leads { IfOk result (λ b. LeadsTo lines.old b.draft (option_copied b.line) lines.new b.number b.at) }
    ensures said { IfOk result (λ b. IfSome b.line (λ line. is_skipped line.now ≡ false)) }
    ensures count { IfOk result (λ b. b.number + length lines.new ≡ length lines.old) }
    ensures few { IfOk result (λ b. length (names_in b.draft) ≤ b.number) }
{
    let mut draft = Draft::new(alloc);
    let mut at = 0u64;
    let mut number = 0u64;
    while let Some(line) = lines.next() {
        number += 1;
        if is_skipped(line) {
            continue;
        }
        let Some(head) = head_of(draft.names(), line) else {
            return Ok(BegunScript {
                draft,
                at,
                number,
                line: Some(line),
            });
        };
        at = take_head(&mut draft, head, at)?;
    }
    Ok(BegunScript {
        draft,
        at,
        number,
        line: None,
    })
}
