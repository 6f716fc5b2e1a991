//! The balancer as its journal leaves it, and what an entry makes of it.

ghost use Rattle.std.specs.Prelude.{◌≡◌, ℕ, ◌+◌, ◌<◌, ◌≤◌, List, length, false, slice_index_or, vec_len, IfSome, None};
ghost use Rattle.lb_model.specs.Journal.{chosen_in, newest_chosen};
ghost use Rattle.lb_book.specs.Revived.{AreOthersRevived, AreSelected, tickets_after};
ghost use Rattle.lb_rules.specs.Picks.{HasRoomFor};
ghost use Rattle.lb_book.specs.Steps.{returned_row};
ghost use Rattle.lb_rules.specs.declared.standing.Standing.{Standing};
ghost use Rattle.lb_model.specs.declared.config.TheConstants.{MAX_MEMBERS};

use crate::steps::{chosen_row, returned_row, revived_row};
use lb_model::{Answer, Ask, LbConfig, Opening, Outcome};
use lb_rules::{Among, Rules, SelectAnswer, Standing, passes, pick};

/// The balancer as its journal leaves it.
#[derive(Drop)]
pub(crate) struct Present {
    /// One for each member.
    pub(crate) rows: Vec<Standing>,
    /// How many tickets are out.
    pub(crate) out: u64,
    /// The moment of the last entry.
    pub(crate) at: u64,
    /// The moment of the last maintenance.
    pub(crate) maintained: u64,
    /// The member that was chosen last.
    pub(crate) chosen: Option<u32>,
}

// Turns the rows that may be revived for the ask from Error to Recover, but not that of `except`.
fn revive_others(rows: &mut Vec<Standing>, ask: &Ask, except: usize, direct: bool)
    requires { length rows.old.items ≤ MAX_MEMBERS }
    ensures { AreOthersRevived ask.now except (length rows.old.items) rows.old.items rows.new.items }
{
    for i in 0..rows.len() {
        if i != except && passes(Among::Revivable, &rows[i], ask, i) {
            rows[i] = revived_row(&rows[i], direct);
        }
    }
}

impl Present {
    ghost use Rattle.lb_model.specs.Journal.{members, next_of};
    ghost use Rattle.lb_model.specs.Choice.{IsPick};
    ghost use Rattle.lb_model.specs.declared.journal.Entry.{Entry};
    ghost use Rattle.lb_rules.specs.RuleNumbers.{rules_number};
    ghost use Rattle.lb_rules.specs.Picks.{revives_at};
    ghost use Rattle.lb_book.specs.Kept.{IsNow};
    ghost use Rattle.lb_book.specs.declared.steps.TheConstants.{LOAD_LIMIT};
    ghost use Rattle.lb_model.specs.declared.config.TheConstants.{MAX_MEMBERS};
    ghost use Rattle.lb_model.specs.declared.journal.TheConstants.{MOST_BYTES};
    ghost use Rattle.lb_model.specs.declared.validity.TheConstants.{MOST_NUMBERS};

    /// The answer to `ask` under the number `next`: by the rows, and so by every history that leaves them.
    pub(crate) fn pick(&self, opening: &Opening, rules: Rules, ask: &Ask, next: u64) -> SelectAnswer
        requires whole { length self.now.rows.items ≡ members opening.now }
        requires targets { (m : ℕ) (d : Standing) → m < length self.now.rows.items → IfSome (slice_index_or self.now.rows.items m d).redirect (λ r. r < length self.now.rows.items) }
        ensures pick { (p : List Entry) → IsNow (rules_number rules) opening.now p self.now → next ≡ next_of opening.now p
            → IsPick (rules_number rules) opening.now p ask.now result.answer }
        ensures revives { (d : Standing) → result.revives
            ≡ revives_at (rules_number rules) self.now.rows.items d ask.now result.answer }
        ensures room { HasRoomFor self.now.rows.items result.answer }
    {
        let rows = self.rows.as_slice();
        pick(rules, &opening.config, rows, self.chosen, ask, next)
    }

    /// After a Select with this number, moment and answer, which revives or doesn't.
    pub(crate) fn select(
        &mut self,
        config: &LbConfig,
        ask: &Ask,
        seq: u64,
        at: u64,
        choice: SelectAnswer,
    )
        requires few { length self.old.rows.items ≤ MAX_MEMBERS }
        requires room { HasRoomFor self.old.rows.items choice.answer }
        requires light { (m : ℕ) (d : Standing) → m < length self.old.rows.items → (slice_index_or self.old.rows.items m d).load < LOAD_LIMIT }
        requires tickets { self.old.out ≤ MOST_NUMBERS }
        requires revival { chosen_in choice.answer ≡ None → choice.revives ≡ false }
        ensures whole { length self.new.rows.items ≡ length self.old.rows.items }
        ensures rows { AreSelected config.now.method seq ask.now choice self.old.rows.items self.new.rows.items }
        ensures tickets { self.new.out ≡ tickets_after choice.answer self.old.out }
        ensures moment { self.new.at ≡ at }
        ensures maintained { self.new.maintained ≡ self.old.maintained }
        ensures chosen { self.new.chosen ≡ newest_chosen (chosen_in choice.answer) self.old.chosen }
    {
        self.at = at;
        if let Answer::Chosen { member, .. } = choice.answer {
            let place = member as usize;
            if choice.revives {
                revive_others(&mut self.rows, ask, place, config.direct);
            }
            self.rows[place] = chosen_row(
                &self.rows[place],
                config.method,
                seq,
                ask.fresh,
                config.direct,
            );
            self.out += 1;
            self.chosen = Some(member);
        }
    }

    /// After a Return of a ticket on `member`.
    pub(crate) fn give_back(
        &mut self,
        config: &LbConfig,
        member: u32,
        ticket: u64,
        outcome: Outcome,
        at: u64,
    )
        requires within { member < length self.old.rows.items }
        requires busy { (d : Standing) → 0 < (slice_index_or self.old.rows.items member d).busy }
        requires light { (d : Standing) → (slice_index_or self.old.rows.items member d).load < LOAD_LIMIT }
        requires few { outcome.bytes ≤ MOST_BYTES }
        requires tickets { 0 < self.old.out }
        ensures whole { length self.new.rows.items ≡ length self.old.rows.items }
        ensures row { (d : Standing) → slice_index_or self.new.rows.items member d
            ≡ returned_row config.now.method config.now.direct ticket outcome at (slice_index_or self.old.rows.items member d) }
        ensures others { (m : ℕ) (d : Standing) → (m ≡ member → ⊥) → slice_index_or self.new.rows.items m d ≡ slice_index_or self.old.rows.items m d }
        ensures tickets { self.new.out + 1 ≡ self.old.out }
        ensures moment { self.new.at ≡ at }
        ensures maintained { self.new.maintained ≡ self.old.maintained }
        ensures chosen { self.new.chosen ≡ self.old.chosen }
    {
        let place = member as usize;
        let row = returned_row(
            &self.rows[place],
            config.method,
            ticket,
            outcome,
            at,
            config.direct,
        );
        self.rows[place] = row;
        self.out -= 1;
        self.at = at;
    }
}
