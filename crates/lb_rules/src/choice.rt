//! The answer of a Select.

ghost use Rattle.std.specs.Prelude.{◌≡◌, ℕ, ◌<◌, ◌≤◌, length, IfSome, slice_index_or, is_some, ◌&&◌};
ghost use Rattle.std.specs.Option.{ForSome};
ghost use Rattle.lb_model.specs.Choice.{begin_after, begins_trial, member_within, redirected};
ghost use Rattle.lb_model.specs.declared.config.LbConfig.{LbConfig};
ghost use Rattle.lb_rules.specs.declared.standing.Standing.{Standing};
ghost use Rattle.lb_rules.specs.RuleNumbers.{rules_number};
ghost use Rattle.lb_rules.specs.Picks.{home_of, serves_at, routed_at, revives_at, HasRoomAt, HasRoomFor, IsOpenAt, IsPickAt};
ghost use Rattle.lb_rules.specs.Least.{IsRevivalOf};
ghost use Rattle.lb_model.specs.declared.config.TheConstants.{MAX_MEMBERS};

use crate::among::{Among, serves};
use crate::least::least;
use crate::rules::Rules;
use crate::standing::Standing;
use lb_model::{Answer, Ask, How, LbConfig, MemberState};

/// The answer to an ask, and whether it turns the members that may be revived from Error to Recover.
#[derive(Clone, Copy, PartialEq, Eq)]
pub struct SelectAnswer {
    pub answer: Answer,
    pub revives: bool,
}

fn member_within(count: usize, routed: Option<u32>) -> Option<u32>
    ensures { result ≡ member_within count routed }
{
    match routed {
        Some(member) if (member as usize) < count => Some(member),
        _ => None,
    }
}

// The member that the ask is routed to.
fn home_of(config: &LbConfig, ask: &Ask) -> Option<u32>
    ensures { result ≡ home_of config.now ask.now }
{
    if config.sticky {
        member_within(config.members.len(), ask.routed)
    } else {
        None
    }
}

// Force is on, and the ask is routed.
fn is_forced(config: &LbConfig, ask: &Ask) -> bool
    ensures { result ≡ (config.now.force && is_some (home_of config.now ask.now)) }
{
    config.force && home_of(config, ask).is_some()
}

// The redirect where it serves.
fn redirected(rows: &[Standing], ask: &Ask, redirect: Option<u32>) -> Option<(u32, How)>
    requires few { length rows.now ≤ MAX_MEMBERS }
    requires within { ForSome redirect (λ r. r < length rows.now) }
    ensures value { (d : Standing) → result ≡ redirected (serves_at rows.now d ask.now) redirect }
    ensures room { IfSome result (λ x. HasRoomAt rows.now x.0) }
{
    match redirect {
        Some(member) if serves(&rows[member as usize], ask, member as usize) => {
            Some((member, How::Redirect))
        }
        _ => None,
    }
}

// The session's member where it serves, else its redirect where that serves.
fn routed(config: &LbConfig, rows: &[Standing], ask: &Ask) -> Option<(u32, How)>
    requires few { length rows.now ≤ MAX_MEMBERS }
    requires whole { length rows.now ≡ length config.now.members }
    requires targets { (m : ℕ) (d : Standing) → m < length rows.now → IfSome (slice_index_or rows.now m d).redirect (λ r. r < length rows.now) }
    ensures value { (d : Standing) → result ≡ routed_at config.now rows.now d ask.now }
    ensures room { IfSome result (λ x. HasRoomAt rows.now x.0) }
{
    let member = home_of(config, ask)?;
    let row = &rows[member as usize];
    if serves(row, ask, member as usize) {
        return Some((member, How::Sticky));
    }
    redirected(rows, ask, row.redirect)
}

fn begins_trial(state: MemberState) -> bool
    ensures { result ≡ begins_trial state }
{
    matches!(state, MemberState::Error { at: _ } | MemberState::Recover)
}

pub(crate) fn begin_after(chosen: Option<u32>) -> usize
    ensures { result ≡ begin_after chosen }
{
    match chosen {
        None => 0,
        Some(member) => member as usize + 1,
    }
}

// The choice of a member whose row this is.
fn chosen(row: &Standing, member: u32, how: How, next: u64, revives: bool) -> SelectAnswer
    ensures answer { result.answer ≡ Answer.Chosen member next how (begins_trial row.now.state) }
    ensures revives { result.revives ≡ revives }
{
    let probe = begins_trial(row.state);
    SelectAnswer {
        answer: Answer::Chosen {
            member,
            ticket: next,
            how,
            probe,
        },
        revives,
    }
}

// The least of those that may be revived; none under rules 1, which revive nobody.
fn least_revivable(rules: Rules, rows: &[Standing], ask: &Ask, begin: usize) -> Option<usize>
    requires few { length rows.now ≤ MAX_MEMBERS }
    ensures { IsRevivalOf (rules_number rules) rows.now ask.now begin result }
{
    match rules {
        Rules::One => None,
        Rules::Two => least(Among::Revivable, rows, ask, begin),
    }
}

// The least of the usable members; where there is none, under rules 2, of those that may be revived.
fn balanced(
    rules: Rules,
    rows: &[Standing],
    last: Option<u32>,
    ask: &Ask,
    next: u64,
) -> SelectAnswer
    requires few { length rows.now ≤ MAX_MEMBERS }
    ensures pick { (config : LbConfig) (d : Standing) → IsOpenAt config rows.now d ask.now
        → IsPickAt (rules_number rules) config rows.now d last next ask.now result.answer }
    ensures revives { (d : Standing) → result.revives ≡ revives_at (rules_number rules) rows.now d ask.now result.answer }
    ensures room { HasRoomFor rows.now result.answer }
{
    let begin = begin_after(last);
    if let Some(member) = least(Among::Usable, rows, ask, begin) {
        return chosen(&rows[member], member as u32, How::Balanced, next, false);
    }
    match least_revivable(rules, rows, ask, begin) {
        Some(member) => chosen(&rows[member], member as u32, How::Balanced, next, true),
        None => SelectAnswer {
            answer: Answer::NoMember,
            revives: false,
        },
    }
}

/// The answer to `ask` under the number `next`, where `last` is the member that was chosen last.
pub fn pick(
    rules: Rules,
    config: &LbConfig,
    rows: &[Standing],
    last: Option<u32>,
    ask: &Ask,
    next: u64,
) -> SelectAnswer
    requires whole { length rows.now ≡ length config.now.members }
    requires targets { (m : ℕ) (d : Standing) → m < length rows.now → IfSome (slice_index_or rows.now m d).redirect (λ r. r < length rows.now) }
    ensures pick { (d : Standing) → IsPickAt (rules_number rules) config.now rows.now d last next ask.now result.answer }
    ensures revives { (d : Standing) → result.revives ≡ revives_at (rules_number rules) rows.now d ask.now result.answer }
    ensures room { HasRoomFor rows.now result.answer }
{
    if let Some((member, how)) = routed(config, rows, ask) {
        return chosen(&rows[member as usize], member, how, next, false);
    }
    if is_forced(config, ask) {
        return SelectAnswer {
            answer: Answer::Forced,
            revives: false,
        };
    }
    balanced(rules, rows, last, ask, next)
}
