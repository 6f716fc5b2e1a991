//! Laws of the answers to an ask.
ghost use Rattle.std.specs.Prelude.{◌≡◌, ◌↔◌, ◌++◌, reverse};
ghost use Rattle.lb_model.specs.Choice.{IsPick};
ghost use Rattle.lb_model.specs.declared.journal.Answer.{Answer};
ghost use Rattle.lb_model.specs.Legal.{IsLegal};
ghost use Rattle.lb_model.specs.Present.{IsEnding};
ghost use Rattle.lb_book.specs.Unanswered.{IsForcedAsk, IsUnanswered};

use lb_model::{Answer, Ask, Entry, Opening};

/// An ask has one answer after a history.
pub fn an_ask_has_one_pick(
    rules: u8,
    opening: &Opening,
    past: &[Entry],
    ask: &Ask,
    one: Answer,
    other: Answer,
)
    requires one { IsPick rules opening.now (reverse past.now) ask.now one }
    requires other { IsPick rules opening.now (reverse past.now) ask.now other }
    ensures { one ≡ other }
{}

/// An ask gets no member exactly where none is left for it, and its session isn't served either.
pub fn no_member_means(rules: u8, opening: &Opening, past: &[Entry], ask: &Ask)
    ensures { IsPick rules opening.now (reverse past.now) ask.now Answer.NoMember
        ↔ IsUnanswered rules opening.now (reverse past.now) ask.now }
{}

/// An ask is refused by force exactly where sessions must stay with their member, and this one's isn't served.
pub fn forced_means(rules: u8, opening: &Opening, past: &[Entry], ask: &Ask)
    ensures { IsPick rules opening.now (reverse past.now) ask.now Answer.Forced
        ↔ IsForcedAsk rules opening.now (reverse past.now) ask.now }
{}

/// A journal that is cut goes on from the opening that it ended with: no later ask has another answer.
pub fn a_cut_changes_no_later_pick(
    rules: u8,
    opening: &Opening,
    past: &[Entry],
    ending: &Opening,
    later: &[Entry],
    ask: &Ask,
)
    requires legal { IsLegal rules opening.now past.now }
    requires cut { IsEnding rules opening.now (reverse past.now) ending.now }
    requires later { IsLegal rules ending.now later.now }
    ensures { (answer : Answer) → (IsPick rules ending.now (reverse later.now) ask.now answer
        ↔ IsPick rules opening.now (reverse later.now ++ reverse past.now) ask.now answer) }
{}
