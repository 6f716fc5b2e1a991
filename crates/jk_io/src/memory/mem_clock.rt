//! A clock that answers from a list.
ghost use Rattle.std.specs.Prelude.{◌≡◌};

use crate::list_of::NumberList;
use crate::traits::surroundings::Clock;
use std::marker::Model;

/// A clock that gives its answers in turn, and stands at the last one; without any it stands at 0.
#[derive(Drop)]
pub struct StepClock {
    answers: NumberList,
    /// How many answers were passed; the next one is in the list, unless the list is empty.
    at: usize,
}

impl Model for StepClock {
    ghost use Rattle.std.specs.Prelude.{List, ℕ, drop, length, ◌≤◌, ◌<◌, ◌+◌, ◌≡◌};

    ghost Value = { List ℕ };

    ghost view = { λ c. drop c.at c.answers };

    ghost invariant = { λ c. (c.at ≤ length c.answers) × (0 < length c.answers → c.at < length c.answers) };
}

impl StepClock {
    pub fn new(answers: NumberList) -> StepClock
        ensures { result ≡ answers }
    {
        StepClock { answers, at: 0 }
    }
}

impl Clock for StepClock {
    ghost use Rattle.std.specs.Prelude.{Some};

    ghost answers = { λ c. Some c };

    fn now(&mut self) -> u64 {
        let answer = self.answers.as_slice().get(self.at).copied().unwrap_or(0);
        if self.answers.len() - self.at > 1 {
            self.at += 1;
        }
        answer
    }
}
