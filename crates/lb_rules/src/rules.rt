//! The two versions of the rules.

ghost use Rattle.std.specs.Prelude.{◌≡◌, ◌<◌};
ghost use Rattle.lb_model.specs.Segments.{AreRules};
ghost use Rattle.lb_rules.specs.RuleNumbers.{rules_number};

/// By which rules a member is chosen. Those of version 1 revive nobody, and are there for old texts.
#[derive(Clone, Copy, PartialEq, Eq)]
pub enum Rules {
    One,
    Two,
}

impl Rules {
    /// The rules with this number.
    pub fn of(number: u8) -> Rules
        requires { AreRules number }
        ensures { rules_number result ≡ number }
    {
        if number == 1 { Rules::One } else { Rules::Two }
    }

    pub fn number(self) -> u8
        ensures { result ≡ rules_number self }
    {
        match self {
            Rules::One => 1,
            Rules::Two => 2,
        }
    }
}
