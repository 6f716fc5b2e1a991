//! A rule of a map, and which of two rules goes first.
ghost use Rattle.std.specs.Prelude.{◌≡◌, length};
ghost use Rattle.site_mounts.specs.Mounts.{is_before, is_longer_or_later, mounts};
ghost use Rattle.site_mounts.specs.Patterns.{matches};
ghost use Rattle.site_mounts.specs.Roles.{excludes, mount_of};

use crate::pattern::Pattern;
use lb_model::Terms;
use site_config::Named;

/// Where a rule mounts.
#[derive(Clone, Copy)]
pub struct Mount {
    pub worker: Named,
    pub terms: Terms,
}

/// What a rule does with the paths that it matches.
#[derive(Clone, Copy)]
pub enum Role {
    Mount(Mount),
    /// It takes them away from this worker, or from every worker.
    Exclusion(Option<Named>),
}

/// A rule that is in force.
#[derive(Drop)]
pub struct Rule {
    /// From 1. A line `P|S` makes two rules.
    pub line: u32,
    pub pattern: Pattern,
    pub role: Role,
}

impl Role {
    /// Where the rule mounts, unless it is an exclusion.
    pub(crate) fn mount(self) -> Option<Mount>
        ensures { result ≡ mount_of self }
    {
        match self {
            Role::Mount(mount) => Some(mount),
            Role::Exclusion(_) => None,
        }
    }

    /// Whether it is an exclusion of the worker, or of every one.
    pub(crate) fn excludes(self, worker: Named) -> bool
        ensures { result ≡ excludes self worker }
    {
        match self {
            Role::Mount(_) => false,
            Role::Exclusion(None) => true,
            Role::Exclusion(Some(other)) => other == worker,
        }
    }
}

impl Rule {
    /// Whether the rule isn't an exclusion, and matches.
    pub(crate) fn mounts(&self, path: &[u8]) -> bool
        ensures { result ≡ mounts path.now self.now }
    {
        self.role.mount().is_some() && self.pattern.matches(path)
    }

    /// Whether the pattern is longer, or as long and of a later line.
    fn is_longer_or_later(&self, other: &Rule) -> bool
        ensures { result ≡ is_longer_or_later (length self.now.pattern) self.now.line
            (length other.now.pattern) other.now.line }
    {
        let (size, other_size) = (self.pattern.len(), other.pattern.len());
        other_size < size || (size == other_size && other.line < self.line)
    }

    /// Whether the rule goes before the other one where both mount a path.
    pub(crate) fn is_before(&self, other: &Rule) -> bool
        ensures { result ≡ is_before self.now other.now }
    {
        match (self.pattern.is_wild(), other.pattern.is_wild()) {
            (false, true) => true,
            (true, false) => false,
            _ => self.is_longer_or_later(other),
        }
    }
}
