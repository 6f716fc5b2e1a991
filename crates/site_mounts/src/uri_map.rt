//! The map of a site: the rules, and the mount of a path.
ghost use Rattle.std.specs.Prelude.{◌≡◌, ◌<◌, ◌^◌, length, IfSome, true};
ghost use Rattle.std.specs.Option.{option_copied};
ghost use Rattle.site_config.specs.declared.config.Config.{Config};
ghost use Rattle.site_mounts.specs.Mounts.{best, deciding_line, exclusion_line, is_excluded, line_count, mount, mounts, taken, terms};
ghost use Rattle.site_mounts.specs.Search.{better};
ghost use Rattle.site_mounts.specs.Sites.{is_worker, members_of, names_members, stands_in};

use crate::rule::{Mount, Rule};
use jk_io::ListOf;
use lb_model::Terms;
use site_config::Named;
use std::marker::Model;

/// The rules of a uriworkermap.properties that are in force, in the order of their lines. A contract sees the list.
#[derive(Drop)]
pub struct UriMap {
    rules: ListOf<Rule>,
}

impl Model for UriMap {
    ghost use Rattle.std.specs.Prelude.{List, length, ◌<◌, ◌^◌};
    ghost use Rattle.site_mounts.specs.declared.rule.Rule.{Rule};

    ghost Value = { List Rule };

    ghost view = { λ m. m.rules };

    ghost invariant = { λ m. length m.rules < 2 ^ 32 };
}

/// The best rule so far, or this one where it mounts the path and goes before that.
fn better<'m>(best: Option<&'m Rule>, rule: &'m Rule, path: &[u8]) -> Option<&'m Rule>
    ensures { option_copied result ≡ better path.now (option_copied best.entry) rule.now }
{
    match best {
        None => { if rule.mounts(path) { Some(rule) } else { None } }
        Some(other) => {
            if rule.is_before(other) && rule.mounts(path) {
                Some(rule)
            } else {
                Some(other)
            }
        }
    }
}

/// The rule that mounts the path, before exclusions are looked at.
fn best<'m>(rules: &'m [Rule], path: &[u8]) -> Option<&'m Rule>
    ensures { option_copied result ≡ best rules.now path.now }
{
    let mut best = None;
    for rule in rules {
        best = better(best, rule, path);
    }
    best
}

fn is_excluded(rules: &[Rule], path: &[u8], worker: Named) -> bool
    ensures { result ≡ is_excluded rules.now path.now worker }
{
    rules.iter().any(|rule| rule.role.excludes(worker) && rule.pattern.matches(path))
}

/// The line of the first exclusion that takes the path away from this worker.
fn exclusion_line(rules: &[Rule], path: &[u8], worker: Named) -> Option<u32>
    ensures { result ≡ exclusion_line rules.now path.now worker }
{
    for rule in rules {
        if rule.role.excludes(worker) && rule.pattern.matches(path) {
            return Some(rule.line);
        }
    }
    None
}

/// The line of the rule that decides about the path.
fn deciding_line(rules: &[Rule], path: &[u8]) -> Option<u32>
    ensures { result ≡ deciding_line rules.now path.now }
{
    let rule = best(rules, path)?;
    let mount = rule.role.mount()?;
    Some(exclusion_line(rules, path, mount.worker).unwrap_or(rule.line))
}

/// Where the path is mounted.
fn taken(rules: &[Rule], path: &[u8]) -> Option<Mount>
    ensures { result ≡ taken rules.now path.now }
{
    let mount = best(rules, path)?.role.mount()?;
    if is_excluded(rules, path, mount.worker) {
        None
    } else {
        Some(mount)
    }
}

impl UriMap {
    pub(crate) fn from_vec(rules: Vec<Rule>) -> UriMap
        requires { length rules.items < 2 ^ 32 }
        ensures { result ≡ rules.items }
    {
        UriMap {
            rules: ListOf::from_vec(rules),
        }
    }

    /// The worker at which a cleaned path is mounted. It takes no memory.
    pub fn mount(&self, path: &[u8]) -> Option<Named>
        ensures value { result ≡ mount self.now path.now }

        // It is a worker of each configuration in which all that the map names stands.
        ensures placed { IfSome result (λ worker. (config : Config) → stands_in config self.now ≡ true
            → is_worker config worker ≡ true) }
    {
        Some(taken(self.rules.as_slice(), path)?.worker)
    }

    /// The terms of the rule that mounts a cleaned path; none where no rule does. It takes no memory.
    pub fn terms(&self, path: &[u8]) -> Terms
        ensures value { result ≡ terms self.now path.now }

        // In such a configuration they name members of that worker.
        ensures members { IfSome (mount self.now path.now) (λ worker. (config : Config) → stands_in config self.now ≡ true
            → names_members (members_of config worker) result ≡ true) }
    {
        match taken(self.rules.as_slice(), path) {
            Some(mount) => mount.terms,
            None => Terms::none(),
        }
    }

    /// The line of the rule that decides about a cleaned path: the one that mounts it, or the first exclusion that takes it
    /// away; none where no rule but exclusions matches. It takes no memory.
    pub fn deciding_line(&self, path: &[u8]) -> Option<u32>
        ensures { result ≡ deciding_line self.now path.now }
    {
        deciding_line(self.rules.as_slice(), path)
    }

    /// How many lines have rules, exclusions among them; lines that are turned off have none.
    pub fn rules(&self) -> u32
        ensures { result ≡ line_count self.now }
    {
        let mut count = 0;
        let mut line = 0;
        for rule in self.rules.as_slice() {
            if rule.line != line {
                count += 1;
                line = rule.line;
            }
        }
        count
    }
}
