//! The balancer of a script while its lines are read.
ghost use Rattle.std.specs.Prelude.{◌≡◌, map, IfOk, OnOk, IsErrOf};
ghost use Rattle.std.specs.List.{list_all};
ghost use Rattle.std.specs.Option.{option_copied};
ghost use Rattle.play_script.specs.Drafts.{leads_to_member, has_targets, config_of, configs_of};
ghost use Rattle.play_script.specs.Words.{words_of_member};

use crate::head::{BalancerLine, MemberLine};
use crate::names::{NameList, index_of};
use jk_io::{Bytes, ListOf, NoMemory};
use lb_model::{LbConfig, MemberConfig, MemberList, Method};
use std::alloc::{AllocError, Global};
use std::marker::Model;
use thiserror::Error;

/// Why no configuration is made of a draft.
#[derive(Clone, Copy, Debug, PartialEq, Eq, Error)]
pub enum DraftError {
    /// A redirect names no member, or a value is refused.
    #[error("bad balancer")]
    NoBalancer,
    #[error("out of memory")]
    NoMemory,
}

impl From<NoMemory> for DraftError {
    ghost use Rattle.std.specs.Prelude.{◌≡◌};
    ghost use Rattle.play_script.specs.declared.draft.DraftError.TheVariants as Refused;

    ghost from_gives = { λ _ e. e ≡ Refused.NoMemory };

    fn from(_e: NoMemory) -> DraftError {
        DraftError::NoMemory
    }
}

/// A balancer as the lines so far describe it. Contracts see its rules and members as words.
#[derive(Drop)]
pub struct Draft<'a> {
    rules: BalancerLine,
    members: Vec<MemberLine<'a>>,
    names: NameList,
}

impl<'a> Model for Draft<'a> {
    ghost use Rattle.std.specs.Prelude.{◌≡◌, map};
    ghost use Rattle.play_script.specs.Drafts.{DraftWords, names_of};
    ghost use Rattle.play_script.specs.Words.{words_of_member};

    ghost Value = { DraftWords };

    ghost view = { λ d. record { rules = d.rules; members = map words_of_member d.members.items } };

    ghost invariant = { λ d. d.names ≡ names_of (map words_of_member d.members.items) };
}

fn leads_to_member(names: &NameList, redirect: Option<&[u8]>) -> bool
    ensures { result ≡ leads_to_member names.now (option_copied redirect.entry) }
{
    match redirect {
        None => true,
        Some(name) => index_of(names, name).is_some(),
    }
}

fn all_lead(names: &NameList, members: &[MemberLine]) -> bool
    ensures { result ≡ list_all (λ m. leads_to_member names.now (words_of_member m).redirect) members.now }
{
    members
        .iter()
        .all(|member| leads_to_member(names, member.redirect))
}

#[tactic(auto, using(crate::proofs::DraftLemmas::all_lead_of))]
fn has_targets(names: &NameList, members: &[MemberLine]) -> bool
    ensures { result ≡ has_targets names.now (map words_of_member members.now) }
{
    all_lead(names, members)
}

fn config_of(alloc: Global, names: &NameList, member: &MemberLine) -> Result<MemberConfig, NoMemory>
    ensures { IfOk result (λ c. c ≡ config_of names.now (words_of_member member.now)) }
{
    let redirect = match member.redirect {
        None => None,
        Some(name) => index_of(names, name),
    };
    Ok(MemberConfig {
        name: Bytes::from_slice(alloc, member.name)?,
        route: Bytes::from_slice(alloc, member.name)?,
        factor: member.factor,
        distance: member.distance,
        activation: member.activation,
        redirect,
        pool: member.pool,
    })
}

fn configs_of(
    alloc: Global,
    names: &NameList,
    members: &[MemberLine],
) -> Result<MemberList, NoMemory>
    ensures { IfOk result (λ list. list ≡ configs_of names.now (map words_of_member members.now)) }
{
    let mut configs = Vec::with_capacity(alloc, members.len())?;
    for member in members {
        configs.push(config_of(alloc, names, member)?)?;
    }
    Ok(ListOf::from_vec(configs))
}

impl<'a> Draft<'a> {
    ghost use Rattle.play_script.specs.Drafts.{empty_draft, names_in, with_rules, with_member, IsConfigOf, IsNoBalancer};

    /// No member yet, and the rules of `lb R 1 0 60 60`. It takes no memory.
    pub fn new(alloc: Global) -> Draft<'a>
        ensures { result ≡ empty_draft }
    {
        Draft {
            rules: BalancerLine {
                method: Method::Request,
                sticky: true,
                force: false,
                maintain: 60,
                recover: 60,
            },
            members: Vec::new(alloc),
            names: NameList::new(alloc),
        }
    }

    /// The members' names, in order.
    pub fn names(&self) -> &NameList
        ensures { result.now ≡ names_in self.now }
    {
        &self.names
    }

    /// Replaces the rules.
    pub fn set_rules(&mut self, rules: BalancerLine)
        ensures { self.new ≡ with_rules rules self.old }
    {
        self.rules = rules;
    }

    /// Adds a member.
    pub fn add(&mut self, member: MemberLine<'a>) -> Result<(), NoMemory>
        ensures { OnOk result (self.new ≡ with_member (words_of_member member.entry) self.old) }
    {
        let name = Bytes::from_slice(*self.members.allocator(), member.name)?;
        self.members.reserve(1)?;
        self.names.push(name)?;
        self.members.push(member).unwrap();
        Ok(())
    }

    /// The configuration that the lines describe.
    pub fn config(&self) -> Result<LbConfig, DraftError>
        ensures ok { IfOk result (λ c. IsConfigOf self.now c) }
        ensures refused { IsErrOf result DraftError.NoBalancer → IsNoBalancer self.now }
    {
        let members = self.members.as_slice();
        if !has_targets(&self.names, members) {
            return Err(DraftError::NoBalancer);
        }
        let configs = configs_of(*self.members.allocator(), &self.names, members)?;
        let rules = self.rules;
        let made = LbConfig::new(
            rules.method,
            rules.sticky,
            rules.force,
            false,
            rules.maintain,
            rules.recover,
            configs,
        );
        match made {
            Ok(config) => Ok(config),
            Err(_) => Err(DraftError::NoBalancer),
        }
    }
}
