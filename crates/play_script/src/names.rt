//! Names of members.
ghost use Rattle.std.specs.Prelude.{◌≡◌, [], ◌∷◌, ◌++◌, OnOk, OnErr, slice_get};
ghost use Rattle.std.specs.List.{list_all};
ghost use Rattle.std.specs.Option.{option_copied};
ghost use Rattle.std.specs.Str.{bytes_eq};
ghost use Rattle.play_script.specs.Names.{is_name_byte, is_name, index_of};

use jk_io::{Bytes, ListOf, NoMemory};
use std::alloc::Global;
use std::marker::Model;

/// The members' names, in order: fewer than 2^32, so that a u32 tells which.
#[derive(Drop)]
pub struct NameList {
    names: ListOf<Bytes>,
}

impl Model for NameList {
    ghost use Rattle.std.specs.Prelude.{ℕ, ◌<◌, ◌^◌, List, length};

    ghost Value = { List (List ℕ) };

    ghost view = { λ n. n.names };

    ghost invariant = { λ n. length n.names < 2 ^ 32 };
}

impl NameList {
    /// No name yet. No memory is taken.
    pub fn new(alloc: Global) -> NameList
        ensures { result ≡ [] }
    {
        NameList {
            names: ListOf::new(alloc),
        }
    }

    /// Adds a name at the end. There is no memory for one more after 2^32 - 1 of them.
    pub fn push(&mut self, name: Bytes) -> Result<(), NoMemory>
        ensures ok { OnOk result (self.new ≡ self.old ++ name ∷ []) }
        ensures err { OnErr result (self.new ≡ self.old) }
    {
        if self.names.len() >= u32::MAX as usize {
            return Err(NoMemory);
        }
        self.names.push(name)?;
        Ok(())
    }

    /// The name of a member.
    pub(crate) fn get(&self, member: usize) -> Option<&Bytes>
        ensures { option_copied result ≡ slice_get self.now member }
    {
        self.names.get(member)
    }
}

fn is_name_byte(byte: u8) -> bool
    ensures { result ≡ is_name_byte byte }
{
    byte.is_ascii_alphanumeric() || (byte == b'-' || byte == b'_')
}

fn has_name_bytes(text: &[u8]) -> bool
    ensures { result ≡ list_all is_name_byte text.now }
{
    text.iter().all(|byte| is_name_byte(*byte))
}

/// Whether the text can be a member's name.
pub(crate) fn is_name(text: &[u8]) -> bool
    ensures { result ≡ is_name text.now }
{
    !text.is_empty() && has_name_bytes(text)
}

fn has_name(member: &Bytes, name: &[u8]) -> bool
    ensures { result ≡ bytes_eq member.now name.now }
{
    member.as_slice() == name
}

fn find(names: &[Bytes], name: &[u8]) -> Option<usize>
    ensures { result ≡ index_of names.now name.now }
{
    names.iter().position(|member| has_name(member, name))
}

/// The first member that has the name.
pub fn index_of(names: &NameList, name: &[u8]) -> Option<u32>
    ensures { result ≡ index_of names.now name.now }
{
    let at = find(names.names.as_slice(), name)?;
    Some(at as u32)
}
