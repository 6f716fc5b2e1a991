//! The workers' names, each with its number.
ghost use Rattle.std.specs.Prelude.{◌≡◌, ◌<◌, ℕ, List, [], ◌∷◌, ◌++◌, length, map, IfOk};
ghost use Rattle.site_workers.specs.Numbers.{number_of};

use jk_io::NoMemory;
use std::alloc::Global;
use std::collections::HashMap;
use std::marker::Model;

/// Names by number, from 0, each once. A contract sees the list of them.
#[derive(Drop)]
pub struct NameTable<'t> {
    numbers: HashMap<&'t [u8], usize>,
    names: Vec<&'t [u8]>,
}

impl<'t> Model for NameTable<'t> {
    ghost use Rattle.std.specs.Prelude.{List, ℕ, map};
    ghost use Rattle.site_workers.specs.Numbers.{AreNumbered};

    ghost Value = { List (List ℕ) };

    ghost view = { λ t. map (λ n. n.now) t.names.items };

    ghost invariant = { λ t. AreNumbered t.numbers (map (λ n. n.now) t.names.items) };
}

impl<'t> NameTable<'t> {
    pub fn new(alloc: Global) -> NameTable<'t>
        ensures { result ≡ [] }
    {
        NameTable {
            numbers: HashMap::new(alloc),
            names: Vec::new(alloc),
        }
    }

    /// How many names there are.
    pub fn len(&self) -> usize
        ensures { result ≡ length self.now }
    {
        self.names.len()
    }

    /// The number of a name.
    pub fn find(&self, name: &[u8]) -> Option<usize>
        ensures { result ≡ number_of name.now self.now }
    {
        self.numbers.get(name).copied()
    }

    /// Adds a name that isn't there, with the next number.
    pub fn add(&mut self, name: &'t [u8]) -> Result<(), NoMemory>
        requires { number_of name.now self.old ≡ None }
        ensures ok { IfOk result (λ _. self.new ≡ self.old ++ name.now ∷ []) }
    {
        self.names.reserve(1)?;
        let number = self.names.len();
        self.numbers.insert(name, number)?;
        self.names.push(name).unwrap();
        Ok(())
    }
}
