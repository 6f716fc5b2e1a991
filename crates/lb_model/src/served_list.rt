//! A list of the rows of answered requests.
ghost use Rattle.std.specs.Prelude.{◌≡◌, ◌-◌, ◌<◌, List, [], ◌∷◌, ◌++◌, length, vec_len, vec_capacity, IsTrue, ◌↔◌};
ghost use Rattle.lb_model.specs.ServedRows.{ServedRows};

use crate::row_sink::RowSink;
use crate::served::Served;
use jk_io::NoMemory;
use std::alloc::Global;
use std::marker::Model;

/// Requests that were answered, in order.
#[derive(Drop)]
pub struct ServedList {
    items: Vec<Served>,
}

impl Model for ServedList {
    ghost use Rattle.std.specs.Prelude.{◌-◌, vec_len, vec_capacity};
    ghost use Rattle.lb_model.specs.ServedRows.{ServedRows};

    ghost Value = { ServedRows };

    ghost view = { λ l. record { rows = l.items.items; room = vec_capacity l.items - vec_len l.items } };
}

impl ServedList {
    /// No rows. No memory is taken.
    pub fn new(alloc: Global) -> ServedList
        ensures { result.rows ≡ [] }
    {
        ServedList {
            items: Vec::new(alloc),
        }
    }

    pub fn len(&self) -> usize
        ensures { result ≡ length self.now.rows }
    {
        self.items.len()
    }

    pub fn is_empty(&self) -> bool
        ensures { IsTrue result ↔ (self.now.rows ≡ []) }
    {
        self.items.is_empty()
    }

    pub fn as_slice(&self) -> &[Served]
        ensures { result.now ≡ self.now.rows }
    {
        self.items.as_slice()
    }
}

impl RowSink for ServedList {
    ghost use Rattle.std.specs.Prelude.{◌≡◌, ◌<◌, ◌++◌};
    ghost use Rattle.std.proofs.Common.{sym, ap, ◌∙◌};
    ghost use Rattle.std.proofs.lemmas.List.{append-nil, append_assoc};

    ghost gained = { λ s xs t. t.rows ≡ s.rows ++ xs };

    ghost has_room = { λ s. 0 < s.room };

    ghost gains_nothing = { λ s. sym (append-nil s.rows) };

    ghost gains_on = { λ s t u xs ys first then. then ∙ ap (λ rows. rows ++ ys) first ∙ append_assoc s.rows xs ys };

    fn room(&mut self) -> Result<(), NoMemory> {
        self.items.reserve(1)?;
        Ok(())
    }

    fn put(&mut self, row: Served) {
        let Ok(()) = self.items.push(row) else {
            unreachable!()
        };
    }
}
