//! How many bytes the bodies of replies had, counted by the rows of their requests.
ghost use Rattle.std.specs.Prelude.{◌≡◌};
ghost use Rattle.drill.specs.Bodies.{together};

use jk_io::NoMemory;
use lb_model::{RowSink, Served};

/// The bytes of the bodies in the rows that were put. It stays below 2^64.
#[derive(Drop)]
pub(crate) struct BodySum {
    bytes: u64,
}

impl BodySum {
    /// No row was put.
    pub(crate) fn new() -> BodySum
        ensures { result.bytes ≡ 0 }
    {
        BodySum { bytes: 0 }
    }

    pub(crate) fn bytes(&self) -> u64
        ensures { result ≡ self.now.bytes }
    {
        self.bytes
    }
}

impl RowSink for BodySum {
    ghost use Rattle.std.specs.Prelude.{◌≡◌};
    ghost use Rattle.std.proofs.Common.{refl, sym, ap, ◌∙◌};
    ghost use Rattle.std.proofs.lemmas.List.Sums.{fold-append};
    ghost use Rattle.drill.specs.Bodies.{with_bodies, with_body};

    ghost gained = { λ s rows t. t.bytes ≡ with_bodies s.bytes rows };

    ghost has_room = { λ _. Unit {0} };

    ghost gains_nothing = { λ s. refl };

    ghost gains_on = { λ s t u xs ys first then. then ∙ ap (λ n. with_bodies n ys) first ∙ sym (fold-append with_body s.bytes xs ys) };

    fn room(&mut self) -> Result<(), NoMemory> {
        Ok(())
    }

    fn put(&mut self, row: Served) {
        self.bytes = self.bytes.saturating_add(row.body);
    }
}

/// The bytes of two threads' bodies. None: one of the threads didn't make all its requests.
pub(crate) fn together(first: Option<u64>, then: Option<u64>) -> Option<u64>
    ensures { result ≡ together first then }
{
    Some(first?.saturating_add(then?))
}
