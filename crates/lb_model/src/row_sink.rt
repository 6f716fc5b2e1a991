//! Where the row of each answered request is put, as its request ends.
ghost use Rattle.std.specs.Prelude.{◌≡◌, List, [], ◌∷◌, ◌++◌, IsOk};

use crate::served::Served;
use jk_io::NoMemory;

/// What rows are put into, one by one.
pub trait RowSink {
    ghost use Rattle.std.specs.Prelude.{List, [], ◌∷◌, ◌++◌, IsOk};
    ghost use Rattle.lb_model.specs.declared.served.Served.{Served as AnyServed};

    // before, the rows that were put, in order, and after; where it isn't told, any may be
    ghost gained: { Self → List AnyServed → Self → Type 0 };

    // the next row can be put
    ghost has_room: { Self → Type 0 };

    /// Takes what the next `put` needs. It is called before the request is answered whose row that will be.
    fn room(&mut self) -> Result<(), NoMemory>
        ensures ready { IsOk result → has_room self.new }
        ensures same { gained self.old [] self.new };

    /// Puts a row after the others.
    fn put(&mut self, row: Served)
        requires { has_room self.old }
        ensures { gained self.old (row ∷ []) self.new };

    ghost gains_nothing: { (s : Self) → gained s [] s };

    ghost gains_on: { (s t u : Self) (xs ys : List AnyServed) → gained s xs t → gained t ys u → gained s (xs ++ ys) u };
}

/// What drops each row.
#[derive(Clone, Copy, Drop)]
pub struct NoRows;

impl RowSink for NoRows {
    ghost gained = { λ _ _ _. Unit {0} };

    ghost has_room = { λ _. Unit {0} };

    ghost gains_nothing = { λ _. tt };

    ghost gains_on = { λ _ _ _ _ _ _ _. tt };

    fn room(&mut self) -> Result<(), NoMemory> {
        Ok(())
    }

    fn put(&mut self, _row: Served) {}
}
