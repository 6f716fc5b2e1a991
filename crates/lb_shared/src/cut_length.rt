//! The length at which a Site's journals are cut.

use crate::site::SiteName;
use std::marker::{Model, PhantomData};

/// The number of kept entries at which the journals of the Site of this name are cut; 0 is never.
#[derive(Drop)]
pub(crate) struct CutLength<L: SiteName> {
    at: u32,
    of: PhantomData<L>,
}

impl<L: SiteName> Model for CutLength<L> {
    ghost use Rattle.std.specs.Prelude.{◌≡◌, ℕ};

    ghost Value = { ℕ };

    ghost view = { λ c. c.at };

    ghost invariant = { λ c. c.at ≡ L.cut_at };
}

impl<L: SiteName> CutLength<L> {
    ghost use Rattle.std.specs.Prelude.{◌≡◌};

    pub(crate) fn of(at: u32) -> CutLength<L>
        requires { at ≡ L.cut_at }
        ensures { result ≡ at }
    {
        CutLength {
            at,
            of: PhantomData,
        }
    }

    pub(crate) fn get(&self) -> u32
        ensures { result ≡ L.cut_at }
    {
        self.at
    }
}
