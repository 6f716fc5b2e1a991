//! The two passes of a new book, each with the book that it is of.
ghost use Rattle.std.specs.Prelude.{◌≡◌};
ghost use Rattle.lb_passes.specs.PassDesks.{table_in};
ghost use Rattle.lb_passes.specs.Placed.{IsUnused};

use jk_io::NoMemory;
use lb_passes::{Pass, PassBook, PassList, PassPlace, PlacedDesk};
use std::alloc::Global;
use std::marker::PhantomData;
use std::slice::from_ref;

/// A pass of a place with which no call was made yet, and its book.
#[derive(Drop)]
pub struct PlacedPass<'b, P: PassPlace> {
    pub book: &'b PassBook,
    pub pass: Pass,
    pub place: PhantomData<P>,
    pub ghost of: { table_in book.now ≡ P.table },
    pub ghost unused: { IsUnused P.table P.origin P.given pass },
}

/// Both passes of a place that has two.
#[derive(Drop)]
pub struct PassPair<'b, P: PassPlace> {
    pub first: PlacedPass<'b, P>,
    pub second: PlacedPass<'b, P>,
    pub ghost zero: { first.pass.number ≡ 0 },
    pub ghost one: { second.pass.number ≡ 1 },
    pub ghost two: { P.given ≡ 2 },
}

impl<'b, P: PassPlace> PlacedPass<'b, P> {
    ghost use Rattle.std.specs.Prelude.{IfOk};
    ghost use Rattle.lb_passes.specs.Placed.{IsWaitingPass};

    /// A desk with this pass.
    pub fn desk<'r, R>(self, alloc: Global, rt: &'r R) -> Result<PlacedDesk<'b, 'r, P, R>, NoMemory>
        ensures { IfOk result (λ d. IsWaitingPass self.entry.pass d.desk.desk) }
    {
        let PlacedPass {
            book,
            pass,
            place: _,
        } = self;
        PlacedDesk::new(alloc, rt, from_ref(book), pass)
    }
}

impl<'b, P: PassPlace> PassPair<'b, P> {
    ghost use Rattle.pass_checks.specs.Pairs.{ArePair};

    /// The passes of a list of two, in its order.
    pub fn of_list(book: &'b PassBook, passes: PassList) -> PassPair<'b, P>
        requires pair { ArePair P.table P.origin P.given book.now passes }
    {
        let mut list = passes.into_vec();
        match (list.pop(), list.pop()) {
            (Some(second), Some(first)) => {
                let first = PlacedPass {
                    book,
                    pass: first,
                    place: PhantomData,
                };
                let second = PlacedPass {
                    book,
                    pass: second,
                    place: PhantomData,
                };
                PassPair { first, second }
            }
            _ => unreachable!(),
        }
    }
}
