//! Two callers side by side: the first gives its ticket back only once the second has had a whole exchange. Were all done by
//! one thread, the first would wait in vain.
ghost use Rattle.std.specs.Prelude.{◌≡◌, [], Some};
ghost use Rattle.pass_checks.specs.Pairs.{ArePair};

use crate::callers::{FRESH, give};
use crate::pair::{PassPair, PlacedPass};
use crate::start::start_book;
use anyhow::Result as Judged;
use check_rows::files::print_claim;
use jk_io::{Gate, NoMemory};
use lb_book::Desk;
use lb_book::desk::Choice;
use lb_passes::{PassBook, PassList, PassPlace, PlacedDesk};
use std::alloc::Global;
use std::marker::Brand;
use std::sync::Wait;
use std::thread::{self, Threads};
use std::time::{Clock, Duration};

/// How often the first caller looks, a millisecond apart, before it gives up.
const MOST_LOOKS: u32 = 10_000;

/// The place that the second caller raises.
const SECOND_IS_DONE: u32 = 0;

/// A caller that holds no ticket.
#[derive(Drop)]
struct Caller<'b, 'r, P: PassPlace, R> {
    desk: PlacedDesk<'b, 'r, P, R>,
    number: u32,
    ghost caller: { desk.desk.desk.caller ≡ Some number },
    ghost none_held: { desk.desk.desk.held ≡ [] },
}

impl<'b, 'r, P: PassPlace, R> Caller<'b, 'r, P, R> {
    ghost use Rattle.std.specs.Prelude.{◌≡◌, [], Some};

    fn new(desk: PlacedDesk<'b, 'r, P, R>, number: u32) -> Caller<'b, 'r, P, R>
        requires caller { desk.desk.desk.caller ≡ Some number }
        requires none_held { desk.desk.desk.held ≡ [] }
    {
        Caller { desk, number }
    }
}

/// Whether the second caller was done within that many looks.
fn comes<R: Wait + Clock>(rt: &R, gate: &Gate<'_, R>) -> bool {
    for _ in 0..MOST_LOOKS {
        if gate.is_raised(SECOND_IS_DONE) {
            return true;
        }
        thread::sleep(rt, Duration::from_millis(1));
    }
    false
}

/// An exchange that ends only once the second caller is done; whether it did.
fn hold_on<P: PassPlace, R: Wait + Clock>(
    rt: &R,
    gate: &Gate<'_, R>,
    caller: &mut Caller<'_, '_, P, R>,
) -> bool {
    match caller.desk.choose(0, caller.number, 0, &FRESH) {
        Ok(Choice::Chosen { member: _, lease }) => {
            let came = comes(rt, gate);
            give(&mut caller.desk, caller.number, lease);
            came
        }
        Ok(Choice::NoMember | Choice::Forced) => false,
        Err(_) => false,
    }
}

/// An exchange, after which the place is raised; whether there was one.
fn go_by<P: PassPlace, R: Wait>(gate: &Gate<'_, R>, caller: &mut Caller<'_, '_, P, R>) -> bool {
    match caller.desk.choose(0, caller.number, 0, &FRESH) {
        Ok(Choice::Chosen { member: _, lease }) => {
            give(&mut caller.desk, caller.number, lease);
            gate.raise(SECOND_IS_DONE);
            true
        }
        Ok(Choice::NoMember | Choice::Forced) => false,
        Err(_) => false,
    }
}

/// Whether both callers had an exchange, the first one's beginning before the second's and ending after it.
fn go_side_by_side<P: PassPlace + Send + Sync, R: Threads + Wait + Clock + Sync>(
    rt: &R,
    first: &mut Caller<'_, '_, P, R>,
    second: &mut Caller<'_, '_, P, R>,
) -> bool {
    let gate = Gate::new(rt);
    let (held, went) = thread::join(rt, || hold_on(rt, &gate, first), || go_by(&gate, second));
    held && went
}

/// A caller with a desk of this pass.
fn caller_of<'b, 'r, P: PassPlace, R>(
    alloc: Global,
    rt: &'r R,
    placed: PlacedPass<'b, P>,
    number: u32,
) -> Result<Caller<'b, 'r, P, R>, NoMemory>
    requires { placed.pass.number ≡ number }
{
    Ok(Caller::new(placed.desk(alloc, rt)?, number))
}

/// Whether the callers of the two passes of a list go side by side.
fn go_in<P: PassPlace + Send + Sync, R: Threads + Wait + Clock + Sync>(
    rt: &R,
    alloc: Global,
    book: &PassBook,
    passes: PassList,
) -> Result<bool, NoMemory>
    requires pair { ArePair P.table P.origin P.given book.now passes }
{
    let PassPair { first, second } = PassPair::<P>::of_list(book, passes);
    let mut first = caller_of(alloc, rt, first, 0)?;
    let mut second = caller_of(alloc, rt, second, 1)?;
    Ok(go_side_by_side(rt, &mut first, &mut second))
}

/// Whether two callers of a new Book go side by side.
fn goes<R: Threads + Wait + Clock + Sync>(rt: &R, alloc: Global) -> Result<bool, NoMemory> {
    let start = start_book(alloc)?;
    let (book, passes) = PassBook::new(alloc, start, 2)?;
    go_in::<Brand, R>(rt, alloc, &book, passes)
}

/// Prints whether two callers go side by side.
pub fn judge<R: Print + AllocGlobal + Threads + Wait + Clock + Sync>(rt: &R) -> Judged<()> {
    let holds = goes(rt, rt.alloc())?;
    print_claim(rt, "two callers that take turns go side by side", holds)
}
