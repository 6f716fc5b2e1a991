//! The desk that the session of a row starts with.
ghost use Rattle.std.specs.Prelude.{IfOk};
ghost use Rattle.session_checks.specs.Starts.{IsDeskOf};

use jk_io::NoMemory;
use lb_book::PlainDesk;
use lb_model::MOST_NUMBERS;
use site_config::Lb;
use site_reports::books_of;
use std::alloc::Global;

/// A desk over the balancers' Books, whose first entries have this number.
pub fn desk_of(alloc: Global, lbs: &[Lb], first: u64) -> Result<PlainDesk, NoMemory>
    ensures { IfOk result (IsDeskOf lbs.now) }
{
    let books = books_of(alloc, lbs, 0, first.min(MOST_NUMBERS))?;
    Ok(PlainDesk::new(alloc, books))
}
