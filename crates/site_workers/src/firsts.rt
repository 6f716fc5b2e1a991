//! The names of a list, each once.
ghost use Rattle.std.specs.Prelude.{◌≡◌, IfOk};
ghost use Rattle.site_workers.specs.Lists.{firsts};
ghost use Rattle.site_workers.specs.Listings.{as_listings};

use crate::listing::Listing;
use crate::name_table::NameTable;
use jk_io::NoMemory;
use std::alloc::Global;

/// Each name once, where it stands first.
pub(crate) fn firsts<'t>(
    alloc: Global,
    listings: &[Listing<'t>],
) -> Result<Vec<Listing<'t>>, NoMemory>
    ensures { IfOk result (λ v. as_listings v.items ≡ firsts (as_listings listings.now)) }
{
    let mut seen = NameTable::new(alloc);
    let mut out = Vec::new(alloc);
    for listing in listings {
        if seen.find(listing.name).is_none() {
            seen.add(listing.name)?;
            out.push(*listing)?;
        }
    }
    Ok(out)
}
