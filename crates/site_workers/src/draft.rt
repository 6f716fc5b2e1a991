//! A configuration that is being made.
ghost use Rattle.std.specs.Prelude.{◌≡◌, OnOk};
ghost use Rattle.site_workers.specs.Site.{no_workers, with_lb, with_status};

use jk_io::{Bytes, ListOf, NoMemory};
use site_config::{Lb, LbList, Named, NamedList, Status, StatusList};
use std::alloc::Global;

/// The balancers, the status workers and the listed names so far. Places that a u32 can't hold count as want of memory.
#[derive(Drop)]
pub(crate) struct Draft {
    pub(crate) lbs: LbList,
    pub(crate) statuses: StatusList,
    pub(crate) listed: NamedList,
}

impl Draft {
    pub(crate) fn new(alloc: Global) -> Draft
        ensures { result ≡ no_workers }
    {
        Draft {
            lbs: ListOf::new(alloc),
            statuses: ListOf::new(alloc),
            listed: ListOf::new(alloc),
        }
    }

    /// Adds a balancer under its name.
    pub(crate) fn add_lb(&mut self, name: Bytes, lb: Lb) -> Result<(), NoMemory>
        ensures { OnOk result (self.new ≡ with_lb self.old name lb) }
    {
        let Ok(place) = u32::try_from(self.lbs.len()) else {
            return Err(NoMemory);
        };
        self.lbs.push(lb)?;
        self.listed.push((name, Named::Balancer(place)))?;
        Ok(())
    }

    /// Adds a status worker under its name.
    pub(crate) fn add_status(&mut self, name: Bytes, status: Status) -> Result<(), NoMemory>
        ensures { OnOk result (self.new ≡ with_status self.old name status) }
    {
        let Ok(place) = u32::try_from(self.statuses.len()) else {
            return Err(NoMemory);
        };
        self.statuses.push(status)?;
        self.listed.push((name, Named::Status(place)))?;
        Ok(())
    }
}
