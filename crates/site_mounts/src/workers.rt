//! The workers that a map may name.
ghost use Rattle.std.specs.Prelude.{◌≡◌, ◌≤◌, length, IfOk};
ghost use Rattle.site_config.specs.Places.{named_among};
ghost use Rattle.site_mounts.specs.Members.{members_at};
ghost use Rattle.site_mounts.specs.Workers.{IsTable};
ghost use Rattle.lb_model.specs.declared.config.TheConstants.{MAX_MEMBERS};

use jk_io::{Bytes, NoMemory};
use lb_model::MemberConfig;
use site_config::{Config, Named};
use std::alloc::Global;
use std::collections::HashMap;
use std::marker::Model;

/// The workers of a configuration, the listed ones found by name at once. A contract sees the configuration.
#[derive(Drop)]
pub struct Workers<'c> {
    config: &'c Config,
    listed: HashMap<&'c [u8], Named>,
}

impl<'c> Model for Workers<'c> {
    ghost use Rattle.site_config.specs.declared.config.Config.{Config};
    ghost use Rattle.site_mounts.specs.Workers.{IsTable};

    ghost Value = { Config };

    ghost view = { λ w. w.config.now };

    ghost invariant = { λ w. IsTable w.listed w.config.now.listed };
}

/// What the listed names stand for; of a name that is listed twice the first entry counts.
fn table_of(alloc: Global, listed: &[(Bytes, Named)]) -> Result<HashMap<&[u8], Named>, NoMemory>
    ensures { IfOk result (λ table. IsTable table listed.now) }
{
    let mut table = HashMap::new(alloc);
    let mut left = listed;
    while let [others @ .., entry] = left {
        table.insert(entry.0.as_slice(), entry.1)?;
        left = others;
    }
    Ok(table)
}

impl<'c> Workers<'c> {
    pub fn new(alloc: Global, config: &'c Config) -> Result<Workers<'c>, NoMemory>
        ensures { IfOk result (λ w. w ≡ config.now) }
    {
        let listed = table_of(alloc, config.listed.as_slice())?;
        Ok(Workers { config, listed })
    }

    /// What a listed name stands for.
    pub(crate) fn find(&self, name: &[u8]) -> Option<Named>
        ensures { result ≡ named_among name.now self.now.listed }
    {
        self.listed.get(name).copied()
    }

    /// The members of the balancer at this place.
    pub(crate) fn members(&self, place: u32) -> &[MemberConfig]
        ensures members { result.now ≡ members_at self.now place }
        ensures few { length result.now ≤ MAX_MEMBERS }
    {
        match self.config.lbs.get(place as usize) {
            Some(lb) => lb.book.members.as_slice(),
            None => &[],
        }
    }
}
