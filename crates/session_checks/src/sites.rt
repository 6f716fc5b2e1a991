//! The two files of a row's site.
ghost use Rattle.std.specs.Prelude.{◌≡◌, true, IfOk, IfSome};
ghost use Rattle.site_mounts.specs.Sites.{stands_in};

use jk_io::{Bytes, MAX_INPUT_BYTES, NoMemory};
use site_config::Config;
use site_mounts::{MapError, UriMap, read_map};
use site_workers::{PropsError, read_workers};
use std::alloc::Global;

/// The configuration of a workers.properties; None where it is refused.
pub fn config_of(alloc: Global, text: &Bytes) -> Result<Option<Config>, NoMemory> {
    if text.len() > MAX_INPUT_BYTES {
        return Ok(None);
    }
    match read_workers(alloc, text.as_slice()) {
        Ok(config) => Ok(Some(config)),
        Err(PropsError::Refused { .. }) => Ok(None),
        Err(PropsError::NoMemory) => Err(NoMemory),
    }
}

/// The map of a uriworkermap.properties; None where it is refused.
pub fn map_of(alloc: Global, text: &Bytes, config: &Config) -> Result<Option<UriMap>, NoMemory>
    ensures { IfOk result (λ map. IfSome map (λ m. stands_in config.now m ≡ true)) }
{
    if text.len() > MAX_INPUT_BYTES {
        return Ok(None);
    }
    match read_map(alloc, text.as_slice(), config) {
        Ok(map) => Ok(Some(map)),
        Err(MapError::Refused { .. }) => Ok(None),
        Err(MapError::NoMemory) => Err(NoMemory),
    }
}
