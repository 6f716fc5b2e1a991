//! Runs of workers over gears, which share the balancers of a site.
pub(crate) mod closing;
pub(crate) mod ends;
pub(crate) mod new_site;
pub(crate) mod parts;
pub(crate) mod serve;
