//! The orders that ask for workers: `serve` and `container`, over a world that hands out gears.
pub(crate) mod container;
pub(crate) mod ends;
pub(crate) mod serve;
