//! A law of halving: loads that differ may become equal.
ghost use Rattle.std.specs.Prelude.{◌≡◌, ◌+◌, ◌*◌, ◌<◌};
ghost use Rattle.lb_model.specs.Loads.{halved};

/// Two loads that differ may halve to a tie: each even one and the next. So who is the least has to be asked again after a
/// halving.
pub fn unlike_loads_may_tie(load: u128)
    ensures unlike { 2 * load < 2 * load + 1 }
    ensures tie { halved (2 * load) 1 ≡ halved (2 * load + 1) 1 }
{}
