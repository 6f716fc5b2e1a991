//! The gain of a member's load by a choice, and by a return.
ghost use Rattle.std.specs.Prelude.{◌≡◌, ◌*◌};
ghost use Rattle.lb_model.specs.Loads.{units_chosen, units_returned};

use lb_model::Method;

/// What a choice adds to the chosen member's load. `fresh`: the session is a new one.
pub fn gain_select(method: Method, unit: u32, fresh: bool) -> u128
    ensures value { result ≡ unit * units_chosen method fresh }
{
    match method {
        Method::Request => u128::from(unit),
        Method::Session if fresh => u128::from(unit),
        Method::Session | Method::Traffic | Method::Busyness => 0,
    }
}

/// What a ticket that comes back with these bytes adds to its member's load.
pub fn gain_return(method: Method, unit: u32, bytes: u64) -> u128
    ensures value { result ≡ unit * units_returned method bytes }
{
    match method {
        Method::Traffic => u128::from(unit) * u128::from(bytes),
        Method::Request | Method::Session | Method::Busyness => 0,
    }
}
