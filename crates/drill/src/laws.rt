//! Laws of a talk's two ends: consequences of the definitions alone, whatever the calls do.
ghost use Rattle.drill.specs.FirstExchange.{FirstExchange};
ghost use Rattle.drill.specs.FirstGet.{FirstGet};
ghost use Rattle.drill.specs.FirstPost.{FirstPost};
ghost use Rattle.drill.specs.Meeting.{EndToEnd, EndToEndOfExchange, GoesOnAsNew};

/// End to end: where a done talk received what the container sends for what the talk sent, the client has as its reply
/// the application's answer to the request, with the request's own data, whatever went over the link before it. Connector
/// and container meet in bytes alone.
pub fn a_reply_is_the_applications_answer()
    ensures { EndToEnd }
{}

/// The same of an exchange that ended with a whole reply, whatever talks of it failed before.
pub fn an_exchange_gives_the_applications_answer()
    ensures { EndToEndOfExchange }
{}

/// A container that has answered any number of requests on a link serves the next one as if the link were new.
pub fn a_container_goes_on_after_each_turn()
    ensures { GoesOnAsNew }
{}

/// The first law has instances: a GET of `/`, for which the container has no application, on each link, with CPing before it
/// where the member asks for that.
pub fn a_first_get_is_answered()
    ensures { FirstGet }
{}

/// And one with a body: a POST of five bytes to `/echo` gets them back.
pub fn a_post_gets_its_own_bytes()
    ensures { FirstPost }
{}

/// The law of exchanges has instances too: those whose last talk is that GET, whatever talks failed before it.
pub fn an_exchange_is_answered()
    ensures { FirstExchange }
{}
