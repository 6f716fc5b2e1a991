//! The moment that the answers of a request tell.
ghost use Rattle.client_session.specs.Moments.{IsDateAt, IsNextDate};

use httpdate::HttpDate;
use jk_io::Clock;

/// The date of that second; none after the year 9999.
fn date_at(at: u64) -> Option<HttpDate>
    ensures { IsDateAt at result }
{
    match HttpDate::from_unix_secs(at) {
        Ok(date) => Some(date),
        Err(_) => None,
    }
}

/// The moment now, by the clock, where answers tell it; else the clock isn't asked.
pub(crate) fn moment_of<K: Clock>(dated: bool, clock: &mut K) -> Option<HttpDate>
    ensures { IsNextDate dated (K.answers clock.old) (K.answers clock.new) result }
{
    if dated { date_at(clock.now()) } else { None }
}
