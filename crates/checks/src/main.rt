//! Judges each area below jkd's commands by its rows and claims, and shows each row that comes out otherwise.
//!
//! Each area is a crate of checks, whose files of rows stand in folders of data/.
#![tactic(auto)]

use anyhow::Result;

fn main(rt: HostRuntime) -> Result<()> {
    wire_checks::judge(&rt)?;
    wire_checks::judge_http(&rt)?;
    session_checks::judge(&rt)?;
    value_checks::judge(&rt)?;
    desk_checks::judge_books(&rt)?;
    desk_checks::judge(&rt)?;
    outside_checks::judge(&rt)?;
    outside_checks::judge_logs(&rt)?;
    outside_checks::judge_sockets(&rt)
}
