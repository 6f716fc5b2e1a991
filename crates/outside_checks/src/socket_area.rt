//! The claims on links of real sockets and on two threads.

use crate::rooms::{Claim, holds};
use crate::{outboxes, silent, sockets, stops, threads};
use anyhow::Result;
use check_rows::files::print_claim;
use std::net::{Net, TcpListener, TcpStream};
use std::rt::{Clock, Files};
use std::sync::Wait;
use std::thread::Threads;

/// Shows each claim, and whether it holds.
pub fn judge_sockets<R>(rt: &R) -> Result<()>
where
    R: Print
        + AllocGlobal
        + Net<Listener = TcpListener, Stream = TcpStream>
        + Clock
        + Files
        + Eprint
        + Threads
        + Wait
        + Sync,
{
    let alloc = rt.alloc();
    let answered = sockets::answer(rt, alloc);
    print_claim(rt, "a link over TCP answers over the loopback", answered)?;
    let kept = sockets::keep_a_link(rt, alloc);
    print_claim(rt, "a kept link over TCP serves the next talk", kept)?;
    let held = outboxes::hold_back(rt, alloc);
    print_claim(rt, "what a worker writes is held back until it waits", held)?;
    judge_rooms(rt)?;
    let spared = stops::spare_a_client(rt, alloc);
    print_claim(
        rt,
        "a client whom a worker has at a stop gets its whole reply",
        spared,
    )?;
    judge_limits(rt)?;
    let once = threads::pass_each_once(rt, alloc);
    print_claim(rt, "two threads end with every link once", once)
}

/// Shows each claim on clients that wait, and whether it holds.
fn judge_rooms<R>(rt: &R) -> Result<()>
where
    R: Print
        + Eprint
        + AllocGlobal
        + Net<Listener = TcpListener, Stream = TcpStream>
        + Files
        + Wait,
{
    for (name, claim) in [
        (
            "an idle link is given again, and closed once it waited too long",
            Claim::ComesAgain,
        ),
        (
            "a head without an end holds nobody, and loses its link",
            Claim::SlowHead,
        ),
        ("a head in two pieces comes whole", Claim::TwoPieces),
        (
            "a part of a head after a whole one waits, and holds nobody",
            Claim::PartWaits,
        ),
        (
            "of too many who wait the one goes who waited longest",
            Claim::OneWaits,
        ),
        (
            "a client that sends on gets its whole reply",
            Claim::Lingers,
        ),
    ] {
        print_claim(rt, name, holds(rt, rt.alloc(), claim))?;
    }
    Ok(())
}

/// Shows each claim on members that say nothing, and whether it holds.
fn judge_limits<R>(rt: &R) -> Result<()>
where
    R: Print + AllocGlobal + Net<Listener = TcpListener, Stream = TcpStream>,
{
    let alloc = rt.alloc();
    let mute = silent::gives_up_on_a_mute_member(rt, alloc);
    print_claim(rt, "a member that says nothing is given up in time", mute)?;
    let half = silent::gives_up_after_one_answer(rt, alloc);
    print_claim(
        rt,
        "a member that answers once and then nothing is given up in time",
        half,
    )?;
    let full = silent::gives_up_on_a_dial(rt, alloc);
    print_claim(
        rt,
        "a dial to which nobody answers is given up in time",
        full,
    )
}
