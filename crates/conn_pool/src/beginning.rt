//! A talk begins: over an idle link of its member, or over one that was dialled for it.
ghost use Rattle.std.specs.Prelude.{◌≡◌, [], ◌∷◌, true, false, None, Ok, IsOk, IsErrOf, IsSomeAnd, IfOk, IfSome, OnOk, OnErr, is_ok, is_some};
ghost use Rattle.jk_io.specs.Told.{appended, IsEmpty};
ghost use Rattle.jk_io.specs.Talks.{failed_talk_of};
ghost use Rattle.conn_pool.specs.Begins.{IsRefusedBegin, Opens, sight_of};
ghost use Rattle.conn_pool.specs.Idle.{HasMember};
ghost use Rattle.conn_pool.specs.Reaches.{told_begun};

use crate::idle::Idle;
use crate::keeping::Pools;
use crate::lent::Lent;
use crate::tape::Tape;
use jk_io::{IoError, Link, NoMemory, TalkAsked};
use std::alloc::Global;
use std::sync::Wait;

/// Begins a talk over an idle link of its member, and says whether there was one. Where the talk can't be noted, the link
/// goes back to its pool.
pub(crate) fn begin_idle<L: Link + Drop, T: Tape, R: Wait>(
    pools: &Pools<'_, Idle<L>, R>,
    tape: &mut T,
    lent: &mut Option<Lent<L>>,
    asked: &TalkAsked<'_>,
) -> Result<bool, NoMemory>
    requires known { HasMember pools.now asked.now.lb asked.now.member }
    requires idle { T.is_idle tape.old }
    requires empty { IsEmpty (T.sent tape.old) × IsEmpty (T.received tape.old) }
    requires none { lent.old ≡ None }
    ensures there { IfOk result (λ there. is_some lent.new ≡ there) }
    ensures whose { IfSome lent.new (λ new. (new.lb ≡ asked.now.lb) × (new.member ≡ asked.now.member)) }
    ensures begins { IfSome lent.new (λ new. (new.began ≡ new.link.faults) × (new.faulty ≡ false)) }
    ensures idle_link { IfSome lent.new (λ new. new.dialled ≡ false) }
    ensures quiet { IfSome lent.new (λ new. (kept : L) × L.found_quiet kept new.given) }
    ensures fresh { IfOk result (λ there. asked.now.fresh ≡ true → there ≡ false) }
    ensures running { IfOk result (λ there. there ≡ true → T.is_running tape.new) }
    ensures begun { IfOk result (λ there. there ≡ true → IfSome (T.begun tape.new) (λ b. b ≡ told_begun asked.now false)) }
    ensures idle { IfOk result (λ there. there ≡ false → T.is_idle tape.new) }
    ensures err { OnErr result ((lent.new ≡ None) × T.is_idle tape.new) }
    ensures empty { IsEmpty (T.sent tape.new) × IsEmpty (T.received tape.new) }
    ensures same { T.talks tape.new ≡ T.talks tape.old }
{
    let Some(idle) = idle_link(pools, asked.lb, asked.member, asked.fresh) else {
        return Ok(false);
    };
    let noted = tape.begin(asked, false);
    if let Err(error) = noted {
        let _ = pools.hand_in(idle.home(), idle);
        return Err(error);
    }
    *lent = Some(Lent::over_idle(idle));
    Ok(true)
}

/// Begins a talk over the link that a dial answered for it, and answers that it is new.
pub(crate) fn begin_dialled<L: Link + Drop, T: Tape, R: Wait>(
    alloc: Global,
    pools: &Pools<'_, Idle<L>, R>,
    tape: &mut T,
    lent: &mut Option<Lent<L>>,
    asked: &TalkAsked<'_>,
    answer: Result<L, IoError>,
) -> Result<bool, IoError>
    requires known { HasMember pools.now asked.now.lb asked.now.member }
    requires idle { T.is_idle tape.old }
    requires empty { IsEmpty (T.sent tape.old) × IsEmpty (T.received tape.old) }
    requires none { lent.old ≡ None }
    ensures new_link { IfOk result (λ dialled. dialled ≡ true) }
    ensures began { OnOk result (Opens (told_begun asked.now true)
        (T.talks tape.old) (sight_of T.talks T.begun T.sent T.received tape.new) lent.new) }
    ensures refused { IsRefusedBegin (failed_talk_of asked.now) (T.talks tape.old) result
        (sight_of T.talks T.begun T.sent T.received tape.new) }
    ensures running { OnOk result (T.is_running tape.new) }
    ensures idle { OnErr result ((lent.new ≡ None) × T.is_idle tape.new) }
    ensures given { OnOk result (IsSomeAnd lent.new (λ new. answer ≡ Ok new.given)) }
    ensures fails { IsErrOf result IoError.Failed → IsErrOf answer IoError.Failed }
{
    let link = dialled(answer, tape, asked)?;
    begin_new(alloc, pools, tape, lent, asked, link)?;
    Ok(true)
}

// A dial's answer, noted where the dial failed, so that no talk begins.
fn dialled<L: Drop, T: Tape>(
    answer: Result<L, IoError>,
    tape: &mut T,
    asked: &TalkAsked<'_>,
) -> Result<L, IoError>
    requires idle { T.is_idle tape.old }
    requires empty { IsEmpty (T.sent tape.old) × IsEmpty (T.received tape.old) }
    ensures link { IsOk result → result ≡ answer }
    ensures refused { IsErrOf result IoError.Failed → result ≡ answer }
    ensures idle { T.is_idle tape.new }
    ensures empty { IsEmpty (T.sent tape.new) × IsEmpty (T.received tape.new) }
    ensures ok { OnOk result (T.talks tape.new ≡ T.talks tape.old) }
    ensures failed { IsErrOf result IoError.Failed → T.talks tape.new ≡ appended (T.talks tape.old) (failed_talk_of asked.now ∷ []) }
    ensures wanted { IsErrOf result IoError.NoMemory → T.talks tape.new ≡ T.talks tape.old }
{
    if let Err(IoError::Failed) = answer {
        note_failed(tape, asked)?;
    }
    answer
}

// Begins a talk over a link that was dialled for it, which gets the place where it stays. Where there is no memory for that or
// for the note of the talk, the link is closed.
fn begin_new<L: Link + Drop, T: Tape, R: Wait>(
    alloc: Global,
    pools: &Pools<'_, Idle<L>, R>,
    tape: &mut T,
    lent: &mut Option<Lent<L>>,
    asked: &TalkAsked<'_>,
    link: L,
) -> Result<(), NoMemory>
    requires known { HasMember pools.now asked.now.lb asked.now.member }
    requires idle { T.is_idle tape.old }
    requires empty { IsEmpty (T.sent tape.old) × IsEmpty (T.received tape.old) }
    requires none { lent.old ≡ None }
    ensures there { is_some lent.new ≡ is_ok result }
    ensures whose { IfSome lent.new (λ new. (new.lb ≡ asked.now.lb) × (new.member ≡ asked.now.member)) }
    ensures begins { IfSome lent.new (λ new. (new.began ≡ new.link.faults) × (new.faulty ≡ false)) }
    ensures new_link { IfSome lent.new (λ new. (new.dialled ≡ true) × (new.given ≡ link)) }
    ensures running { OnOk result (T.is_running tape.new) }
    ensures begun { OnOk result (IfSome (T.begun tape.new) (λ b. b ≡ told_begun asked.now true)) }
    ensures err { OnErr result ((lent.new ≡ None) × T.is_idle tape.new) }
    ensures empty { IsEmpty (T.sent tape.new) × IsEmpty (T.received tape.new) }
    ensures same { T.talks tape.new ≡ T.talks tape.old }
{
    let link = Box::new(alloc, link)?;
    if asked.fresh {
        close_idle(pools, asked.lb, asked.member);
    }
    tape.begin(asked, true)?;
    *lent = Some(Lent::over_new(asked.lb, asked.member, link));
    Ok(())
}

// An idle link of a member on which nothing came, the one put last of these, unless a fresh one is asked for. Those that were
// put later, and on which a byte came or whose other end closed, are closed. A lock says nothing of what lies behind it, so
// the link itself says whose it is.
fn idle_link<L: Link + Drop, R: Wait>(
    pools: &Pools<'_, Idle<L>, R>,
    lb: u32,
    member: u32,
    fresh: bool,
) -> Option<Idle<L>>
    requires { HasMember pools.now lb member }
    ensures fresh { fresh ≡ true → result ≡ None }
    ensures whose { IfSome result (λ idle. (idle.lb ≡ lb) × (idle.member ≡ member)) }
    ensures quiet { IfSome result (λ idle. (kept : L) × L.found_quiet kept idle.link.value) }
{
    if fresh {
        return None;
    }
    'links: for _ in 0..pools.size(lb, member) {
        let mut idle = pools.take(lb, member)?;
        if idle.is_of(lb, member) && idle.is_quiet() {
            return Some(idle);
        }
    }
    None
}

// Closes the idle link that was put last for a member, whose place a fresh one takes: a talk of the same request has just
// failed, so it may be dead too, and so a member never holds more links of this front than the front has threads. A
// container that keeps a thread for each link would otherwise let the fresh one wait until an idle one is closed.
fn close_idle<L: Drop, R: Wait>(pools: &Pools<'_, Idle<L>, R>, lb: u32, member: u32)
    requires { HasMember pools.now lb member }
{
    let _ = pools.take(lb, member);
}

// Notes a talk that never began, since its dial failed.
fn note_failed<T: Tape>(tape: &mut T, asked: &TalkAsked<'_>) -> Result<(), NoMemory>
    requires { T.is_idle tape.old }
    ensures noted { OnOk result (T.talks tape.new ≡ appended (T.talks tape.old)
        (failed_talk_of asked.now ∷ [])) }
    ensures err { OnErr result (T.talks tape.new ≡ T.talks tape.old) }
    ensures idle { T.is_idle tape.new }
    ensures empty { IsEmpty (T.sent tape.new) × IsEmpty (T.received tape.new) }
{
    tape.begin(asked, false)?;
    tape.finish(false);
    Ok(())
}
