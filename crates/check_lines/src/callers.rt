//! Small callers of a desk, proved from its trait alone.
ghost use Rattle.std.specs.Prelude.{◌≡◌, ◌+◌, ◌<◌, ◌≤◌, ◌⊎◌, true, length, IfSome, IfOk, IfErr, OnOk, OnErr};
ghost use Rattle.lb_book.specs.Desks.{Commands, DeskState, KeepsDesk, RefusesChoice, RefusesCommand, Shows};
ghost use Rattle.check_lines.specs.Once.{EndsCall, GainsAsMany, IsUpToDate, LeavesNoneDue, WhereRefused};
ghost use Rattle.lb_model.specs.declared.journal.TheConstants.{MOST_BYTES};

use lb_book::Desk;
use lb_book::desk::Choice;
use lb_model::{AdminError, Ask, Command, Outcome, RoomError, Stray};

/// How one exchange ended.
#[derive(PartialEq, Eq, Drop)]
pub enum Once<M> {
    /// This member was chosen, and its ticket came back.
    Returned { member: u32 },
    Unchosen,
    Refused(RoomError<M>),
    Stray(Stray),
}

/// Asks for a member and hands its lease back.
pub fn one_exchange<D: Desk>(
    desk: &mut D,
    lb: u32,
    session: u32,
    at: u64,
    ask: &Ask,
    outcome: Outcome,
) -> Once<D::Mark>
    requires known { lb < length (D.state desk.old).sizes }
    requires caller { IfSome (D.state desk.old).caller (λ n. session ≡ n) }
    requires bytes { outcome.bytes ≤ MOST_BYTES }
    ensures held { (D.state desk.new).held ≡ (D.state desk.old).held }
    ensures ends { EndsCall (D.state desk.old) (D.state desk.new) lb ask.now outcome result }
    ensures refused { WhereRefused result (RefusesChoice D.numbers (D.state desk.old) (D.state desk.new) lb session at) }
    ensures due { LeavesNoneDue (D.state desk.new) lb at result }
    ensures added { GainsAsMany (D.state desk.old) (D.state desk.new) }
    ensures kept { KeepsDesk (D.state desk.old) (D.state desk.new) }
{
    match desk.choose(lb, session, at, ask) {
        Ok(Choice::Chosen { member, lease }) => {
            match desk.hand_back(session, at, lease, outcome) {
                Ok(()) => Once::Returned { member },
                Err(stray) => Once::Stray(stray),
            }
        }
        Ok(Choice::NoMember | Choice::Forced) => Once::Unchosen,
        Err(error) => Once::Refused(error),
    }
}

/// Does a command and looks at its balancer.
pub fn change_and_look<D: Desk>(
    desk: &mut D,
    lb: u32,
    session: u32,
    at: u64,
    command: &Command,
) -> Result<D::Shown, AdminError<D::Mark>>
    requires known { lb < length (D.state desk.old).sizes }
    requires caller { IfSome (D.state desk.old).caller (λ n. session ≡ n) }
    ensures page { IfOk result (λ shown. Commands (D.state desk.old) (D.state desk.new) lb session at command.now
        × Shows (D.state desk.new) lb (D.view shown)) }

    // It is refused as the command is, or the look wanted memory.
    ensures refused { IfErr result (λ e. RefusesCommand D.numbers (D.state desk.old) (D.state desk.new) lb session at command.now e
        ⊎ (e ≡ AdminError.NoMemory)) }
    ensures due { OnOk result (IsUpToDate (D.state desk.new) lb at) }
    ensures held { (D.state desk.new).held ≡ (D.state desk.old).held }
    ensures added { GainsAsMany (D.state desk.old) (D.state desk.new) }
    ensures kept { KeepsDesk (D.state desk.old) (D.state desk.new) }
{
    desk.command(lb, session, at, command)?;
    Ok(desk.look(lb)?)
}
