//! A balancer's journal, followed as its bytes come.
ghost use Rattle.std.specs.Prelude.{◌≡◌, ℕ, List, [], ◌∷◌, ◌++◌, IfErr, IfOk, OnOk, true};
ghost use Rattle.journal_verdict.specs.Followed.{IsFed, IsFollowed, IsOpened, IsStoppedText};
ghost use Rattle.journal_verdict.specs.Machines.{AnswersByKnown, FollowerState, HasFed, ShowsRun, Knows, ShowsNone, is_going};
ghost use Rattle.journal_verdict.specs.declared.known.Known.{Known as AnyKnown};
ghost use Rattle.journal_verdict.specs.declared.error.FollowError.{FollowError as AnyError};

use crate::error::FollowError;
use crate::known::Known;
use crate::machine::Machine;
use crate::run::Run;
use crate::view::FollowView;
use jk_io::{Bytes, NoMemory};
use std::alloc::Global;
use std::marker::Model;

/// What a balancer's journal shows, as far as its bytes came.
#[derive(Drop)]
pub struct Follower {
    known: Known,
    /// The bytes after the last LF.
    part: Bytes,
}

impl Model for Follower {
    ghost use Rattle.std.specs.Prelude.{ℕ, List};
    ghost use Rattle.journal_verdict.specs.Machines.{FollowerState, Knows};

    ghost Value = { FollowerState };

    ghost view = { λ f. record { known = f.known; part = f.part } };

    ghost invariant = { λ f. (bytes : List ℕ) × Knows f.known f.part bytes };
}

/// Takes a further byte; one that ends no line is put behind `part`.
fn take_byte(
    alloc: Global,
    machine: &mut Machine,
    number: &mut u64,
    part: &mut Bytes,
    byte: u8,
) -> Result<(), FollowError>
    requires { (bytes : List ℕ) × Knows (AnyKnown.Going machine.old number.old) part.old bytes }
    ensures ok { (bytes : List ℕ) → Knows (AnyKnown.Going machine.old number.old) part.old bytes
        → OnOk result (Knows (AnyKnown.Going machine.new number.new) part.new (bytes ++ byte ∷ [])) }
    ensures err { (bytes : List ℕ) → Knows (AnyKnown.Going machine.old number.old) part.old bytes
        → IfErr result (IsStoppedText (bytes ++ byte ∷ [])) }
{
    if byte != b'\n' {
        return Ok(part.push(byte)?);
    }
    machine.take(alloc, part.as_slice(), *number)?;
    let Some(next) = number.checked_add(1) else {
        return Err(FollowError::NoMemory);
    };
    *number = next;
    part.clear();
    Ok(())
}

/// Takes further bytes.
fn follow(
    alloc: Global,
    machine: &mut Machine,
    number: &mut u64,
    part: &mut Bytes,
    piece: &[u8],
) -> Result<(), FollowError>
    requires { (bytes : List ℕ) × Knows (AnyKnown.Going machine.old number.old) part.old bytes }
    ensures ok { (bytes : List ℕ) → Knows (AnyKnown.Going machine.old number.old) part.old bytes
        → OnOk result (Knows (AnyKnown.Going machine.new number.new) part.new (bytes ++ piece.now)) }
    ensures err { (bytes : List ℕ) → Knows (AnyKnown.Going machine.old number.old) part.old bytes
        → IfErr result (IsStoppedText (bytes ++ piece.now)) }
{
    for byte in piece {
        take_byte(alloc, machine, number, part, *byte)?;
    }
    Ok(())
}

/// Takes further bytes, unless a line was refused.
fn fed(alloc: Global, known: &mut Known, part: &mut Bytes, piece: &[u8])
    requires { (bytes : List ℕ) × Knows known.old part.old bytes }
    ensures known { (bytes : List ℕ) → Knows known.old part.old bytes → Knows known.new part.new (bytes ++ piece.now) }
    ensures stopped { (e : AnyError) → known.old ≡ Known.Stopped e → known.new ≡ Known.Stopped e }
{
    let Known::Going(machine, number) = known else {
        return;
    };
    if let Err(error) = follow(alloc, machine, number, part, piece) {
        *known = Known::Stopped(error);
    }
}

/// What is answered of what is known. A refusal is answered and kept; where memory for the second one is wanting, that is the
/// refusal.
fn answered(known: &mut Known) -> Result<(), FollowError>
    ensures kept { (part : List ℕ) → (bytes : List ℕ) → Knows known.old part bytes → Knows known.new part bytes }
    ensures said { (part : List ℕ) → (bytes : List ℕ) → Knows known.old part bytes → IsFed bytes result }
    ensures answers { AnswersByKnown known.old known.new result }
{
    let Known::Stopped(error) = known else {
        return Ok(());
    };
    let again = error.again();
    if matches!(again, FollowError::NoMemory) {
        *known = Known::Stopped(FollowError::NoMemory);
    }
    Err(again)
}

/// The view of a run.
fn view_of(run: &Run) -> Result<FollowView, NoMemory>
    ensures { IfOk result (ShowsRun run.now) }
{
    Ok(FollowView {
        name: run.name.copy()?,
        direct: run.direct,
        method: run.method,
        view: run.book.view()?,
    })
}

/// What is shown of the lines that were taken.
fn shown(machine: &Machine) -> Result<Option<FollowView>, NoMemory>
    ensures { (number : ℕ) → (part : List ℕ) → (bytes : List ℕ) → Knows (AnyKnown.Going machine.now number) part bytes
        → IfOk result (IsOpened bytes) }
{
    match &machine.run {
        Some(run) => Ok(Some(view_of(run)?)),
        None => Ok(None),
    }
}

impl Follower {
    /// Before the first byte. No memory is taken.
    pub fn new(alloc: Global) -> Follower
        ensures { HasFed result [] }
    {
        Follower {
            known: Known::Going(Machine::new(alloc), 1),
            part: Bytes::new(alloc),
        }
    }

    /// Takes further bytes. After a refusal each later call answers the same one, or that memory is wanting.
    pub fn feed(&mut self, alloc: Global, piece: &[u8]) -> Result<(), FollowError>
        ensures fed { (bytes : List ℕ) → HasFed self.old bytes → HasFed self.new (bytes ++ piece.now) }
        ensures said { (bytes : List ℕ) → HasFed self.old bytes → IsFed (bytes ++ piece.now) result }
        ensures answers { (known : AnyKnown) × AnswersByKnown known self.new.known result
            × ((e : AnyError) → self.old.known ≡ Known.Stopped e → known ≡ Known.Stopped e) }
    {
        fed(alloc, &mut self.known, &mut self.part, piece);
        answered(&mut self.known)
    }

    /// The last opening that is whole, and the entries after it that are.
    pub fn view(&self) -> Result<Option<FollowView>, NoMemory>
        ensures followed { (bytes : List ℕ) → HasFed self.now bytes → IfOk result (IsFollowed bytes) }
        ensures going { is_going self.now.known ≡ true → (bytes : List ℕ) → HasFed self.now bytes → IfOk result (IsOpened bytes) }
        ensures stopped { (e : AnyError) → self.now.known ≡ Known.Stopped e → ShowsNone e result }
    {
        match &self.known {
            Known::Going(machine, _) => shown(machine),
            Known::Stopped(FollowError::NoMemory) => Err(NoMemory),
            Known::Stopped(_) => Ok(None),
        }
    }
}
