//! Tapes: what a pooled reach notes of its talks.
ghost use Rattle.std.specs.Prelude.{◌≡◌, ◌≤◌, ℕ, List, Option, [], ◌∷◌, length, IfSome, OnOk, OnErr};
ghost use Rattle.jk_io.specs.Told.{appended, IsEmpty};
ghost use Rattle.jk_io.specs.Talks.{IsNoteOf};
ghost use Rattle.conn_pool.specs.Reaches.{told_begun};

use jk_io::{Begun, NoMemory, Talk, TalkAsked, TalkBook};
use std::alloc::Global;
use std::marker::Model;

/// Notes talks, or nothing.
pub trait Tape {
    ghost use Rattle.std.specs.Prelude.{◌≡◌, ℕ, ◌≤◌, List, Option, [], ◌∷◌, length, IfSome, OnOk, OnErr};
    ghost use Rattle.jk_io.specs.Told.{appended, IsEmpty};
    ghost use Rattle.jk_io.specs.Talks.{IsNoteOf};
    ghost use Rattle.jk_io.specs.declared.reaching.Talk.{Talk};
    ghost use Rattle.jk_io.specs.declared.reaching.Begun.{Begun};
    ghost use Rattle.conn_pool.specs.Reaches.{told_begun};

    // the talks that ended
    ghost talks: { Self → Option (List Talk) };

    // what the running talk was begun with
    ghost begun: { Self → Option Begun };

    // what was sent and received in it
    ghost sent: { Self → Option (List ℕ) };

    ghost received: { Self → Option (List ℕ) };

    // no talk runs; with `is_running`, one does; each as far as it is told
    ghost is_idle: { Self → Type 0 };

    ghost is_running: { Self → Type 0 };

    // this many bytes can be noted without taking memory
    ghost has_room: { Self → ℕ → Type 0 };

    fn begin(&mut self, asked: &TalkAsked<'_>, dialled: bool) -> Result<(), NoMemory>
        requires { is_idle self.old }
        ensures running { OnOk result (is_running self.new) }
        ensures begun { OnOk result (IfSome (begun self.new) (λ b. b ≡ told_begun asked.now dialled)) }
        ensures idle { OnErr result (is_idle self.new) }
        ensures empty { IsEmpty (sent self.new) × IsEmpty (received self.new) }
        ensures talks { talks self.new ≡ talks self.old };

    /// Takes the room to note up to `n` bytes.
    fn room(&mut self, n: usize) -> Result<(), NoMemory>
        requires { is_running self.old }
        ensures room { OnOk result ((m : ℕ) → m ≤ n → has_room self.new m) }
        ensures running { is_running self.new }
        ensures same { (talks self.new ≡ talks self.old) × (begun self.new ≡ begun self.old) × (sent self.new ≡ sent self.old)
            × (received self.new ≡ received self.old) };

    fn sent(&mut self, piece: &[u8])
        requires running { is_running self.old }
        requires room { has_room self.old (length piece.now) }
        ensures added { sent self.new ≡ appended (sent self.old) piece.now }
        ensures running { is_running self.new }
        ensures same { (talks self.new ≡ talks self.old) × (begun self.new ≡ begun self.old) × (received self.new ≡ received self.old) };

    fn received(&mut self, piece: &[u8])
        requires running { is_running self.old }
        requires room { has_room self.old (length piece.now) }
        ensures added { received self.new ≡ appended (received self.old) piece.now }
        ensures running { is_running self.new }
        ensures same { (talks self.new ≡ talks self.old) × (begun self.new ≡ begun self.old) × (sent self.new ≡ sent self.old) };

    fn finish(&mut self, keep: bool)
        requires { is_running self.old }
        ensures noted { (note : Talk) → IsNoteOf (begun self.old) (sent self.old) (received self.old) keep note
            → talks self.new ≡ appended (talks self.old) (note ∷ []) }
        ensures idle { is_idle self.new }
        ensures empty { IsEmpty (sent self.new) × IsEmpty (received self.new) };

    // nothing is said where no talk runs
    ghost idle_is_empty: { (t : Self) → is_idle t → IsEmpty (sent t) × IsEmpty (received t) };
}

/// A tape that keeps the talks.
#[derive(Drop)]
pub struct MemTape {
    book: TalkBook,
}

impl Model for MemTape {
    ghost use Rattle.jk_io.specs.TalkBooks.{TalkBookState};

    ghost Value = { TalkBookState };

    ghost view = { λ t. t.book };
}

impl MemTape {
    /// A tape with no talk on it.
    pub fn new(alloc: Global) -> MemTape
        ensures { result ≡ record { talks = []; begun = None; sent = []; received = []; room = 0 } }
    {
        MemTape {
            book: TalkBook::new(alloc),
        }
    }

    /// The talks that ended, in order.
    pub fn talks(&self) -> &[Talk]
        ensures { result.now ≡ self.now.talks }
    {
        self.book.talks()
    }
}

impl Tape for MemTape {
    ghost use Rattle.std.specs.Prelude.{◌≡◌, ◌≤◌, [], Some, None, IsSome};

    ghost talks = { λ t. Some t.talks };

    ghost begun = { λ t. t.begun };

    ghost sent = { λ t. Some t.sent };

    ghost received = { λ t. Some t.received };

    ghost is_idle = { λ t. (t.begun ≡ None) × (t.sent ≡ []) × (t.received ≡ []) };

    ghost is_running = { λ t. IsSome t.begun };

    ghost has_room = { λ t n. n ≤ t.room };

    fn begin(&mut self, asked: &TalkAsked<'_>, dialled: bool) -> Result<(), NoMemory> {
        let host = asked.host.copy()?;
        self.book.begin(Begun {
            lb: asked.lb,
            member: asked.member,
            host,
            port: asked.port,
            fresh: asked.fresh,
            dialled,
            came: None,
        })
    }

    fn room(&mut self, n: usize) -> Result<(), NoMemory> {
        self.book.reserve(n)
    }

    fn sent(&mut self, piece: &[u8]) {
        self.book.sent(piece);
    }

    fn received(&mut self, piece: &[u8]) {
        self.book.received(piece);
    }

    fn finish(&mut self, keep: bool) {
        self.book.finish(keep);
    }

    ghost idle_is_empty = { λ t idle. (idle.1, idle.2) };
}

/// A tape that keeps nothing.
#[derive(Drop)]
pub struct NoTape;

impl Tape for NoTape {
    ghost use Rattle.std.specs.Prelude.{None};

    ghost talks = { λ _. None };

    ghost begun = { λ _. None };

    ghost sent = { λ _. None };

    ghost received = { λ _. None };

    ghost is_idle = { λ _. Unit {0} };

    ghost is_running = { λ _. Unit {0} };

    ghost has_room = { λ _ _. Unit {0} };

    fn begin(&mut self, _asked: &TalkAsked<'_>, _dialled: bool) -> Result<(), NoMemory> {
        Ok(())
    }

    fn room(&mut self, _n: usize) -> Result<(), NoMemory> {
        Ok(())
    }

    fn sent(&mut self, _piece: &[u8]) {}

    fn received(&mut self, _piece: &[u8]) {}

    fn finish(&mut self, _keep: bool) {}

    ghost idle_is_empty = { λ t idle. (tt, tt) };
}
