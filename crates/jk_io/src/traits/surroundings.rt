//! Files, a clock, what dials and what accepts.
ghost use Rattle.std.specs.Prelude.{◌≡◌, ◌≢◌, ℕ, Bool, ◌+◌, ◌<◌, ◌≤◌, List, [], ◌∷◌, Option, Some, None, IfSome, IfNone, IsSomeAnd, IfOk, IsOk, OnErr, IsErrOf, length};
ghost use Rattle.jk_io.specs.Told.{appended, prepended, IsEmpty, Rose, HasCause};
ghost use Rattle.jk_io.specs.Answers.{Answers};
ghost use Rattle.jk_io.specs.Stored.{content_of};

use crate::byte_list::Bytes;
use crate::failures::{FileError, IoError};
use crate::traits::streams::Link;
use std::alloc::Global;

/// Files that are read whole.
pub trait Files {
    ghost use Rattle.jk_io.specs.declared.whole_input.TheConstants.{MAX_INPUT_BYTES};
    ghost use Rattle.std.specs.Prelude.{◌≡◌, ℕ, ◌<◌, ◌≤◌, List, Option, IfSome, IsSomeAnd, IfOk, IsErrOf, length};
    ghost use Rattle.jk_io.specs.Told.{Rose};
    ghost use Rattle.jk_io.specs.Stored.{content_of};
    ghost use Rattle.jk_io.specs.declared.failures.FileError.{FileError};

    // the files, each a pair of its name and its content; of two with one name the first counts
    ghost files: { Self → Option (List (List ℕ × List ℕ)) };

    ghost faults: { Self → ℕ };

    /// The content of a file. A name that no file has is Failed.
    fn read_file(&mut self, alloc: Global, name: &Bytes) -> Result<Bytes, FileError>
        ensures found { IfOk result (λ bytes. IfSome (files self.old) (λ all. content_of all name.now ≡ Some bytes)) }
        ensures short { IfOk result (λ bytes. length bytes ≤ MAX_INPUT_BYTES) }
        ensures too_long { IsErrOf result FileError.TooLong
            → IfSome (files self.old) (λ all. IsSomeAnd (content_of all name.now) (λ bytes. MAX_INPUT_BYTES < length bytes)) }
        ensures failed { IsErrOf result FileError.Failed → Rose (faults self.old) (faults self.new) }
        ensures no_fewer { faults self.old ≤ faults self.new }
        ensures calm { (IsErrOf result FileError.Failed → ⊥) → faults self.new ≡ faults self.old }
        ensures same { files self.new ≡ files self.old };
}

/// Moments in whole seconds.
pub trait Clock {
    // the answers to come; the last one stands for all later ones
    ghost answers: { Self → Option (List ℕ) };

    fn now(&mut self) -> u64
        ensures { Answers (answers self.old) result (answers self.new) };
}

/// What makes links to a host and port.
pub trait Dial {
    type L: Link + Drop + Send;

    ghost faults: { Self → ℕ };

    // before, the host and port of a dial, the link that it gave, and after; where it isn't told, each may be so
    ghost gives: { Self → List ℕ → ℕ → Self.L → Self → Type 0 } = { λ _ _ _ _ _. Unit {0} };

    // the first was told what its next dials await, and became the last; where it isn't told, each may be so
    ghost heard: { Self → ℕ → Bool → Self → Type 0 } = { λ _ _ _ _. Unit {0} };

    fn dial(&mut self, alloc: Global, host: &Bytes, port: u16) -> Result<Self::L, IoError>
        ensures gave { IfOk result (λ link. gives self.old host.now port link self.new) }
        ensures clean { IsOk result → faults self.new ≡ faults self.old }
        ensures cause { HasCause (faults self.old) (faults self.new) result };

    /// Is told after how many milliseconds the next dials fail, where 0 is without limit, and whether the system is to see
    /// whether the other ends of their links are still there. In memory nothing waits.
    fn await_dial(&mut self, millis: u64, keepalive: bool)
        ensures heard { heard self.old millis keepalive self.new }
        ensures same { faults self.new ≡ faults self.old };

    /// Is told that a link, which another worker's dial may have made, serves this dial's worker from now on. Only the
    /// real thing has a use for it.
    fn lend(&self, _link: &Self::L) {}
}

/// Who is at the other end of a link.
#[derive(Drop)]
pub struct Peer {
    /// The address in text, without a port.
    pub addr: Bytes,
}

/// What accepts clients, and takes their links back.
pub trait Door {
    ghost use Rattle.std.specs.Prelude.{◌≡◌, ℕ, ◌+◌, ◌<◌, List, [], ◌∷◌, Option, IfSome, IfNone, IsOk, IfOk, OnErr};
    ghost use Rattle.jk_io.specs.Told.{appended, prepended, IsEmpty, HasCause};
    ghost use Rattle.jk_io.specs.declared.traits.surroundings.Peer.{Peer};

    type L: Link + Drop;

    // the clients to come, each a link and its peer
    ghost coming: { Self → Option (List (Self.L × Peer)) };

    // the links that were left, in order
    ghost left: { Self → Option (List Self.L) };

    // how many links can still be left
    ghost room: { Self → ℕ };

    ghost faults: { Self → ℕ };

    /// The next client; None once the door is closed.
    fn accept(&mut self, alloc: Global) -> Result<Option<(Self::L, Peer)>, IoError>
        ensures client { IfOk result (λ answer. IfSome answer (λ c. coming self.old ≡ prepended (c ∷ []) (coming self.new))) }
        ensures one_more { IfOk result (λ answer. IfSome answer (λ _. room self.new ≡ room self.old + 1)) }

        ensures closed { IfOk result (λ answer. IfNone answer (IsEmpty (coming self.old) × (coming self.new ≡ coming self.old))) }
        ensures no_more { IfOk result (λ answer. IfNone answer (room self.new ≡ room self.old)) }

        // After a refusal no client was taken.
        ensures kept_on_error { OnErr result ((coming self.new ≡ coming self.old) × (room self.new ≡ room self.old)) }
        ensures same { left self.new ≡ left self.old }
        ensures cause { HasCause (faults self.old) (faults self.new) result }
        ensures steady { IsOk result → faults self.new ≡ faults self.old };

    /// Takes a link back, once its client was served.
    fn leave(&mut self, link: Self::L)
        requires { 0 < room self.old }
        ensures left { left self.new ≡ appended (left self.old) (link ∷ []) }
        ensures one_less { room self.new + 1 ≡ room self.old }
        ensures same { (coming self.new ≡ coming self.old) × (faults self.new ≡ faults self.old) };
}
