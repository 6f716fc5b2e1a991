//! The kind of the reply that a link has begun to write since its last flush.
ghost use Rattle.std.specs.Prelude.{◌≡◌};
ghost use Rattle.real_io.specs.Unflushed.{replies_after, unflushed_with};

/// What was written since the last flush.
#[derive(Clone, Copy)]
pub(crate) enum Unflushed {
    Nothing,
    /// A reply that a final one follows, such as 100 Continue.
    Interim,
    Final,
}

impl Unflushed {
    /// A piece was written: the first one after a flush tells what reply it is.
    pub(crate) fn with(self, piece: &[u8]) -> Unflushed
        ensures { result ≡ unflushed_with self piece.now }
    {
        match self {
            Unflushed::Nothing if piece.starts_with(b"HTTP/1.1 1") => Unflushed::Interim,
            Unflushed::Nothing => Unflushed::Final,
            _ => self,
        }
    }

    /// How many replies went out whole, once it did.
    pub(crate) fn counted(self, replies: u64) -> u64
        ensures { result ≡ replies_after self replies }
    {
        match self {
            Unflushed::Final => replies.saturating_add(1),
            _ => replies,
        }
    }
}
