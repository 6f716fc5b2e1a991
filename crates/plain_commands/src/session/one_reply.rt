//! A reach in memory whose first link has a reply to come, and each later one nothing.
ghost use Rattle.std.specs.Prelude.{◌≡◌, [], ◌∷◌, None, IfOk};
ghost use Rattle.plain_commands.specs.DryLinks.{reply_link};
ghost use Rattle.plain_commands.specs.DryReaches.{IsOverLinks};

use jk_io::{
    Awaited, Beside, Bytes, IoError, Link, ListOf, Meanings, MemLink, MemReach, NoMemory,
    NumberList, Reach, Sink, Source, Talk, TalkAsked,
};
use std::alloc::Global;
use std::marker::{Brand, Model, PhantomData};

/// The reply that a reach has.
pub(crate) trait ReplyName {
    ghost use Rattle.std.specs.Prelude.{List, ℕ};

    ghost reply: { List ℕ };
}

impl ReplyName for Brand {
    ghost use Rattle.std.specs.Prelude.{[]};

    ghost reply = { [] };
}

/// A `MemReach` over one link that has the reply to come; its type keeps that its talks were done over that link and
/// empty ones.
#[derive(Drop)]
pub(crate) struct OneReply<N: ReplyName> {
    reach: MemReach,
    of: PhantomData<N>,
}

impl<N: ReplyName> Model for OneReply<N> {
    ghost use Rattle.std.specs.Prelude.{[], ◌∷◌};
    ghost use Rattle.jk_io.specs.MemReaches.{MemReachState};
    ghost use Rattle.plain_commands.specs.DryLinks.{reply_link};
    ghost use Rattle.plain_commands.specs.DryReaches.{IsOverLinks};

    ghost Value = { MemReachState };

    ghost view = { λ r. r.reach };

    ghost invariant = { λ r. IsOverLinks (reply_link N.reply ∷ []) r.reach };
}

/// A link that has these bytes to come.
pub(crate) fn link_of(alloc: Global, reply: &[u8]) -> Result<MemLink, NoMemory>
    ensures { IfOk result (λ link. link ≡ reply_link reply.now) }
{
    let incoming = Bytes::from_slice(alloc, reply)?;
    Ok(MemLink::new(alloc, incoming, NumberList::new(alloc)))
}

fn one_link(alloc: Global, reply: &[u8]) -> Result<ListOf<MemLink>, NoMemory>
    ensures { IfOk result (λ links. links ≡ reply_link reply.now ∷ []) }
{
    let mut links = ListOf::new(alloc);
    links.push(link_of(alloc, reply)?)?;
    Ok(links)
}

impl<N: ReplyName> OneReply<N> {
    /// A reach over balancers of these numbers of members.
    pub fn new(alloc: Global, reply: &[u8], sizes: ListOf<u32>) -> Result<OneReply<N>, NoMemory>
        requires reply { reply.now ≡ N.reply }
        ensures idle { IfOk result (λ r. (r.book.begun ≡ None) × (r.book.talks ≡ [])) }
        ensures sizes { IfOk result (λ r. (r.sizes ≡ sizes) × (r.faults ≡ 0)) }
    {
        let links = one_link(alloc, reply)?;
        Ok(OneReply {
            reach: MemReach::new(alloc, links, sizes, NumberList::new(alloc)),
            of: PhantomData,
        })
    }

    /// The talks that ended, in order.
    pub fn talks(&self) -> &[Talk]
        ensures { result.now ≡ self.now.book.talks }
    {
        self.reach.talks()
    }

    /// How many calls failed.
    pub fn faults(&self) -> u64
        ensures { result ≡ self.now.faults }
    {
        self.reach.faults()
    }

    // Tells what the type keeps: its talks were done over these links.
    pub fn vouch(&self)
        ensures { IsOverLinks (reply_link N.reply ∷ []) self.now }
    {
        self.reach.faults();
    }
}

impl<N: ReplyName> Meanings for OneReply<N> {
    ghost use Rattle.std.specs.Prelude.{Some, is_some};

    type Beside = Beside;

    ghost incoming = { λ r. Some r.running.link.incoming };

    ghost received = { λ r. Some r.book.received };

    ghost sent = { λ r. Some r.book.sent };

    ghost beside = { λ r. record { runs = is_some r.book.begun; sizes = r.sizes; begun = r.book.begun; talks = Some r.book.talks } };

    ghost faults = { λ r. r.faults };

    ghost is_open = { λ r. is_some r.book.begun };
}

impl<N: ReplyName> Source for OneReply<N> {
    fn read(&mut self, buf: &mut [u8]) -> Result<usize, IoError> {
        self.reach.read(buf)
    }
}

impl<N: ReplyName> Sink for OneReply<N> {
    fn write(&mut self, piece: &[u8]) -> Result<usize, IoError> {
        self.reach.write(piece)
    }
}

impl<N: ReplyName> Link for OneReply<N> {
    fn await_next(&mut self, _what: Awaited) {}
}

impl<N: ReplyName> Reach for OneReply<N> {
    ghost use Rattle.std.specs.Prelude.{refl};

    fn begin(&mut self, alloc: Global, asked: &TalkAsked<'_>) -> Result<bool, IoError> {
        self.reach.begin(alloc, asked)
    }

    fn finish(&mut self, keep: bool) {
        self.reach.finish(keep);
    }

    /// Its links stay as they are.
    fn rest(&mut self, _alloc: Global, _now: u64) -> Result<(), NoMemory> {
        Ok(())
    }

    ghost open_in_talk = { λ r. refl };
}
