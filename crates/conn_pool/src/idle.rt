//! A link between its talks. It tells its balancer and member, and counts the looks of the watch.
ghost use Rattle.std.specs.Prelude.{◌≡◌, ◌↔◌, true, IsTrue};
ghost use Rattle.jk_io.specs.Moments.{moment};

use crate::pool::Home;
use jk_io::Link;

/// A link between its talks, with its balancer and member. The end of a talk makes one, and no other call does.
#[derive(Drop)]
pub struct Idle<L> {
    pub(crate) lb: u32,
    pub(crate) member: u32,
    /// It stays where it is while it goes from hand to hand.
    pub(crate) link: Box<L>,
    /// The looks since its last talk.
    pub(crate) looks: u32,
}

impl<L> Idle<L> {
    /// The looks since its last talk.
    pub fn looks(&self) -> u32
        ensures { result ≡ self.now.looks }
    {
        self.looks
    }

    /// The link itself.
    pub fn link(&self) -> &L
        ensures { result.now ≡ self.now.link.value }
    {
        &*self.link
    }

    /// Whether the link is one of this member.
    pub(crate) fn is_of(&self, lb: u32, member: u32) -> bool
        ensures { IsTrue result ↔ (self.now.lb ≡ lb) × (self.now.member ≡ member) }
    {
        self.lb == lb && self.member == member
    }

    /// Where the link belongs.
    pub(crate) fn home(&self) -> Home
        ensures { (result.lb ≡ self.now.lb) × (result.member ≡ self.now.member) }
    {
        Home {
            lb: self.lb,
            member: self.member,
        }
    }
}

impl<L: Link> Idle<L> {
    /// Whether no byte came and the other end didn't close, as far as can be seen without waiting.
    pub(crate) fn is_quiet(&mut self) -> bool
        ensures found { result ≡ true → L.found_quiet self.old.link.value self.new.link.value }
        ensures whose { (self.new.lb ≡ self.old.lb) × (self.new.member ≡ self.old.member) }
        ensures same { moment L.incoming L.received L.sent L.faults self.new.link.value
            ≡ moment L.incoming L.received L.sent L.faults self.old.link.value }
    {
        self.link.is_quiet()
    }
}
