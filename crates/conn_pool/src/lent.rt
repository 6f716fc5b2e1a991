//! The link of a running talk. It tells its balancer and member.
ghost use Rattle.std.specs.Prelude.{◌≡◌, ◌<◌, ◌≤◌, true, false, None, IsSome, IfOk, IfSome, length};
ghost use Rattle.jk_io.specs.Moments.{moment};
ghost use Rattle.conn_pool.specs.Reaches.{FlushesLink, HearsLink, MarksRefusal, ReadsLink, WritesLink};

use crate::idle::Idle;
use jk_io::{Awaited, IoError, Link};
use std::marker::Model;
use std::snapshot::Snapshot;

/// A link while a talk runs over it, with its balancer and member. The link comes out by `kept` alone.
#[derive(Drop)]
pub(crate) struct Lent<L: Link + Drop> {
    lb: u32,
    member: u32,
    /// The talk's begin dialled it.
    dialled: bool,
    link: Box<L>,
    /// A call of the link was refused in this talk.
    faulty: bool,
    /// The link as it was when the talk began.
    began: Snapshot<L>,
}

impl<L: Link + Drop> Model for Lent<L> {
    ghost use Rattle.std.specs.Prelude.{◌≡◌, false};
    ghost use Rattle.jk_io.specs.Moments.{moment};
    ghost use Rattle.conn_pool.specs.Reaches.{LentState};

    ghost Value = { LentState L };

    ghost view = { λ l. record {
      lb = l.lb;
      member = l.member;
      dialled = l.dialled;
      given = l.began.value;
      link = moment L.incoming L.received L.sent L.faults l.link.value;
      began = L.faults l.began.value;
      faulty = l.faulty;
    } };

    ghost invariant = { λ l. l.faulty ≡ false → L.faults l.link.value ≡ L.faults l.began.value };
}

impl<L: Link + Drop> Lent<L> {
    /// A link that this talk's begin dialled for a member.
    pub(crate) fn over_new(lb: u32, member: u32, link: Box<L>) -> Lent<L>
        ensures whose { (result.lb ≡ lb) × (result.member ≡ member) }
        ensures link { (result.dialled ≡ true) × (result.given ≡ link.value) }
        ensures begins { (result.link.faults ≡ result.began) × (result.faulty ≡ false) }
    {
        Lent::over(lb, member, true, link)
    }

    pub(crate) fn link(&self) -> &L {
        &*self.link
    }

    /// A link that was idle.
    pub(crate) fn over_idle(idle: Idle<L>) -> Lent<L>
        ensures whose { (result.lb ≡ idle.lb) × (result.member ≡ idle.member) }
        ensures link { (result.dialled ≡ false) × (result.given ≡ idle.link.value) }
        ensures begins { (result.link.faults ≡ result.began) × (result.faulty ≡ false) }
    {
        let Idle {
            lb,
            member,
            link,
            looks: _,
        } = idle;
        Lent::over(lb, member, false, link)
    }

    fn over(lb: u32, member: u32, dialled: bool, link: Box<L>) -> Lent<L>
        ensures whose { (result.lb ≡ lb) × (result.member ≡ member) }
        ensures link { (result.dialled ≡ dialled) × (result.given ≡ link.value) }
        ensures begins { (result.link.faults ≡ result.began) × (result.faulty ≡ false) }
    {
        let began = Snapshot::of(&*link);
        Lent {
            lb,
            member,
            dialled,
            link,
            faulty: false,
            began,
        }
    }

    pub(crate) fn read(&mut self, buf: &mut [u8]) -> Result<usize, IoError>
        requires { 0 < length buf.old }
        ensures count { IfOk result (λ n. n ≤ length buf.new) }
        ensures link { ReadsLink self.old.link self.new.link buf.new result }
        ensures marks { MarksRefusal self.old self.new result }
    {
        let answer = self.link.read(buf);
        if answer.is_err() {
            self.faulty = true;
        }
        answer
    }

    pub(crate) fn write(&mut self, piece: &[u8]) -> Result<usize, IoError>
        requires { 0 < length piece.now }
        ensures count { IfOk result (λ n. (0 < n) × (n ≤ length piece.now)) }
        ensures link { WritesLink self.old.link self.new.link piece.now result }
        ensures marks { MarksRefusal self.old self.new result }
    {
        let answer = self.link.write(piece);
        if answer.is_err() {
            self.faulty = true;
        }
        answer
    }

    pub(crate) fn flush(&mut self) -> Result<(), IoError>
        ensures { FlushesLink self.old self.new result }
    {
        let answer = self.link.flush();
        if answer.is_err() {
            self.faulty = true;
        }
        answer
    }

    pub(crate) fn await_next(&mut self, what: Awaited)
        ensures told { HearsLink (moment L.incoming L.received L.sent L.faults) L.heard self.old what }
        ensures same { self.new ≡ self.old }
    {
        self.link.await_next(what);
    }

    /// Ends the loan. The link comes out exactly where it is to be kept and none of its calls was refused, so a link
    /// whose count of faults rose in the talk is closed.
    pub(crate) fn kept(self, keep: bool) -> Option<Idle<L>>
        ensures kept { keep ≡ true → self.faulty ≡ false → IsSome result }
        ensures closed { keep ≡ false → result ≡ None }
        ensures faulty { self.faulty ≡ true → result ≡ None }
        ensures whose { IfSome result (λ idle. (idle.lb ≡ self.lb) × (idle.member ≡ self.member)) }
        ensures same { IfSome result (λ idle. moment L.incoming L.received L.sent L.faults idle.link.value ≡ self.link) }
        ensures sound { IfSome result (λ idle. L.faults idle.link.value ≡ self.began) }
        ensures used { IfSome result (λ idle. idle.looks ≡ 0) }
    {
        if keep && !self.faulty {
            return Some(Idle {
                lb: self.lb,
                member: self.member,
                link: self.link,
                looks: 0,
            });
        }
        None
    }
}
