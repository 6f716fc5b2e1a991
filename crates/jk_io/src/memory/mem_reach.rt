//! A reach in memory.
ghost use Rattle.std.specs.Prelude.{◌≡◌, ◌+◌, ◌<◌, ◌≤◌, ◌++◌, ◌↔◌, [], ◌∷◌, true, false, None, Some, IsSome, IsTrue, IfSome, IsErr, IsErrOf, IfOk, OnOk, OnErr, is_some, is_ok, Contains, length, take, reverse, slice_index, vec_len, vec_capacity};
ghost use Rattle.std.specs.List.{HoldsAt, remove};
ghost use Rattle.jk_io.specs.Told.{HasCause, Rose};
ghost use Rattle.jk_io.specs.Talks.{begun_with, failed_talk_of, talk_of};
ghost use Rattle.jk_io.specs.Memory.{ReadIsToFail, WriteIsToFail, DialledNext, counted, next_incoming};
ghost use Rattle.jk_io.specs.MemReaches.{IsLastOf, HasNoneOf, GivesLink, NotesBegin, StaysInTalk};

use crate::byte_list::Bytes;
use crate::failures::{IoError, NoMemory};
use crate::list_of::{ListOf, NumberList};
use crate::memory::call_count::CallCount;
use crate::memory::mem_dial::{MemLinkList, empty_link, take_next};
use crate::memory::mem_link::MemLink;
use crate::memory::member_link::MemberLink;
use crate::memory::talk_book::TalkBook;
use crate::reaching::{Begun, Beside, Talk, TalkAsked};
use crate::traits::reach::Reach;
use crate::traits::streams::{Awaited, Link, Meanings, Sink, Source};
use std::alloc::Global;
use std::marker::Model;
use std::mem;

/// A reach that gives its links in turn, and links with nothing to come after the last. A link that was kept for a
/// member is given again, the one kept last first.
#[derive(Drop)]
pub struct MemReach {
    alloc: Global,
    /// The links to come, the next one last.
    links: Vec<MemLink>,
    kept: Vec<MemberLink>,
    /// The link of the running talk; without one, a link with nothing to come.
    running: MemberLink,
    book: TalkBook,
    sizes: ListOf<u32>,
    failing: NumberList,
    begins: CallCount,
}

impl Model for MemReach {
    ghost use Rattle.std.specs.Prelude.{◌≡◌, ◌+◌, ◌≤◌, [], reverse, vec_len, vec_capacity, IfSome, IfNone};
    ghost use Rattle.jk_io.specs.MemReaches.{MemReachState};

    ghost Value = { MemReachState };

    ghost view = { λ r. record {
      links = reverse r.links.items;
      kept = r.kept.items;
      running = r.running;
      book = r.book;
      sizes = r.sizes;
      failing = r.failing;
      calls = r.begins.calls;
      faults = r.begins.failed;
    } };

    ghost invariant = { λ r. IfSome r.book.begun (λ _. vec_len r.kept + 1 ≤ vec_capacity r.kept)
        × IfNone r.book.begun ((r.book.sent ≡ []) × (r.book.received ≡ [])) };
}

impl MemReach {
    /// A reach over balancers; `sizes` counts the members of each. The begins of `failing`, numbered from 0, fail.
    pub fn new(
        alloc: Global,
        links: MemLinkList,
        sizes: ListOf<u32>,
        failing: NumberList,
    ) -> MemReach
        ensures links { (result.links ≡ links) × (result.kept ≡ []) }
        ensures sizes { (result.sizes ≡ sizes) × (result.failing ≡ failing) × (result.calls ≡ 0) × (result.faults ≡ 0) }
        ensures idle { (result.book.begun ≡ None) × (result.book.talks ≡ []) × (result.book.sent ≡ []) × (result.book.received ≡ []) }
    {
        let mut links = links.into_vec();
        links.reverse();
        MemReach {
            alloc,
            links,
            kept: Vec::new(alloc),
            running: no_link(alloc),
            book: TalkBook::new(alloc),
            sizes,
            failing,
            begins: CallCount::new(),
        }
    }

    /// The talks that ended, in order.
    pub fn talks(&self) -> &[Talk]
        ensures { result.now ≡ self.now.book.talks }
    {
        self.book.talks()
    }

    /// How many calls failed.
    pub fn faults(&self) -> u64
        ensures { result ≡ self.now.faults }
    {
        self.begins.failed
    }
}

fn no_link(alloc: Global) -> MemberLink {
    MemberLink {
        lb: 0,
        member: 0,
        link: empty_link(alloc),
    }
}

// The place of the link that was kept last for a member, unless a fresh one is asked for.
fn kept_place(kept: &[MemberLink], lb: u32, member: u32, fresh: bool) -> Option<usize>
    ensures last { IfSome result (λ place. (fresh ≡ false) × IsLastOf lb member kept.now place) }
    ensures none { result ≡ None → fresh ≡ false → HasNoneOf lb member kept.now }
{
    if fresh {
        return None;
    }
    kept.iter().rposition(|k| k.lb == lb && k.member == member)
}

// Begins the note of a talk.
fn note_begun(
    book: &mut TalkBook,
    asked: &TalkAsked<'_>,
    dialled: bool,
    came: Option<Bytes>,
) -> Result<(), NoMemory>
    requires { book.old.begun ≡ None }
    ensures ok { OnOk result (book.new ≡ record book.old { begun = Some (begun_with asked.now dialled came) }) }
    ensures err { OnErr result (book.new ≡ book.old) }
    ensures empty { OnOk result ((book.new.sent ≡ []) × (book.new.received ≡ [])) }
{
    let host = asked.host.copy()?;
    book.begin(Begun {
        lb: asked.lb,
        member: asked.member,
        host,
        port: asked.port,
        fresh: asked.fresh,
        dialled,
        came,
    })
}

// Begins the note of a talk over a kept link.
fn note_kept(
    book: &mut TalkBook,
    alloc: Global,
    asked: &TalkAsked<'_>,
    link: &MemLink,
) -> Result<(), NoMemory>
    requires { book.old.begun ≡ None }
    ensures ok { OnOk result (book.new ≡ record book.old { begun = Some (begun_with asked.now false (Some link.now.incoming)) }) }
    ensures err { OnErr result (book.new ≡ book.old) }
    ensures empty { OnOk result ((book.new.sent ≡ []) × (book.new.received ≡ [])) }
{
    let came = link.to_come(alloc)?;
    note_begun(book, asked, false, Some(came))
}

// Begins the note of a talk over the next of these links, which stand in reverse.
fn note_next(
    book: &mut TalkBook,
    alloc: Global,
    asked: &TalkAsked<'_>,
    links: &[MemLink],
) -> Result<(), NoMemory>
    requires { book.old.begun ≡ None }
    ensures ok { OnOk result (book.new ≡ record book.old {
      begun = Some (begun_with asked.now true (Some (next_incoming (reverse links.now))));
    }) }
    ensures err { OnErr result (book.new ≡ book.old) }
    ensures empty { OnOk result ((book.new.sent ≡ []) × (book.new.received ≡ [])) }
{
    let came = next_to_come(links, alloc)?;
    note_begun(book, asked, true, Some(came))
}

// Notes a talk that never began, and answers how its begin is refused: with NoMemory where it could not be noted.
fn note_failed(book: &mut TalkBook, asked: &TalkAsked<'_>) -> IoError
    requires idle { book.old.begun ≡ None }
    requires empty { (book.old.sent ≡ []) × (book.old.received ≡ []) }
    ensures failed { result ≡ IoError.Failed → book.new.talks ≡ book.old.talks ++ failed_talk_of asked.now ∷ [] }
    ensures wanted { result ≡ IoError.NoMemory → book.new.talks ≡ book.old.talks }
    ensures idle { (book.new.begun ≡ None) × (book.new.sent ≡ []) × (book.new.received ≡ []) }
{
    match note_begun(book, asked, false, None) {
        Ok(()) => {
            book.finish(false);
            IoError::Failed
        }
        Err(NoMemory) => IoError::NoMemory,
    }
}

impl MemReach {
    // Counts a begin, and says whether it is to fail.
    fn begin_fails(&mut self) -> bool
        ensures planned { IsTrue result ↔ Contains self.old.failing self.old.calls }
        ensures same { self.new ≡ record self.old { calls = counted self.old.calls } }
        ensures empty { self.new.book.begun ≡ None → (self.new.book.sent ≡ []) × (self.new.book.received ≡ []) }
    {
        self.begins.is_planned(&self.failing)
    }

    // Notes a talk that never began, counts that its begin failed, and answers how it is refused. Where there is no memory
    // for the note nothing failed.
    fn refuse(&mut self, asked: &TalkAsked<'_>) -> IoError
        requires idle { self.old.book.begun ≡ None }
        ensures rose { result ≡ IoError.Failed → Rose self.old.faults self.new.faults }
        ensures no_fewer { self.old.faults ≤ self.new.faults }
        ensures calm { result ≡ IoError.NoMemory → self.new.faults ≡ self.old.faults }
        ensures failed { result ≡ IoError.Failed → self.new.book.talks ≡ self.old.book.talks ++ failed_talk_of asked.now ∷ [] }
        ensures wanted { result ≡ IoError.NoMemory → self.new.book.talks ≡ self.old.book.talks }
        ensures idle { (self.new.book.begun ≡ None) × (self.new.book.sent ≡ []) × (self.new.book.received ≡ []) }
        ensures same { self.new ≡ record self.old { book = self.new.book; faults = self.new.faults } }
    {
        let error = note_failed(&mut self.book, asked);
        if let IoError::Failed = error {
            self.begins.fail();
        }
        error
    }

    // Begins a talk over the kept link at a place.
    fn begin_over_kept(
        &mut self,
        alloc: Global,
        asked: &TalkAsked<'_>,
        place: usize,
    ) -> Result<(), NoMemory>
        requires idle { self.old.book.begun ≡ None }
        requires within { place < length self.old.kept }
        ensures taken { OnOk result (HoldsAt (λ link. link ≡ self.new.running) self.old.kept place) }
        ensures left { OnOk result (self.new.kept ≡ remove self.old.kept place) }
        ensures begun { OnOk result (NotesBegin asked.now false self.old self.new) }
        ensures err { OnErr result (self.new ≡ self.old) }
        ensures same { self.new ≡ record self.old { kept = self.new.kept; running = self.new.running; book = self.new.book } }
    {
        note_kept(&mut self.book, alloc, asked, &self.kept[place].link)?;
        run_kept(&mut self.running, &mut self.kept, place);
        Ok(())
    }

    // Begins a talk over the next link, or an empty one after the last, and answers that its link is new.
    fn begin_over_next(&mut self, alloc: Global, asked: &TalkAsked<'_>) -> Result<bool, IoError>
        requires idle { self.old.book.begun ≡ None }
        ensures wanted { IsErrOf result IoError.Failed → ⊥ }
        ensures new_link { IfOk result (λ dialled. dialled ≡ true) }
        ensures next { OnOk result (DialledNext self.old.links self.new.running.link self.new.links) }
        ensures whose { OnOk result ((self.new.running.lb ≡ asked.now.lb) × (self.new.running.member ≡ asked.now.member)) }
        ensures begun { OnOk result (NotesBegin asked.now true self.old self.new) }
        ensures err { OnErr result (self.new ≡ self.old) }
        ensures same { self.new ≡ record self.old { links = self.new.links; running = self.new.running; book = self.new.book } }
    {
        self.kept.reserve(1)?;
        note_next(&mut self.book, alloc, asked, self.links.as_slice())?;
        run_next(&mut self.running, alloc, asked, &mut self.links);
        Ok(true)
    }

    // Begins a talk over the link that was kept last for its member, or over the next one, and answers whether it is new.
    fn begin_over(&mut self, alloc: Global, asked: &TalkAsked<'_>) -> Result<bool, IoError>
        requires idle { self.old.book.begun ≡ None }
        ensures wanted { IsErrOf result IoError.Failed → ⊥ }
        ensures new_link { IfOk result (λ dialled. asked.now.fresh ≡ true → dialled ≡ true) }
        ensures given { IfOk result (λ dialled. GivesLink asked.now.lb asked.now.member asked.now.fresh dialled self.old self.new) }
        ensures begun { IfOk result (λ dialled. NotesBegin asked.now dialled self.old self.new) }
        ensures err { OnErr result (self.new ≡ self.old) }
        ensures same { (self.new.sizes ≡ self.old.sizes) × (self.new.failing ≡ self.old.failing)
            × (self.new.calls ≡ self.old.calls) × (self.new.faults ≡ self.old.faults) }
    {
        match kept_place(self.kept.as_slice(), asked.lb, asked.member, asked.fresh) {
            Some(place) => self.begin_over_kept(alloc, asked, place)?,
            None => return self.begin_over_next(alloc, asked),
        }
        Ok(false)
    }
}

// What the next link has to come; the links stand in reverse.
fn next_to_come(links: &[MemLink], alloc: Global) -> Result<Bytes, NoMemory>
    ensures { IfOk result (λ came. came ≡ next_incoming (reverse links.now)) }
{
    match links.last() {
        Some(link) => link.to_come(alloc),
        None => Ok(Bytes::new(alloc)),
    }
}

// A talk runs over the kept link at a place, which is kept no more.
fn run_kept(running: &mut MemberLink, kept: &mut Vec<MemberLink>, place: usize)
    requires { place < length kept.old.items }
    ensures taken { HoldsAt (λ link. link ≡ running.new) kept.old.items place }
    ensures left { kept.new.items ≡ remove kept.old.items place }
    ensures room { vec_capacity kept.new ≡ vec_capacity kept.old }
{
    *running = kept.remove(place);
}

// A talk runs over the next link, or over an empty one after the last; the links stand in reverse.
fn run_next(
    running: &mut MemberLink,
    alloc: Global,
    asked: &TalkAsked<'_>,
    links: &mut Vec<MemLink>,
)
    ensures next { DialledNext (reverse links.old.items) running.new.link (reverse links.new.items) }
    ensures came { running.new.link.incoming ≡ next_incoming (reverse links.old.items) }
    ensures whose { (running.new.lb ≡ asked.now.lb) × (running.new.member ≡ asked.now.member) }
{
    *running = MemberLink {
        lb: asked.lb,
        member: asked.member,
        link: take_next(links, alloc),
    };
}

// Takes the link of a talk that ended, and keeps it.
fn keep_link(running: &mut MemberLink, alloc: Global, kept: &mut Vec<MemberLink>)
    requires { vec_len kept.old + 1 ≤ vec_capacity kept.old }
    ensures { kept.new.items ≡ kept.old.items ++ running.old ∷ [] }
{
    let ended = mem::replace(running, no_link(alloc));
    kept.push(ended).unwrap();
}

// No talk runs any more; its link is kept where it is to be.
fn end_run(running: &mut MemberLink, alloc: Global, kept: &mut Vec<MemberLink>, keep: bool)
    requires { vec_len kept.old + 1 ≤ vec_capacity kept.old }
    ensures kept { keep ≡ true → kept.new.items ≡ kept.old.items ++ running.old ∷ [] }
    ensures closed { keep ≡ false → kept.new.items ≡ kept.old.items }
{
    if keep {
        keep_link(running, alloc, kept);
    } else {
        *running = no_link(alloc);
    }
}

// Takes the room to note a read or a write of at most `most` bytes. Where no talk runs it is a call that failed.
fn get_ready(book: &mut TalkBook, begins: &mut CallCount, most: usize) -> Result<(), IoError>
    ensures shut { is_some book.old.begun ≡ false → IsErrOf result IoError.Failed }
    ensures failed { IsErrOf result IoError.Failed → is_some book.old.begun ≡ false }
    ensures runs { OnOk result (IsSome book.old.begun) }
    ensures room { OnOk result (most ≤ book.new.room) }
    ensures same { book.new ≡ record book.old { room = book.new.room } }
    ensures calls { begins.new.calls ≡ begins.old.calls }
    ensures cause { HasCause begins.old.failed begins.new.failed result }
    ensures steady { (IsErrOf result IoError.Failed → ⊥) → begins.new.failed ≡ begins.old.failed }
{
    if !book.runs() {
        begins.fail();
        return Err(IoError::Failed);
    }
    book.reserve(most)?;
    Ok(())
}

// Notes what a read of the running talk gave, or that it failed.
fn note_read(
    book: &mut TalkBook,
    begins: &mut CallCount,
    buf: &[u8],
    answer: Result<usize, IoError>,
)
    requires runs { IsSome book.old.begun }
    requires count { IfOk answer (λ n. n ≤ length buf.now) }
    requires room { length buf.now ≤ book.old.room }
    ensures got { IfOk answer (λ n. book.new.received ≡ book.old.received ++ take n buf.now) }
    ensures err { OnErr answer (book.new.received ≡ book.old.received) }
    ensures same { book.new ≡ record book.old { received = book.new.received; room = book.new.room } }
    ensures calls { begins.new.calls ≡ begins.old.calls }
    ensures cause { HasCause begins.old.failed begins.new.failed answer }
    ensures steady { (IsErrOf answer IoError.Failed → ⊥) → begins.new.failed ≡ begins.old.failed }
{
    match answer {
        Ok(n) => book.received(&buf[..n]),
        Err(IoError::Failed) => begins.fail(),
        Err(IoError::NoMemory) => {}
    }
}

// Notes what a write of the running talk took, or that it failed.
fn note_write(
    book: &mut TalkBook,
    begins: &mut CallCount,
    piece: &[u8],
    answer: Result<usize, IoError>,
)
    requires runs { IsSome book.old.begun }
    requires count { IfOk answer (λ n. n ≤ length piece.now) }
    requires room { length piece.now ≤ book.old.room }
    ensures put { IfOk answer (λ n. book.new.sent ≡ book.old.sent ++ take n piece.now) }
    ensures err { OnErr answer (book.new.sent ≡ book.old.sent) }
    ensures same { book.new ≡ record book.old { sent = book.new.sent; room = book.new.room } }
    ensures calls { begins.new.calls ≡ begins.old.calls }
    ensures cause { HasCause begins.old.failed begins.new.failed answer }
    ensures steady { (IsErrOf answer IoError.Failed → ⊥) → begins.new.failed ≡ begins.old.failed }
{
    match answer {
        Ok(n) => book.sent(&piece[..n]),
        Err(IoError::Failed) => begins.fail(),
        Err(IoError::NoMemory) => {}
    }
}

impl Meanings for MemReach {
    ghost use Rattle.std.specs.Prelude.{Some, is_some};

    type Beside = Beside;

    ghost incoming = { λ r. Some r.running.link.incoming };

    ghost received = { λ r. Some r.book.received };

    ghost sent = { λ r. Some r.book.sent };

    ghost beside = { λ r. record { runs = is_some r.book.begun; sizes = r.sizes; begun = r.book.begun; talks = Some r.book.talks } };

    ghost faults = { λ r. r.faults };

    ghost is_open = { λ r. is_some r.book.begun };
}

impl Source for MemReach {
    fn read(&mut self, buf: &mut [u8]) -> Result<usize, IoError>
        requires { 0 < length buf.old }

        ensures count { IfOk result (λ n. n ≤ length buf.new) }
        ensures gave { IfOk result (λ n. self.old.running.link.incoming ≡ take n buf.new ++ self.new.running.link.incoming) }
        ensures got { IfOk result (λ n. self.new.book.received ≡ self.old.book.received ++ take n buf.new) }
        ensures end { IfOk result (λ n. n ≡ 0 → self.new.running.link.incoming ≡ []) }
        ensures kept_on_error { OnErr result ((self.new.running.link.incoming ≡ self.old.running.link.incoming)
            × (self.new.book.received ≡ self.old.book.received)) }
        ensures same { (self.new.book.sent ≡ self.old.book.sent) × (self.new.book.begun ≡ self.old.book.begun) × (self.new.book.talks ≡ self.old.book.talks) }
        ensures same_others { StaysInTalk self.old self.new }
        ensures cause { HasCause self.old.faults self.new.faults result }

        // Where no talk runs it fails; in a talk it fails only where its link was told to.
        ensures shut { is_some self.old.book.begun ≡ false → IsErrOf result IoError.Failed }
        ensures failed { IsSome self.old.book.begun → IsErrOf result IoError.Failed → ReadIsToFail self.old.running.link }
        ensures told { ReadIsToFail self.old.running.link → IsErr result }
        ensures steady { (IsErrOf result IoError.Failed → ⊥) → self.new.faults ≡ self.old.faults }
    {
        get_ready(&mut self.book, &mut self.begins, buf.len())?;
        let answer = self.running.link.read(buf);
        note_read(&mut self.book, &mut self.begins, buf, answer);
        answer
    }
}

impl Sink for MemReach {
    fn write(&mut self, piece: &[u8]) -> Result<usize, IoError>
        requires { 0 < length piece.now }

        ensures count { IfOk result (λ n. (0 < n) × (n ≤ length piece.now)) }
        ensures put { IfOk result (λ n. self.new.book.sent ≡ self.old.book.sent ++ take n piece.now) }
        ensures kept_on_error { OnErr result (self.new.book.sent ≡ self.old.book.sent) }
        ensures same { (self.new.running.link.incoming ≡ self.old.running.link.incoming) × (self.new.book.received ≡ self.old.book.received) }
        ensures same_talk { (self.new.book.begun ≡ self.old.book.begun) × (self.new.book.talks ≡ self.old.book.talks) }
        ensures same_others { StaysInTalk self.old self.new }
        ensures cause { HasCause self.old.faults self.new.faults result }

        // Where no talk runs it fails; in a talk it fails only where its link was told to.
        ensures shut { is_some self.old.book.begun ≡ false → IsErrOf result IoError.Failed }
        ensures failed { IsSome self.old.book.begun → IsErrOf result IoError.Failed → WriteIsToFail self.old.running.link }
        ensures told { WriteIsToFail self.old.running.link → IsErr result }
        ensures steady { (IsErrOf result IoError.Failed → ⊥) → self.new.faults ≡ self.old.faults }
    {
        get_ready(&mut self.book, &mut self.begins, piece.len())?;
        let answer = self.running.link.write(piece);
        note_write(&mut self.book, &mut self.begins, piece, answer);
        answer
    }
}

impl Link for MemReach {
    ghost use Rattle.std.specs.Prelude.{false};

    ghost may_wait = { false };

    fn await_next(&mut self, _what: Awaited) {}
}

impl Reach for MemReach {
    ghost use Rattle.std.specs.Prelude.{refl};

    fn begin(&mut self, alloc: Global, asked: &TalkAsked<'_>) -> Result<bool, IoError>
        requires idle { is_some self.old.book.begun ≡ false }
        requires known { asked.now.member < slice_index self.old.sizes asked.now.lb }

        ensures runs { is_some self.new.book.begun ≡ is_ok result }
        ensures new_link { IfOk result (λ dialled. asked.now.fresh ≡ true → dialled ≡ true) }
        ensures begun { IfOk result (λ dialled. self.new.book.begun
            ≡ Some (begun_with asked.now dialled (Some self.new.running.link.incoming))) }
        ensures nothing_yet { (self.new.book.sent ≡ []) × (self.new.book.received ≡ []) }

        // The link that the talk gets.
        ensures given { IfOk result (λ dialled. GivesLink asked.now.lb asked.now.member asked.now.fresh dialled self.old self.new) }
        ensures not_given { OnErr result ((self.new.links ≡ self.old.links) × (self.new.kept ≡ self.old.kept)) }

        // A begin that failed counts as an ended talk; one that wanted memory doesn't.
        ensures ok { OnOk result (self.new.book.talks ≡ self.old.book.talks) }
        ensures failed { IsErrOf result IoError.Failed
            → self.new.book.talks ≡ self.old.book.talks ++ failed_talk_of asked.now ∷ [] }
        ensures wanted { IsErrOf result IoError.NoMemory → self.new.book.talks ≡ self.old.book.talks }
        ensures same { (self.new.sizes ≡ self.old.sizes) × (self.new.failing ≡ self.old.failing) }

        // It fails exactly at the begins that it was told to fail, unless memory is wanted there.
        ensures planned { IsErrOf result IoError.Failed → Contains self.old.failing self.old.calls }
        ensures told { Contains self.old.failing self.old.calls → IsErr result }
        ensures counted { self.new.calls ≡ counted self.old.calls }
        ensures cause { HasCause self.old.faults self.new.faults result }
        ensures steady { (Contains self.old.failing self.old.calls → ⊥) → self.new.faults ≡ self.old.faults }
    {
        if self.begin_fails() {
            return Err(self.refuse(asked));
        }
        self.begin_over(alloc, asked)
    }

    fn finish(&mut self, keep: bool)
        requires { is_some self.old.book.begun ≡ true }
        ensures ended { self.new.book.begun ≡ None }
        ensures nothing_left { (self.new.book.sent ≡ []) × (self.new.book.received ≡ []) }
        ensures noted { IfSome self.old.book.begun (λ b. self.new.book.talks
            ≡ self.old.book.talks ++ talk_of b self.old.book.sent self.old.book.received keep ∷ []) }

        // The link is kept where it is to be.
        ensures kept { keep ≡ true → self.new.kept ≡ self.old.kept ++ self.old.running ∷ [] }
        ensures closed { keep ≡ false → self.new.kept ≡ self.old.kept }
        ensures same { (self.new.links ≡ self.old.links) × (self.new.sizes ≡ self.old.sizes) × (self.new.failing ≡ self.old.failing)
            × (self.new.calls ≡ self.old.calls) × (self.new.faults ≡ self.old.faults) }
    {
        self.book.finish(keep);
        end_run(&mut self.running, self.alloc, &mut self.kept, keep);
    }

    /// Its links stay as they are.
    fn rest(&mut self, _alloc: Global, _now: u64) -> Result<(), NoMemory> {
        Ok(())
    }

    ghost open_in_talk = { λ r. refl };
}
