//! A worker's door into the room.
ghost use Rattle.std.specs.Prelude.{◌≡◌, ◌+◌, ◌-◌, ◌<◌, ◌≤◌, ◌++◌, ◌⊎◌, ◌↔◌, None, if◌then◌else◌, IfOk, IfNone, IfSome, IsOk, IsSome, IsTrue, OnErr, OnOk, length, min, take};
ghost use Rattle.std.specs.List.{between};
ghost use Rattle.jk_io.specs.Told.{HasCause, Rose};
ghost use Rattle.real_io.specs.Waitless.{IfCame};
ghost use Rattle.waiting_room.specs.Looks.{HasCome, IsQuick, SeesAfter, WaitedBetween};

use crate::client::Client;
use crate::room::Room;
use crate::stay::{Phase, Stay};
use crate::table::RoomEnd;
use jk_io::{Bytes, Door, IoError, NoMemory, Peer};
use real_io::{
    AtHand, GLANCE_MILLIS, LOOK_MILLIS, Leisure, LinkParts, MAX_HEAD_BYTES, Outbox, StreamEnd,
    TcpLink, head_end, moment, room_ahead,
};
use std::alloc::Global;
use std::sync::{Arc, Wait};

/// The most bytes that the text of an address has.
const MAX_ADDRESS_BYTES: usize = 45;

/// A worker's door into the room.
#[derive(Drop)]
pub struct RoomDoor<'r, R: Wait + Eprint> {
    rt: &'r R,
    room: Arc<Room>,
    outbox: Outbox,
    /// How many clients came to the room with this door; none: without end.
    clients: Option<u64>,
    /// The buffer of the worker's client, while it has none.
    buffer: Option<Vec<u8>>,
    /// How many links are out and may be left.
    out: u64,
    /// How many milliseconds its last client waited between two requests; none: it was another wait.
    waited: Option<u64>,
    /// The room's word that no client comes any more, once it gave it.
    ended: Option<RoomEnd>,
    failed: u64,
}

impl<'r, R: Wait + Eprint> RoomDoor<'r, R> {
    /// A door by which so many clients more come to the room; none: without end. What is written to its clients is held back
    /// in this outbox. No link is out, and no call failed yet.
    pub fn new(rt: &'r R, room: Arc<Room>, outbox: Outbox, clients: Option<u64>) -> RoomDoor<'r, R>
        ensures { (result.clients ≡ clients) × (result.out ≡ 0) × (result.failed ≡ 0) × (result.ended ≡ None) }
    {
        room.admit(rt, clients);
        RoomDoor {
            rt,
            room,
            outbox,
            clients,
            buffer: None,
            out: 0,
            waited: None,
            ended: None,
            failed: 0,
        }
    }

    /// Whether it said that no client comes any more.
    pub fn is_closed(&self) -> bool
        ensures { IsTrue result ↔ IsSome self.now.ended }
    {
        self.ended.is_some()
    }

    fn fail(&mut self) -> IoError
        ensures error { result ≡ IoError.Failed }
        ensures rose { Rose self.old.failed self.new.failed × (self.old.failed ≤ self.new.failed) }
        ensures same { (self.new.out ≡ self.old.out) × (self.new.ended ≡ self.old.ended) }
    {
        self.failed = self.failed.saturating_add(1);
        IoError::Failed
    }

    // The memory of one client, which is taken before a client is.
    fn seat(&mut self, alloc: Global) -> Result<Seat, NoMemory>
        ensures { (self.new.out ≡ self.old.out) × (self.new.failed ≡ self.old.failed) × (self.new.ended ≡ self.old.ended) }
    {
        let outbox = self.outbox.share()?;
        let address = String::with_capacity(alloc, MAX_ADDRESS_BYTES)?;
        let buffer = match self.buffer.take() {
            Some(buffer) => buffer,
            None => room_ahead(alloc)?,
        };
        Ok(Seat {
            outbox,
            buffer,
            address,
        })
    }

    // A client who was served: its link waits for more, of which these bytes came.
    fn put_back(&self, at: usize, end: StreamEnd, is_slow: bool, is_heard: bool, came: &[u8]) {
        match Client::of(self.room.alloc, end, came) {
            Ok(client) => {
                let now = moment();
                let stay = Stay::new(Phase::Between, served_since(is_slow, now));
                let stay = stay.after(came.len() as u64, now);
                self.room.give_back(self.rt, at, stay, client, is_heard);
            }
            Err(end) => self.let_go(at, end),
        }
    }

    // A client who was served goes: its link lingers, unless its bytes ended.
    fn let_go(&self, at: usize, end: StreamEnd) {
        if end.has_ended() {
            return self.room.free(self.rt, at);
        }
        let ahead = Vec::new(self.room.alloc);
        self.room.linger(self.rt, at, Client { end, ahead });
    }
}

// The memory of one client: its outbox, the buffer of its link, and the text of its address.
#[derive(Drop)]
struct Seat {
    outbox: Outbox,
    buffer: Vec<u8>,
    address: String,
}

// A client whom a worker can serve: the first `count` bytes of the buffer came of it.
#[derive(Drop)]
struct Ready {
    at: usize,
    end: StreamEnd,
    count: usize,
    /// How many milliseconds after its last reply its head was there; none: it was another wait.
    waited: Option<u64>,
}

// A client who is handed on to a worker.
#[derive(Drop)]
struct Handed {
    link: TcpLink,
    peer: Peer,
    /// How many milliseconds after its last reply its head was there; none: it was another wait.
    waited: Option<u64>,
}

impl Seat {
    // The text has room for any address, so this one is written whole.
    fn client(self, ready: Ready, leisure: Option<Leisure>) -> (TcpLink, Peer)
        ensures leisure { result.0.leisure ≡ leisure }
        ensures seat { result.0.seat ≡ ready.at }

        // What came of the client before is read first.
        ensures ahead { (result.0.from ≡ 0) × (result.0.to ≡ min ready.count (length self.buffer.items)) × (result.0.ahead ≡ self.buffer) }
    {
        let Seat {
            outbox,
            buffer,
            mut address,
        } = self;
        let Ready {
            at,
            end,
            count,
            waited: _,
        } = ready;
        if let Some(ip) = end.peer() {
            let _ = write!(address, "{ip}");
        }
        let addr = Bytes::from_vec(address.into_bytes());
        let count = count.min(buffer.len());
        let mut link = TcpLink::of_client(outbox, end, buffer, count, at as u64);
        let is_heard = leisure.is_none();
        link.look_while(leisure);
        if is_heard {
            link.leave_to_door();
        }
        (link, Peer { addr })
    }
}

impl<'r, R: Wait + Eprint> Door for RoomDoor<'r, R> {
    ghost use Rattle.std.specs.Prelude.{None};

    type L = TcpLink;

    ghost coming = { λ _. None };

    ghost left = { λ _. None };

    ghost room = { λ d. d.out };

    ghost faults = { λ d. d.failed };

    fn accept(&mut self, alloc: Global) -> Result<Option<(TcpLink, Peer)>, IoError>
        // It answers that no client comes only with the word of its room that none does any more.
        ensures closed { IfOk result (λ answer. IfNone answer (IsSome self.new.ended)) }
        ensures open { IfOk result (λ answer. IfSome answer (λ _. self.new.ended ≡ self.old.ended)) }

        // The link alone of a client who was quick is told whether workers are free.
        ensures quick { IfOk result (λ answer. IfSome answer (λ client. IsQuick self.new.waited ⊎ (client.0.leisure ≡ None))) }

        // What each door says.
        ensures one_more { IfOk result (λ answer. IfSome answer (λ _. self.new.out ≡ self.old.out + 1)) }
        ensures no_more { IfOk result (λ answer. IfNone answer (self.new.out ≡ self.old.out)) }
        ensures kept_on_error { OnErr result (self.new.out ≡ self.old.out) }
        ensures cause { HasCause self.old.failed self.new.failed result }
        ensures steady { IsOk result → self.new.failed ≡ self.old.failed }
    {
        let Some(out) = self.out.checked_add(1) else {
            return Err(self.fail());
        };
        let seat = self.seat(alloc)?;
        match next_handed(self.rt, &self.room, seat) {
            Ok(handed) => {
                self.out = out;
                self.waited = handed.waited;
                Ok(Some((handed.link, handed.peer)))
            }
            Err(end) => {
                self.ended = Some(end);
                Ok(None)
            }
        }
    }

    fn leave(&mut self, link: TcpLink)
        requires { 0 < self.old.out }

        // What each door says.
        ensures one_less { self.new.out + 1 ≡ self.old.out }
        ensures same { self.new.failed ≡ self.old.failed }
    {
        self.out -= 1;
        let LinkParts {
            end,
            ahead,
            from,
            to,
            is_idle,
            seat,
            replies,
            is_slow,
            is_heard,
        } = link.into_parts();
        self.room.note_replies(replies);
        match end {
            None => self.room.free(self.rt, seat as usize),
            Some(end) if is_idle => {
                self.put_back(seat as usize, end, is_slow, is_heard, &ahead[from..to]);
            }
            Some(end) => self.let_go(seat as usize, end),
        }
        self.buffer = Some(ahead);
    }
}

// Since when a client is served: it was waited for in vain before, or not.
fn served_since(is_slow: bool, now: u64) -> u64
    ensures { result ≡ (if is_slow then now - 10 else now) }
{
    if is_slow {
        now.saturating_sub(LOOK_MILLIS)
    } else {
        now
    }
}

// Whether workers are free, for the link of a client who was quick.
fn leisure_for(room: &Room, ready: &Ready) -> Option<Leisure>
    ensures quick { IsQuick ready.now.waited ⊎ (result ≡ None) }
{
    match ready.waited {
        Some(millis) if millis <= GLANCE_MILLIS => room.leisure_of(ready.end.number()),
        _ => None,
    }
}

// The next client whom a worker can serve, in this memory; or the room's word, once it is closed.
fn next_handed<R: Wait + Eprint>(rt: &R, room: &Room, seat: Seat) -> Result<Handed, RoomEnd>
    ensures { IfOk result (λ handed. IsQuick handed.waited ⊎ (handed.link.leisure ≡ None)) }
{
    let mut seat = seat;
    for _ in rt.forever() {
        let (at, stay, client) = room.next(rt)?;
        match hand_on(rt, room, seat, at, stay, client) {
            Ok(handed) => return Ok(handed),
            Err(back) => seat = back,
        }
    }
    unreachable!()
}

// Hands a client on who waited at this place, if a worker can serve it now. Else the memory comes back.
fn hand_on<R: Wait + Eprint>(
    rt: &R,
    room: &Room,
    seat: Seat,
    at: usize,
    stay: Stay,
    client: Client,
) -> Result<Handed, Seat>
    // Its link has its place, and gives first all that had come of it before.
    ensures seat { IfOk result (λ handed. handed.link.seat ≡ at) }
    ensures ahead { let have = min (length client.ahead.items) (length seat.buffer.items) in
        IfOk result (λ handed. HasCome have client.ahead.items handed.link) }
    ensures waited { IfOk result (λ handed. WaitedBetween stay handed.waited) }
    ensures quick { IfOk result (λ handed. IsQuick handed.waited ⊎ (handed.link.leisure ≡ None)) }
{
    let mut seat = seat;
    match next_look(rt, room, seat.buffer.as_mut_slice(), at, stay, client) {
        Some(ready) => {
            let waited = ready.waited;
            let leisure = leisure_for(room, &ready);
            let (link, peer) = seat.client(ready, leisure);
            Ok(Handed { link, peer, waited })
        }
        None => Err(seat),
    }
}

// Reads what came of a client, after what was read of it before. One of whose head not all came waits again.
fn next_look<R: Wait + Eprint>(
    rt: &R,
    room: &Room,
    buffer: &mut [u8],
    at: usize,
    stay: Stay,
    client: Client,
) -> Option<Ready>
    ensures same { IfSome result (λ ready. ready.at ≡ at) }
    ensures waited { IfSome result (λ ready. WaitedBetween stay ready.waited) }
    ensures ahead { let have = min (length client.ahead.items) (length buffer.old) in
        IfSome result (λ ready. (have ≤ ready.count) × (take have buffer.new ≡ take have client.ahead.items)) }
{
    let Client { end, ahead } = client;
    let mut end = end;
    let mut ahead = ahead;
    let have = put_ahead(buffer, ahead.as_slice());
    match look_at(&mut end, buffer, have) {
        Look::Ready(count) => {
            let waited = stay.between(moment());
            return Some(Ready {
                at,
                end,
                count,
                waited,
            });
        }
        Look::Part(count) => {
            if keep(&mut ahead, buffer, have, count).is_err() {
                return Some(Ready {
                    at,
                    end,
                    count,
                    waited: None,
                });
            }
            let stay = stay.after(count as u64, moment());
            room.give_back(rt, at, stay, Client { end, ahead }, true);
        }
        Look::Gone => room.free(rt, at),
    }
    None
}

// Puts what came before at the buffer's front, and answers how many bytes.
fn put_ahead(buffer: &mut [u8], ahead: &[u8]) -> usize
    ensures count { result ≡ min (length ahead.now) (length buffer.old) }
    ensures put { take result buffer.new ≡ take result ahead.now }
    ensures len { length buffer.new ≡ length buffer.old }
{
    let count = ahead.len().min(buffer.len());
    buffer[..count].copy_from_slice(&ahead[..count]);
    count
}

// Keeps what came now, after what came before. Where there is no memory nothing is kept of it.
fn keep(ahead: &mut Vec<u8>, buffer: &[u8], have: usize, count: usize) -> Result<(), NoMemory>
    requires { (have ≤ count) × (count ≤ length buffer.now) }
    ensures kept { OnOk result (ahead.new.items ≡ ahead.old.items ++ between have count buffer.now) }
{
    Ok(ahead.extend_from_slice(&buffer[have..count])?)
}

/// What a look at a client's bytes says, with how many there are.
#[derive(Clone, Copy)]
enum Look {
    /// A worker can serve it.
    Ready(usize),
    /// Not all of a head came.
    Part(usize),
    /// It is gone, and asked for nothing.
    Gone,
}

// Reads what came, until a head is whole, the bytes end, they can't be a head any more, or nothing more is there. What was there
// before stays at the buffer's front.
fn look_at(end: &mut StreamEnd, buffer: &mut [u8], have: usize) -> Look
    requires { have ≤ length buffer.old }
    ensures len { length buffer.new ≡ length buffer.old }
    ensures sees { SeesAfter have result (take have buffer.old) buffer.new }
{
    let most = buffer.len().min(MAX_HEAD_BYTES);
    let mut count = have;
    for _ in 0..u64::MAX {
        if count >= most || head_end(&buffer[..count]).is_some() {
            return Look::Ready(count);
        }
        match read_on(end, buffer, count, most) {
            AtHand::Came(0) if count == 0 => return Look::Gone,
            AtHand::Came(0) => return Look::Ready(count),
            AtHand::Came(n) => count += n,
            AtHand::Nothing => return Look::Part(count),
            AtHand::Broken => return Look::Gone,
        }
    }
    Look::Ready(count)
}

// One read of what is there, into the buffer from a place to another.
fn read_on(end: &mut StreamEnd, buffer: &mut [u8], from: usize, to: usize) -> AtHand
    requires { (from ≤ to) × (to ≤ length buffer.old) }
    ensures count { IfCame result (λ n. from + n ≤ to) }
    ensures kept { take from buffer.new ≡ take from buffer.old }
    ensures len { length buffer.new ≡ length buffer.old }
{
    end.at_hand(&mut buffer[from..to])
}
