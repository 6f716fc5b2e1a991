//! The room: what all doors share.
ghost use Rattle.std.specs.Prelude.{◌≡◌, ◌==◌, ◌-◌, ◌≤◌, ◌↔◌, IfNone, IfSome, IsTrue, None, if◌then◌else◌, true};
ghost use Rattle.waiting_room.specs.Stays.{end_after};
ghost use Rattle.waiting_room.specs.Turns.{GivesTurn, KeepsAway};

use crate::client::Client;
use crate::control::{Askers, Control};
use crate::stay::{Limits, Phase, Stay};
use crate::table::{RoomEnd, Table};
use jk_io::ClientLimits;
use libc::net::{SHUT_RDWR, shutdown};
use mio::event::Event;
use mio::unix::SourceFd;
use mio::{Events, Interest, Poll, Registry, Token};
use real_io::{AtHand, Ending, Leisure, StreamEnd, Tally, is_wanting, moment};
use std::alloc::Global;
use std::io;
use std::io::ErrorKind;
use std::net::{SocketAddr, TcpListener, TcpStream};
use std::os::fd::{AsRawFd, RawFd};
use std::sync::atomic::{AtomicU64, Ordering};
use std::sync::{Mutex, Wait};
use std::time::Duration;

/// The token of the listener; the others are places, or below.
pub(crate) const LISTENER: usize = usize::MAX;

/// The token of the control socket.
pub(crate) const CONTROL: usize = usize::MAX - 1;

/// The longest wait of the leader, and the time between two looks at who has waited too long.
const LEAD_MILLIS: u64 = 500;

/// How many clients are accepted at once.
const MOST_ACCEPTS: u32 = 256;

/// After how many milliseconds it is tried again to accept, where descriptors were wanted.
const WANT_MILLIS: u64 = 100;

/// The milliseconds between two such lines on standard error.
const WANT_TOLD_MILLIS: u64 = 60_000;

/// The most bytes that are dropped of a lingering link at once.
const DROPPED_BYTES: usize = 16_384;

/// How often a lingering link is read at once.
const DROP_ROUNDS: u32 = 64;

/// What the leader has.
#[derive(Drop)]
pub(crate) struct Lead {
    pub poll: Poll,
    pub events: Events<Global>,
    /// When it was last looked who has waited too long.
    pub swept: u64,
    /// Until when no client is accepted, for want of descriptors.
    pub paused: u64,
    /// Clients may wait to be accepted.
    pub is_owed: bool,
    /// When it was said last that descriptors are wanted.
    pub told: Option<u64>,
}

/// What all doors of a server share.
#[derive(Drop)]
pub struct Room {
    pub(crate) alloc: Global,
    pub(crate) registry: Registry,
    pub(crate) listener: TcpListener,
    pub(crate) control: Option<Control>,
    pub(crate) limits: ClientLimits,
    pub(crate) ending: Ending,
    pub(crate) leisure: Leisure,
    pub(crate) lead: Mutex<Lead>,
    pub(crate) table: Mutex<Table>,
    /// How many replies went out whole.
    pub(crate) replies: AtomicU64,
    pub(crate) askers: Mutex<Askers>,
    /// When it was said last that a client can't be watched.
    pub(crate) unwatched: Mutex<Tally>,
}

/// What a worker gets of a room.
#[derive(Drop)]
pub(crate) enum Turn {
    /// The client of this place.
    Client(usize, Stay, Client),
    /// The room is closed, by the word of its table.
    Closed(RoomEnd),
    /// Nobody is ready.
    Nobody,
}

impl Room {
    /// There is a door more, by which so many clients more may come; none: without end.
    pub fn admit<R: Wait + Eprint>(&self, rt: &R, clients: Option<u64>) {
        let mut table = self.table.lock(rt);
        table.note_door();
        table.admit(clients);
        self.tell_leisure(&table);
    }

    // Tells the links whether workers are free. The table is locked meanwhile.
    fn tell_leisure(&self, table: &Table) {
        self.leisure.tell(table.has_leisure());
    }

    /// Whether workers are free, for the link of a worker's client; none: they aren't now. Who leads isn't told then what comes of it.
    pub(crate) fn leisure_of(&self, number: RawFd) -> Option<Leisure> {
        if !self.leisure.is_there() {
            return None;
        }
        let leisure = self.leisure.share().ok()?;
        // One that isn't watched stays so.
        let _ = self.registry.deregister(&mut SourceFd(&number));
        Some(leisure)
    }

    // The system's word on a place is waited for from now on, also on what came until now. One that is watched stays so. Where it
    // can't be, the answer says why, and its client is closed, unless it lingers, which ends by itself.
    fn watch(&self, table: &mut Table, at: usize, number: RawFd) -> Option<io::Error>
        ensures watched { IfNone result (table.new ≡ table.old) }
        ensures ready { table.new.places.ready ≡ table.old.places.ready }
        ensures away { KeepsAway table.old.places.places table.new.places.places }
    {
        let answer = self
            .registry
            .register(&mut SourceFd(&number), Token(at), Interest::READABLE);
        match answer {
            Err(error) if error.kind() != ErrorKind::AlreadyExists => {
                close_unless_lingering(table, at);
                Some(error)
            }
            _ => None,
        }
    }

    // Says that a client can't be watched, if it can't, at most once a second. Standard error that can't be written is no fault.
    fn say_unwatched<R: Wait + Eprint>(&self, rt: &R, failure: Option<io::Error>) {
        let Some(error) = failure else {
            return;
        };
        let Some(left_out) = self.unwatched.lock(rt).ask(moment()) else {
            return;
        };
        let _ = if left_out == 0 {
            eprintln!(rt; "jkd: a client can't be waited for, and is closed: {error}")
        } else {
            eprintln!(rt;
                "jkd: a client can't be waited for, and is closed: {error} (left out before: {left_out})"
            )
        };
    }

    /// The port at which clients are accepted.
    pub fn port(&self) -> Option<u16> {
        Some(self.listener.local_addr().ok()?.port())
    }

    /// Where clients are accepted.
    pub fn address(&self) -> Option<SocketAddr> {
        self.listener.local_addr().ok()
    }

    /// When all ends, once a stop was asked for.
    pub fn ending(&self) -> &Ending
        ensures { result.now ≡ self.now.ending }
    {
        &self.ending
    }

    /// The next client, with the number of its place; or the table's word, once the room is closed.
    pub(crate) fn next<R: Wait + Eprint>(&self, rt: &R) -> Result<(usize, Stay, Client), RoomEnd> {
        for _ in rt.forever() {
            match self.lead_or_take(rt) {
                Turn::Client(at, stay, client) => return Ok((at, stay, client)),
                Turn::Closed(end) => return Err(end),
                Turn::Nobody => {}
            }
        }
        unreachable!()
    }

    // Takes a client who is ready, or waits for the lead and then, unless one is ready by now, for the system's word.
    fn lead_or_take<R: Wait + Eprint>(&self, rt: &R) -> Turn {
        match self.turn(rt) {
            Turn::Nobody => {}
            turn => return turn,
        }
        let mut lead = self.lead.lock(rt);
        match self.turn(rt) {
            Turn::Nobody => {}
            turn => return turn,
        }
        self.lead_once(rt, &mut lead);
        self.turn(rt)
    }

    fn turn<R: Wait + Eprint>(&self, rt: &R) -> Turn {
        let mut table = self.table.lock(rt);
        let turn = turn_of(&mut table);
        self.tell_leisure(&table);
        turn
    }

    // Waits for the system's word, and does what it says.
    fn lead_once<R: Wait + Eprint>(&self, rt: &R, lead: &mut Lead) {
        let wait = if lead.is_owed {
            WANT_MILLIS
        } else {
            LEAD_MILLIS
        };
        let _ = lead
            .poll
            .poll(&mut lead.events, Some(Duration::from_millis(wait)));
        let now = moment();
        self.heed(rt, &mut lead.events, &mut lead.is_owed, now);
        if lead.is_owed && now >= lead.paused {
            self.accept_clients(rt, lead, now);
        }
        if now.saturating_sub(lead.swept) >= LEAD_MILLIS {
            lead.swept = now;
            self.sweep(rt, now);
        }
    }

    // Does what the events say.
    fn heed<R: Wait + Eprint>(
        &self,
        rt: &R,
        events: &mut Events<Global>,
        is_owed: &mut bool,
        now: u64,
    ) {
        if self.stir_all(rt, events, is_owed, now) {
            self.heed_control(rt, now);
        }
    }

    // Stirs the places of the events, and tells whether somebody came to the control socket.
    fn stir_all<R: Wait + Eprint>(
        &self,
        rt: &R,
        events: &mut Events<Global>,
        is_owed: &mut bool,
        now: u64,
    ) -> bool {
        let mut table = self.table.lock(rt);
        let mut is_asked = false;
        for event in events.iter() {
            match token_of(event) {
                LISTENER => *is_owed = true,
                CONTROL => is_asked = true,
                place => stir(&mut table, place, now),
            }
        }
        self.tell_leisure(&table);
        is_asked
    }

    // Hears who asks for a stop. No client waits meanwhile for the table.
    fn heed_control<R: Wait + Eprint>(&self, rt: &R, now: u64) {
        let Some(control) = &self.control else {
            return;
        };
        let is_asked = self.askers.lock(rt).hear(control);
        if is_asked {
            self.stop(rt, now, control.grace);
        }
    }

    // Closes the door, unless it is closed: requests under way may go on for so many seconds. Standard error that can't be written
    // is no fault.
    fn stop<R: Wait + Eprint>(&self, rt: &R, now: u64, grace: u64) {
        if self.close_door(rt, now, grace) {
            let seconds = counted(grace, "second", "seconds");
            let _ = eprintln!(rt;
                "jkd: it stops: no client is accepted any more, and requests under way may take {grace} {seconds}"
            );
        }
    }

    // Closes the door, and tells whether it was open.
    fn close_door<R: Wait + Eprint>(&self, rt: &R, now: u64, grace: u64) -> bool {
        let mut table = self.table.lock(rt);
        if table.is_stopped {
            return false;
        }
        table.is_stopped = true;
        self.ending.set(end_after(now, grace));
        close_waiting(&mut table);
        self.tell_leisure(&table);
        // Who dials from now on is refused at once.
        shutdown(self.listener.as_raw_fd(), SHUT_RDWR);
        true
    }

    /// So many replies more went out whole.
    pub(crate) fn note_replies(&self, count: u64) {
        if count != 0 {
            self.replies.fetch_add(count, Ordering::SeqCst);
        }
    }

    // Says what was served. Standard error that can't be written is no fault.
    fn say_served<R: Wait + Eprint>(&self, rt: &R) {
        let came = self.table.lock(rt).came;
        let replies = self.replies.load(Ordering::SeqCst);
        let clients = counted(came, "client", "clients");
        let whole = counted(replies, "reply", "replies");
        let _ = eprintln!(rt;
            "jkd: it ended: {came} {clients} came, and {replies} {whole} went out whole"
        );
    }

    // Accepts those who wait for it, unless no client may come any more.
    fn accept_clients<R: Wait + Eprint>(&self, rt: &R, lead: &mut Lead, now: u64) {
        for _ in 0..MOST_ACCEPTS {
            if !self.table.lock(rt).is_open() {
                lead.is_owed = false;
                return;
            }
            match self.listener.accept() {
                Ok((stream, address)) => self.let_in(rt, stream, address, now),
                Err(error) if error.kind() == ErrorKind::WouldBlock => {
                    lead.is_owed = false;
                    return;
                }
                Err(error) if is_wanting(&error) => {
                    lead.paused = now.saturating_add(WANT_MILLIS);
                    tell_want(rt, &mut lead.told, now);
                    return;
                }
                Err(_) => {}
            }
        }
    }

    // A client comes in. For want of memory it is closed.
    fn let_in<R: Wait + Eprint>(&self, rt: &R, stream: TcpStream, address: SocketAddr, now: u64) {
        let Ok(ending) = self.ending.share() else {
            return;
        };
        let Ok(end) = StreamEnd::of_client(self.alloc, stream, address.ip(), self.limits, ending)
        else {
            return;
        };
        let number = end.number();
        let client = Client {
            end,
            ahead: Vec::new(self.alloc),
        };
        let mut table = self.table.lock(rt);
        make_way(&mut table, self.limits.waiting);
        table.note_come();
        let failure = match table.places.put(Stay::new(Phase::Head, now), client) {
            Ok(at) => self.watch(&mut table, at, number),
            Err(client) => {
                table.note_gone();
                drop(client);
                None
            }
        };
        self.tell_leisure(&table);
        drop(table);
        self.say_unwatched(rt, failure);
    }

    // Closes the links of those who have waited too long.
    fn sweep<R: Wait + Eprint>(&self, rt: &R, now: u64) {
        let mut table = self.table.lock(rt);
        let limits = Limits::of(&self.limits);
        for at in 0..table.places.len() {
            if let Some((stay, client)) = table.places.remove_over(at, limits, now) {
                count_out(&mut table, stay);
                drop(client);
            }
        }
    }

    /// A worker gives its client back, who waits for a head, of which some bytes may have come. The system's word on it was
    /// waited for meanwhile, or is from now on.
    pub(crate) fn give_back<R: Wait + Eprint>(
        &self,
        rt: &R,
        at: usize,
        stay: Stay,
        client: Client,
        is_heard: bool,
    ) {
        let mut table = self.table.lock(rt);
        table.note_back();
        if table.is_stopped {
            drop(table);
            return self.linger_now(rt, at, client);
        }
        let number = client.end.number();
        let failure = match table.places.give_back(at, stay, client) {
            Ok(()) if is_heard => None,
            Ok(()) => self.watch(&mut table, at, number),
            Err(client) => {
                table.note_gone();
                table.places.free(at);
                drop(client);
                None
            }
        };
        self.tell_leisure(&table);
        drop(table);
        self.say_unwatched(rt, failure);
    }

    /// A worker's client goes.
    pub(crate) fn free<R: Wait + Eprint>(&self, rt: &R, at: usize) {
        let mut table = self.table.lock(rt);
        table.note_back();
        table.note_gone();
        table.places.free(at);
        self.tell_leisure(&table);
    }

    /// A worker leaves its client, whose link lingers.
    pub(crate) fn linger<R: Wait + Eprint>(&self, rt: &R, at: usize, client: Client) {
        self.table.lock(rt).note_back();
        self.linger_now(rt, at, client);
    }

    // The link of a client who is away lingers: this side sends no more.
    fn linger_now<R: Wait + Eprint>(&self, rt: &R, at: usize, client: Client) {
        client.end.shut();
        let now = moment();
        let number = client.end.number();
        let mut table = self.table.lock(rt);
        table.note_gone();
        self.tell_leisure(&table);
        table.places.see(at);
        let stay = Stay::new(Phase::Lingers, now);
        let failure = match table.places.give_back(at, stay, client) {
            Ok(()) => {
                table.lingering = table.lingering.saturating_add(1);
                let failure = self.watch(&mut table, at, number);
                look_at_lingering(&mut table, at, now);
                failure
            }
            Err(client) => {
                table.places.free(at);
                drop(client);
                None
            }
        };
        drop(table);
        self.say_unwatched(rt, failure);
    }

    /// The run ended: what was served is said, and who asked for a stop is told so, once no link lingers any more.
    pub fn say_ended<R: Wait + Eprint>(&self, rt: &R) {
        self.wait_for_lingering(rt);
        self.say_served(rt);
        self.askers.lock(rt).answer();
    }

    /// Waits until no link lingers any more.
    pub fn wait_for_lingering<R: Wait + Eprint>(&self, rt: &R) {
        let mut lead = self.lead.lock(rt);
        for _ in rt.forever() {
            if self.table.lock(rt).lingering == 0 {
                return;
            }
            self.lead_once(rt, &mut lead);
        }
        unreachable!()
    }
}

// Whether it is said at this moment that descriptors are wanted: a minute after it was said last.
fn is_want_told(told: Option<u64>, now: u64) -> bool
    ensures first { told ≡ None → result ≡ true }
    ensures apart { IfSome told (λ last. IsTrue result ↔ (60000 ≤ now - last)) }
{
    match told {
        Some(last) => now.saturating_sub(last) >= WANT_TOLD_MILLIS,
        None => true,
    }
}

// Says that descriptors are wanted, at most once a minute. Standard error that can't be written is no fault.
fn tell_want<R: Eprint>(rt: &R, told: &mut Option<u64>, now: u64) {
    if !is_want_told(*told, now) {
        return;
    }
    *told = Some(now);
    let _ = eprintln!(rt; "jkd: no client is accepted until one goes: no descriptor is left");
}

// The word for one, or for another number.
fn counted(count: u64, one: &'static str, more: &'static str) -> &'static str
    ensures { result ≡ (if count == 1 then one.entry else more.entry) }
{
    if count == 1 { one } else { more }
}

// When all ends where a stop comes now and requests under way may take so many seconds.
fn end_after(now: u64, grace: u64) -> u64
    ensures { result ≡ end_after now grace }
{
    now.saturating_add(grace.saturating_mul(1_000))
}

fn token_of(event: &Event) -> usize {
    event.token().0
}

// What a worker gets. Who is ready is served, also after a stop.
fn turn_of(table: &mut Table) -> Turn
    ensures { GivesTurn table.old result }
{
    match table.places.take() {
        Some((at, stay, client)) => {
            table.note_away();
            Turn::Client(at, stay, client)
        }
        None => match table.end() {
            Some(end) => Turn::Closed(end),
            None => Turn::Nobody,
        },
    }
}

// Something came for a place: who waits there is ready, and what came of a link that lingers is dropped.
fn stir(table: &mut Table, at: usize, now: u64) {
    match table.places.stay_at(at) {
        Some(stay) if stay.phase == Phase::Lingers => look_at_lingering(table, at, now),
        _ => {
            let _ = table.places.stir(at);
        }
    }
}

// Drops what came of a link that lingers, and closes it where nothing comes any more.
fn look_at_lingering(table: &mut Table, at: usize, now: u64) {
    let Some((stay, client)) = table.places.lift(at) else {
        return;
    };
    let mut client = client;
    match drop_bytes(&mut client.end) {
        Dropped::Nothing => lay(table, at, stay, client),
        Dropped::Some => lay(table, at, Stay { last: now, ..stay }, client),
        Dropped::All => {
            table.places.free(at);
            count_out(table, stay);
        }
    }
}

// A link goes on lingering.
fn lay(table: &mut Table, at: usize, stay: Stay, client: Client) {
    if let Err(client) = table.places.give_back(at, stay, client) {
        table.places.free(at);
        count_out(table, stay);
        drop(client);
    }
}

// A client who waited went.
fn count_out(table: &mut Table, stay: Stay)
    ensures { table.new.places ≡ table.old.places }
{
    if stay.phase == Phase::Lingers {
        table.lingering = table.lingering.saturating_sub(1);
    } else {
        table.note_gone();
    }
}

// Where as many wait as may, the one goes who waited longest.
fn make_way(table: &mut Table, waiting: u64) {
    if waiting == 0 || table.waiting() < waiting {
        return;
    }
    if let Some(at) = table.places.longest()
        && let Some((stay, client)) = table.places.remove(at)
    {
        count_out(table, stay);
        drop(client);
    }
}

// Closes the links of all who wait, but for those that linger. Who is ready, and whom workers have, stay.
fn close_waiting(table: &mut Table)
    ensures ready { table.new.places.ready ≡ table.old.places.ready }
    ensures away { KeepsAway table.old.places.places table.new.places.places }
{
    for at in 0..table.places.len() {
        close_unless_lingering(table, at);
    }
}

// Closes the link of the client who waits at a place, unless it lingers.
fn close_unless_lingering(table: &mut Table, at: usize)
    ensures ready { table.new.places.ready ≡ table.old.places.ready }
    ensures away { KeepsAway table.old.places.places table.new.places.places }
{
    match table.places.stay_at(at) {
        Some(stay) if stay.phase != Phase::Lingers => close(table, at),
        _ => {}
    }
}

fn close(table: &mut Table, at: usize)
    ensures ready { table.new.places.ready ≡ table.old.places.ready }
    ensures away { KeepsAway table.old.places.places table.new.places.places }
{
    if let Some((stay, client)) = table.places.remove(at) {
        count_out(table, stay);
        drop(client);
    }
}

/// What was dropped of a link that lingers.
#[derive(Clone, Copy)]
enum Dropped {
    /// Nothing came.
    Nothing,
    /// Some bytes, and more may come.
    Some,
    /// All: its other end closed, or it is broken.
    All,
}

// Reads and drops what is there.
fn drop_bytes(end: &mut StreamEnd) -> Dropped {
    let mut buf = [0u8; DROPPED_BYTES];
    let mut dropped = Dropped::Nothing;
    for _ in 0..DROP_ROUNDS {
        match end.at_hand(&mut buf) {
            AtHand::Came(0) | AtHand::Broken => return Dropped::All,
            AtHand::Came(_) => dropped = Dropped::Some,
            AtHand::Nothing => return dropped,
        }
    }
    dropped
}
