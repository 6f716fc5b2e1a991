//! The real world: sockets, files and the system's clock.
ghost use Rattle.std.specs.Prelude.{◌≡◌, ◌+◌, ◌<◌, ◌≤◌, IfOk, IsErrOf, IsSome, None, Some, map};
ghost use Rattle.std.specs.Option.{option_and_then, option_copied, option_map};
ghost use Rattle.jk_io.specs.Told.{Rose};
ghost use Rattle.gear_worlds.specs.Real.{files_trouble, shelf_trouble};
ghost use Rattle.gear_worlds.specs.RealDoors.{door_clients};

use crate::descriptors::fitting;
use crate::file_log::FileLog;
use crate::new_files::RealNewFiles;
use crate::notice::notice;
use crate::opening::{
    FIRST_NUMBER, bound_address, listen, log_path, make_and_remove, names_of, open_log, shown,
    taken, trial_path,
};
use crate::real_door::RealDoor;
use crate::segment_turns::SegmentTurns;
use crate::shelves::{DropShelf, FileShelf, RealShelf};
use crate::trouble::Trouble;
use conn_pool::NoTape;
use gear_parts::{Gear, GearOrder, World};
use jk_io::{Bytes, IoError, NoMemory};
use real_io::{Notices, Outbox, RealClock, TcpDial, TcpDoor};
use site_config::{Config, Lb};
use site_reports::AcceptedSite;
use std::alloc::Global;
use std::io::{self, ErrorKind};
use std::net::{Net, TcpListener, TcpStream};
use std::rt::Files;
use std::sync::{Arc, Wait};
use std::time::Clock;
use waiting_room::{OpenRoomError, Room, RoomDoor, open_room};

/// A world of sockets and files, of which it tells nothing. The doors of a site's gears lead into one room, in which its
/// clients wait; those of a container's accept from one socket. It is opened with the first gear.
#[derive(Drop)]
pub struct RealWorld<
    'r,
    R: Net<Stream = TcpStream, Listener = TcpListener> + Files + Clock + Wait + Eprint,
> {
    rt: &'r R,
    /// How many gears are to be handed out.
    threads: u32,
    /// Where the clients of a site wait.
    room: Option<Arc<Room>>,
    /// Where it is said that a member fails.
    notices: Option<Notices>,
    /// How far the journals are in files.
    turns: Option<SegmentTurns>,
    /// Where the clients of a container come.
    listener: Option<TcpListener>,
    counts: WorldCounts,
    /// What failed first.
    trouble: Option<Trouble>,
    ghost known: { trouble ≡ None → counts.failed ≡ 0 },
}

/// How many gears are out, and how many calls failed.
#[derive(Drop)]
struct WorldCounts {
    out: u64,
    failed: u64,
}

impl<
    'r,
    R: Net<Stream = TcpStream, Listener = TcpListener> + Files + Clock + Wait + Eprint,
> RealWorld<'r, R> {
    ghost use Rattle.gear_worlds.specs.Real.{IsShelfFor, Readies};

    /// A world with no socket yet. With the last of `threads` gears it says on standard error where it listens.
    pub fn new(rt: &'r R, threads: u32) -> RealWorld<'r, R>
        ensures { (result.threads ≡ threads) × (result.counts ≡ record { out = 0; failed = 0 }) × (result.trouble ≡ None) }
    {
        RealWorld {
            rt,
            threads,
            room: None,
            notices: None,
            turns: None,
            listener: None,
            counts: WorldCounts { out: 0, failed: 0 },
            trouble: None,
        }
    }

    /// What failed first, for a person to read.
    pub fn trouble(&self) -> Option<&Trouble>
        ensures first { option_copied result ≡ self.now.trouble }
        ensures some { 0 < self.now.counts.failed → IsSome result }
    {
        self.trouble.as_ref()
    }

    /// The run ended well: who asked for a stop is told so, once no link lingers any more.
    pub fn say_ended(&self) {
        if let Some(room) = &self.room {
            room.say_ended(self.rt);
        }
    }

    /// The run ended: it is waited until no link lingers any more.
    pub fn wait_for_lingering(&self) {
        if let Some(room) = &self.room {
            room.wait_for_lingering(self.rt);
        }
    }

    // Whether a log couldn't be opened, so that no worker begins.
    fn has_no_log(&self) -> bool {
        matches!(self.trouble, Some(Trouble::Log { .. }))
    }

    // Counts a failure, and keeps the first one's reason.
    fn fail(&mut self, trouble: Trouble) -> IoError
        ensures error { result ≡ IoError.Failed }
        ensures rose { Rose self.old.counts.failed self.new.counts.failed × (self.old.counts.failed ≤ self.new.counts.failed) }
        ensures first { self.old.trouble ≡ None → self.new.trouble ≡ Some trouble }
        ensures kept { IsSome self.old.trouble → self.new.trouble ≡ self.old.trouble }
        ensures same { self.new.counts.out ≡ self.old.counts.out }
    {
        if self.trouble.is_none() {
            self.trouble = Some(trouble);
        }
        self.counts.failed = self.counts.failed.saturating_add(1);
        IoError::Failed
    }

    // A handle of the socket, which is opened unless it is open.
    fn listener(&mut self, alloc: Global, address: &Bytes) -> Result<TcpListener, IoError>
        ensures { Readies self.old.counts self.new.counts result }
    {
        match listen(self.rt, &mut self.listener, address) {
            Ok(listener) => Ok(listener),
            Err(reason) => {
                let trouble = listen_trouble(alloc, address, reason)?;
                Err(self.fail(trouble))
            }
        }
    }

    // Looks whether the directory of a journal can be written.
    fn try_dir(&mut self, alloc: Global, dir: &Bytes) -> Result<(), IoError>
        ensures { Readies self.old.counts self.new.counts result }
    {
        let path = trial_path(dir)?;
        if let Err(reason) = make_and_remove(self.rt, &path) {
            let dir = shown(alloc, dir)?;
            return Err(self.fail(Trouble::Journal { dir, reason }));
        }
        Ok(())
    }

    // Looks whether the files with which the balancers' journals begin can be new.
    fn try_names(&mut self, alloc: Global, dir: &Bytes, lbs: &[Lb]) -> Result<(), IoError>
        ensures { Readies self.old.counts self.new.counts result }
    {
        match taken(self.rt, dir, lbs)? {
            None => Ok(()),
            Some(path) => {
                let path = shown(alloc, &path)?;
                Err(self.fail(Trouble::Taken { path }))
            }
        }
    }

    // The room, which is opened unless it is open.
    fn room(&mut self, alloc: Global, asked: &GearOrder<'_>) -> Result<Arc<Room>, IoError>
        ensures { Readies self.old.counts self.new.counts result }
    {
        if let Some(room) = &self.room {
            return Ok(Arc::try_clone(room)?);
        }
        let room = self.new_room(alloc, asked)?;
        let handle = Arc::try_clone(&room)?;
        self.room = Some(room);
        Ok(handle)
    }

    // A share of what is said of members.
    fn notices(&mut self, alloc: Global, cfg: Option<&Config>) -> Result<Notices, NoMemory>
        ensures { self.new.counts ≡ self.old.counts }
    {
        if let Some(notices) = &self.notices {
            return notices.share();
        }
        let first = Notices::new(alloc)?;
        if let Some(cfg) = cfg {
            name_members(&first, cfg.lbs.as_slice())?;
        }
        let share = first.share()?;
        self.notices = Some(first);
        Ok(share)
    }

    // A share of how far the journals are in files.
    fn turns(&mut self, alloc: Global, balancers: usize) -> Result<SegmentTurns, NoMemory>
        ensures { self.new.counts ≡ self.old.counts }
    {
        if let Some(turns) = &self.turns {
            return turns.share();
        }
        let first = SegmentTurns::new(alloc, balancers, FIRST_NUMBER)?;
        let share = first.share()?;
        self.turns = Some(first);
        Ok(share)
    }

    // Opens the room, with no more clients that wait than there are descriptors for.
    fn new_room(&mut self, alloc: Global, asked: &GearOrder<'_>) -> Result<Arc<Room>, IoError>
        ensures { Readies self.old.counts self.new.counts result }
    {
        let limits = fitting(self.rt, self.threads, asked.cfg, asked.limits);
        match open_room(
            self.rt,
            alloc,
            asked.address,
            limits,
            asked.control,
            asked.grace,
        ) {
            Ok(room) => shared(alloc, room),
            Err(error) => Err(self.refused(alloc, asked, error)),
        }
    }

    // Why the room isn't there.
    fn refused(&mut self, alloc: Global, asked: &GearOrder<'_>, error: OpenRoomError) -> IoError
        ensures failed { (result ≡ IoError.Failed) → Rose self.old.counts.failed self.new.counts.failed }
        ensures wanted { (result ≡ IoError.NoMemory) → self.new.counts.failed ≡ self.old.counts.failed }
        ensures no_fewer { self.old.counts.failed ≤ self.new.counts.failed }
        ensures same { self.new.counts.out ≡ self.old.counts.out }
    {
        let trouble = match error {
            OpenRoomError::Listen(reason) => listen_trouble(alloc, asked.address, reason),
            OpenRoomError::Control(reason) => control_trouble(alloc, asked.control, reason),
            OpenRoomError::NoMemory => Err(NoMemory),
        };
        match trouble {
            Ok(trouble) => self.fail(trouble),
            Err(NoMemory) => IoError::NoMemory,
        }
    }

    // Says where clients are waited for, with the port that the system gave. Standard error that can't be written is no fault.
    fn announce(&self, alloc: Global, asked: &GearOrder<'_>) -> Result<(), NoMemory> {
        let bound = match (&self.room, &self.listener) {
            (Some(room), _) => bound_address(alloc, room.address())?,
            (None, Some(listener)) => bound_address(alloc, listener.local_addr().ok())?,
            (None, None) => None,
        };
        let address = match &bound {
            Some(address) => address,
            None => asked.address,
        };
        let line = notice(alloc, address, self.threads, asked.cfg)?;
        if let Ok(line) = str::from_utf8(line.as_slice()) {
            let _ = eprintln!(self.rt; "{line}");
        }
        if asked.clients == Some(0) {
            let _ = eprintln!(self.rt;
                "jkd: --clients 0 lets no client in, so each worker ends at once"
            );
        }
        Ok(())
    }

    // Where the segments of a journal go.
    fn shelf(
        &mut self,
        alloc: Global,
        journal: Option<&Bytes>,
        cfg: Option<&Config>,
    ) -> Result<RealShelf<'r, R>, NoMemory>
        ensures same { self.new.counts ≡ self.old.counts }
        ensures shelf { IfOk result (λ shelf. IsShelfFor (option_copied journal.entry) (option_map (λ c. map (λ lb. lb.name) c.lbs) (option_copied cfg.entry)) shelf) }
    {
        let (Some(dir), Some(cfg)) = (journal, cfg) else {
            return Ok(RealShelf::Dropped(DropShelf));
        };
        let names = names_of(alloc, cfg.lbs.as_slice())?;
        let notices = self.notices(alloc, Some(cfg))?;
        let turns = self.turns(alloc, cfg.lbs.len())?;
        let shelf = FileShelf::new(
            self.rt,
            RealNewFiles::new(self.rt),
            dir.copy()?,
            names,
            notices,
            turns,
        );
        Ok(RealShelf::Files(shelf))
    }

    // Looks whether a journal can be written in a directory, and its first files can be new.
    fn try_journal(&mut self, alloc: Global, dir: &Bytes, lbs: &[Lb]) -> Result<(), IoError>
        ensures { Readies self.old.counts self.new.counts result }
    {
        self.try_dir(alloc, dir)?;
        self.try_names(alloc, dir, lbs)
    }

    // Opens the room or the socket unless it is open.
    fn open(&mut self, alloc: Global, asked: &GearOrder<'_>) -> Result<(), IoError>
        ensures { Readies self.old.counts self.new.counts result }
    {
        if asked.cfg.is_some() {
            self.room(alloc, asked)?;
        } else {
            self.listener(alloc, asked.address)?;
        }
        Ok(())
    }

    // Looks whether the directory of the logs can be written.
    fn try_logs(&mut self, alloc: Global, dir: &Bytes) -> Result<(), IoError>
        ensures { Readies self.old.counts self.new.counts result }
    {
        let path = trial_path(dir)?;
        if let Err(reason) = make_and_remove(self.rt, &path) {
            let dir = shown(alloc, dir)?;
            return Err(self.fail(Trouble::Log { dir, reason }));
        }
        Ok(())
    }

    // With the first gear, tries whether a journal and logs that are to be kept can be written.
    fn try_first(
        &mut self,
        alloc: Global,
        number: u32,
        asked: &GearOrder<'_>,
    ) -> Result<(), IoError>
        ensures { Readies self.old.counts self.new.counts result }
    {
        if number != 0 {
            return Ok(());
        }
        if let (Some(dir), Some(cfg)) = (asked.journal, asked.cfg) {
            self.try_journal(alloc, dir, cfg.lbs.as_slice())?;
        }
        match asked.log {
            Some(dir) => self.try_logs(alloc, dir),
            None => Ok(()),
        }
    }

    // What is done once for all gears: the room or the socket is opened, with the first gear it is tried whether a journal and
    // logs can be written, and with the last it is said where clients are waited for.
    fn greet(&mut self, alloc: Global, number: u32, asked: &GearOrder<'_>) -> Result<(), IoError>
        ensures { Readies self.old.counts self.new.counts result }
    {
        self.open(alloc, asked)?;
        self.try_first(alloc, number, asked)?;
        if number.checked_add(1) == Some(self.threads) {
            self.announce(alloc, asked)?;
        }
        Ok(())
    }

    // A worker's door, for at most so many clients as are asked for, and its dial.
    fn door_and_dial(
        &mut self,
        alloc: Global,
        asked: &GearOrder<'_>,
    ) -> Result<(RealDoor<'r, R>, TcpDial<'r, R>), IoError>
        ensures clients { IfOk result (λ made. door_clients made.0 ≡ asked.now.clients) }
        ensures step { Readies self.old.counts self.new.counts result }
    {
        if asked.cfg.is_some() {
            let room = self.room(alloc, asked)?;
            let notices = self.notices(alloc, asked.cfg)?;
            return Ok(waiting_pair(self.rt, alloc, room, notices, asked.clients)?);
        }
        let listener = self.listener(alloc, asked.address)?;
        Ok(plain_pair(self.rt, Outbox::new(alloc)?, listener, asked.clients)?)
    }

    // What a worker uses, with this shelf for its segments.
    fn gear_with(
        &mut self,
        alloc: Global,
        asked: &GearOrder<'_>,
        shelf: RealShelf<'r, R>,
    ) -> Result<RealGear<'r, R>, IoError>
        ensures unlogged { IfOk result (λ gear. gear.log ≡ None) }
        ensures clients { IfOk result (λ gear. door_clients gear.door ≡ asked.now.clients) }
        ensures shelf { IfOk result (λ gear. gear.shelf ≡ shelf.entry) }
        ensures step { Readies self.old.counts self.new.counts result }
    {
        let (door, dial) = self.door_and_dial(alloc, asked)?;
        Ok(Gear {
            door,
            dial,
            tape: NoTape,
            clock: RealClock::new(self.rt),
            shelf,
            log: None,
        })
    }

    // What a worker uses.
    fn worker_gear(
        &mut self,
        alloc: Global,
        asked: &GearOrder<'_>,
    ) -> Result<RealGear<'r, R>, IoError>
        ensures unlogged { IfOk result (λ gear. gear.log ≡ None) }
        ensures clients { IfOk result (λ gear. door_clients gear.door ≡ asked.now.clients) }
        ensures shelf { IfOk result (λ gear. IsShelfFor (option_copied asked.now.journal) (option_map (λ c. map (λ lb. lb.name) c.lbs) (option_copied asked.now.cfg)) gear.shelf) }
        ensures step { Readies self.old.counts self.new.counts result }
    {
        let shelf = self.shelf(alloc, asked.journal, asked.cfg)?;
        self.gear_with(alloc, asked, shelf)
    }
}

// A room that is shared.
fn shared(alloc: Global, room: Room) -> Result<Arc<Room>, IoError>
    ensures { IsErrOf result IoError.Failed → ⊥ }
{
    match Arc::new(alloc, room) {
        Ok(room) => Ok(room),
        Err(_) => Err(IoError::NoMemory),
    }
}

// Tells the names of all members, each once for its address.
fn name_members(notices: &Notices, lbs: &[Lb]) -> Result<(), NoMemory> {
    for lb in lbs {
        for (member, end) in lb.book.members.as_slice().iter().zip(lb.ends.as_slice()) {
            notices.name(&end.host, end.port, &member.name)?;
        }
    }
    Ok(())
}

// Why clients can't be waited for.
fn listen_trouble(alloc: Global, address: &Bytes, reason: io::Error) -> Result<Trouble, NoMemory> {
    let address = shown(alloc, address)?;
    if reason.kind() == ErrorKind::InvalidInput || !has_host(&address) {
        return Ok(Trouble::Address { address });
    }
    Ok(Trouble::Listen { address, reason })
}

// Whether something stands before the port that may be a host's name.
fn has_host(address: &str) -> bool {
    !address.starts_with(':') && !address.starts_with('*')
}

// Why the socket can't be made at which a stop is asked for.
fn control_trouble(
    alloc: Global,
    path: Option<&Bytes>,
    reason: io::Error,
) -> Result<Trouble, NoMemory> {
    let path = match path {
        Some(path) => shown(alloc, path)?,
        None => String::new(alloc),
    };
    Ok(Trouble::Control { path, reason })
}

// Why a worker's files couldn't be written: a segment's, or else its log.
fn trouble_in<'r, R: Files + Clock + Wait>(
    shelf: &mut RealShelf<'r, R>,
    log: Option<FileLog<'r, R::File, R>>,
) -> Option<Trouble>
    ensures { result ≡ files_trouble (shelf_trouble shelf.old) (option_and_then (λ l. l.trouble) log.entry) }
{
    match (shelf.take_trouble(), log) {
        (None, Some(mut log)) => log.take_trouble(),
        (trouble, _) => trouble,
    }
}

// Says that a worker ended before its room was closed, which no file explains. Standard error that can't be written is no fault.
fn say_early<R: Eprint>(rt: &R) {
    let _ = eprintln!(rt;
        "jkd: a worker ended early: it wanted memory, or a ticket came back that was not out"
    );
}

// A door into the room, by which so many clients more come, and a dial that shares its outbox.
fn waiting_pair<'r, R: Net<Stream = TcpStream> + Wait + Eprint>(
    rt: &'r R,
    alloc: Global,
    room: Arc<Room>,
    notices: Notices,
    clients: Option<u64>,
) -> Result<(RealDoor<'r, R>, TcpDial<'r, R>), NoMemory>
    ensures { IfOk result (λ made. door_clients made.0 ≡ clients) }
{
    let outbox = Outbox::new(alloc)?;
    let dial = TcpDial::of_front(rt, outbox.share()?, room.ending().share()?, notices);
    let door = RoomDoor::new(rt, room, outbox, clients);
    Ok((RealDoor::Waiting(door), dial))
}

// A door on a listener, for at most `clients` clients, and a dial that shares its outbox.
fn plain_pair<'r, R: Net<Stream = TcpStream> + Wait + Eprint>(
    rt: &'r R,
    outbox: Outbox,
    listener: TcpListener,
    clients: Option<u64>,
) -> Result<(RealDoor<'r, R>, TcpDial<'r, R>), NoMemory>
    ensures { IfOk result (λ made. door_clients made.0 ≡ clients) }
{
    let dial = TcpDial::with_outbox(rt, outbox.share()?);
    let door = TcpDoor::with_outbox(listener, clients, outbox);
    Ok((RealDoor::Plain(door), dial))
}

/// What a worker uses of the real world.
pub type RealGear<'r, R> = Gear<
    RealDoor<'r, R>,
    TcpDial<'r, R>,
    NoTape,
    RealClock<'r, R>,
    RealShelf<'r, R>,
    FileLog<'r, <R as Files>::File, R>,
>;

impl<
    'r,
    R: Net<Stream = TcpStream, Listener = TcpListener> + Files + Clock + Wait + Eprint + Sync,
> World for RealWorld<'r, R>
where
    R::File: Send,
{
    ghost use Rattle.std.specs.Prelude.{◌≡◌, None, map};
    ghost use Rattle.std.specs.Option.{option_map};
    ghost use Rattle.gear_worlds.specs.Real.{IsShelfFor};
    ghost use Rattle.gear_worlds.specs.Files.{worker_file};
    ghost use Rattle.gear_worlds.specs.RealDoors.{door_clients};

    type D = RealDoor<'r, R>;

    type G = TcpDial<'r, R>;

    type T = NoTape;

    type K = RealClock<'r, R>;

    type S = RealShelf<'r, R>;

    type O = FileLog<'r, R::File, R>;

    ghost handed = { λ _. None };

    ghost came_back = { λ _. None };

    ghost out = { λ w. w.counts.out };

    ghost faults = { λ w. w.counts.failed };

    // its door takes as many clients as are wanted, and the journal that is wanted is written
    ghost suits = { λ number wanted cfg gear. (door_clients gear.door ≡ wanted.clients)
        × IsShelfFor wanted.journal (option_map (λ c. map (λ lb. lb.name) c.lbs) cfg) gear.shelf };

    // the log of a worker is written into its file
    ghost is_log = { λ dir number log. log.path ≡ worker_file dir number };

    fn show_site(&mut self, _alloc: Global, _site: &AcceptedSite) {}

    fn gear(
        &mut self,
        alloc: Global,
        number: u32,
        asked: &GearOrder<'_>,
    ) -> Result<RealGear<'r, R>, IoError> {
        let Some(out) = self.counts.out.checked_add(1) else {
            return Err(self.fail(Trouble::TooMany));
        };
        self.greet(alloc, number, asked)?;
        let gear = self.worker_gear(alloc, asked)?;
        self.counts.out = out;
        Ok(gear)
    }

    fn log(
        &mut self,
        alloc: Global,
        dir: &Bytes,
        number: u32,
    ) -> Result<FileLog<'r, R::File, R>, IoError> {
        let path = log_path(dir, number)?;
        let notices = self.notices(alloc, None)?;
        match open_log(self.rt, &path) {
            Ok(file) => Ok(FileLog::new(self.rt, path, file, notices)),
            Err(reason) => {
                let dir = shown(alloc, dir)?;
                Err(self.fail(Trouble::Log { dir, reason }))
            }
        }
    }

    fn back(&mut self, gear: RealGear<'r, R>)
        requires out { 0 < self.old.counts.out }
        ensures one_less { self.new.counts.out + 1 ≡ self.old.counts.out }
        ensures same { self.new.counts.failed ≡ self.old.counts.failed }
        ensures kept { IsSome self.old.trouble → self.new.trouble ≡ self.old.trouble }
        ensures first { self.old.trouble ≡ None
            → self.new.trouble ≡ files_trouble (shelf_trouble gear.entry.shelf) (option_and_then (λ l. l.trouble) gear.entry.log) }
    {
        self.counts.out -= 1;
        let Gear {
            door,
            dial: _,
            tape: _,
            clock: _,
            mut shelf,
            log,
        } = gear;
        match trouble_in(&mut shelf, log) {
            Some(trouble) if self.trouble.is_none() => self.trouble = Some(trouble),
            None if door.is_left_open() && !self.has_no_log() => say_early(self.rt),
            _ => {}
        }
    }
}
