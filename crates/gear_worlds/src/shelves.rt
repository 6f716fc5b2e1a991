//! Shelves of the real world: files in a directory, or none.
ghost use Rattle.std.specs.Prelude.{◌≡◌, ◌≤◌, IfErr, IfOk, IsSome, None, IsErrOf, OnErr, OnOk, Some, slice_get, string_bytes};
ghost use Rattle.gear_worlds.specs.Files.{IsFileOf};
ghost use Rattle.gear_worlds.specs.NewFiles.{FilesSegment, MakesFile};
ghost use Rattle.gear_worlds.specs.Real.{IsWhy, KeepsTrouble, SaysUnkept, SaysUnwritten, shelf_trouble};
ghost use Rattle.jk_io.specs.Told.{HasCause, Rose};

use crate::journal_files::{SegmentFile, segment_file};
use crate::new_files::{NewFiles, RealNewFiles};
use crate::opening::shown;
use crate::segment_turns::SegmentTurns;
use crate::tries::{APART_MILLIS, patience};
use crate::trouble::Trouble;
use jk_io::{Bytes, IoError, ListOf, NoMemory};
use lb_model::Segment;
use lb_shared::{Admission, Shelf};
use libc::net::poll;
use real_io::{Notices, moment};
use std::io::{self, ErrorKind};
use std::rt::Files;
use std::sync::Wait;
use std::time::Clock;

/// A shelf that writes each segment into a new file `DIR/NAME-FIRST.jkj`, after those that come before it, whichever shelf of
/// the run has them. It tells nothing of what it holds.
#[derive(Drop)]
pub struct FileShelf<'r, R, N: NewFiles + Drop> {
    rt: &'r R,
    /// Where the files are made.
    files: N,
    dir: Bytes,
    /// The balancers' names, in order.
    names: ListOf<Bytes>,
    /// Where it is said that a segment can't be written.
    notices: Notices,
    /// How far the journals are in files.
    turns: SegmentTurns,
    /// Which segment couldn't be written first.
    trouble: Option<Trouble>,
    failed: u64,
}

impl<'r, R: Wait + Clock, N: NewFiles + Drop> FileShelf<'r, R, N> {
    /// A shelf in this directory, for the balancers of these names, in order. No file is made or looked at.
    pub fn new(
        rt: &'r R,
        files: N,
        dir: Bytes,
        names: ListOf<Bytes>,
        notices: Notices,
        turns: SegmentTurns,
    ) -> FileShelf<'r, R, N>
        ensures place { (result.files ≡ files) × (result.dir ≡ dir) × (result.names ≡ names) }
        ensures unfailed { (result.trouble ≡ None) × (result.failed ≡ 0) }
    {
        FileShelf {
            rt,
            files,
            dir,
            names,
            notices,
            turns,
            trouble: None,
            failed: 0,
        }
    }

    /// Which segment couldn't be written first, and why.
    pub fn take_trouble(&mut self) -> Option<Trouble>
        ensures told { result ≡ self.old.trouble }
        ensures taken { self.new.trouble ≡ None }
        ensures same { (self.new.failed ≡ self.old.failed) × (self.new.files ≡ self.old.files) }
    {
        self.trouble.take()
    }

    // Counts a failure, and keeps the first one's reason.
    fn fail(&mut self, trouble: Trouble) -> IoError
        ensures error { result ≡ IoError.Failed }
        ensures rose { Rose self.old.failed self.new.failed × (self.old.failed ≤ self.new.failed) }
        ensures first { self.old.trouble ≡ None → self.new.trouble ≡ Some trouble }
        ensures kept { IsSome self.old.trouble → self.new.trouble ≡ self.old.trouble }
        ensures same { (self.new.files ≡ self.old.files) × (self.new.dir ≡ self.old.dir) × (self.new.names ≡ self.old.names) }
    {
        if self.trouble.is_none() {
            self.trouble = Some(trouble);
        }
        self.failed = self.failed.saturating_add(1);
        IoError::Failed
    }

    // Writes the file of a segment. A balancer that has no name here has none.
    fn write(&mut self, lb: u32, segment: &Segment) -> Result<(), KeepError>
        ensures why { IfErr result (IsWhy (SaysUnkept self.old.dir self.old.names lb segment.now)) }
        ensures file { FilesSegment self.old.dir self.old.names lb segment.now (N.made self.old.files) (N.made self.new.files) result }
        ensures place { (self.new.dir ≡ self.old.dir) × (self.new.names ≡ self.old.names) }
        ensures same { (self.new.trouble ≡ self.old.trouble) × (self.new.failed ≡ self.old.failed) }
    {
        match self.file_of(lb, segment)? {
            Some(file) => self.write_file(lb, file),
            None => Err(KeepError::Lost(Trouble::Nameless { lb })),
        }
    }

    // The file of a segment; none where its balancer has no name here.
    fn file_of(&self, lb: u32, segment: &Segment) -> Result<Option<SegmentFile>, NoMemory>
        ensures { IfOk result (IsFileOf self.now.dir (slice_get self.now.names lb) segment.now) }
    {
        match self.names.get(lb as usize) {
            Some(name) => Ok(Some(segment_file(&self.dir, name, segment)?)),
            None => Ok(None),
        }
    }

    // Makes a new file. That can't be done where its path isn't UTF-8.
    fn write_file(&mut self, lb: u32, file: SegmentFile) -> Result<(), KeepError>
        ensures why { IfErr result (IsWhy (SaysUnwritten file.path)) }
        ensures ok { OnOk result (MakesFile file.path file.text (N.made self.old.files) (N.made self.new.files)) }
        ensures err { OnErr result (N.made self.new.files ≡ N.made self.old.files) }
        ensures place { (self.new.dir ≡ self.old.dir) × (self.new.names ≡ self.old.names) }
        ensures same { (self.new.trouble ≡ self.old.trouble) × (self.new.failed ≡ self.old.failed) }
    {
        let SegmentFile { path, text } = file;
        let path = text_of(path)?;
        let trying = Trying {
            notices: &self.notices,
            turns: &self.turns,
            lb,
            until: moment().saturating_add(patience(self.trouble.as_ref())),
        };
        match make_until(
            self.rt,
            &mut self.files,
            trying,
            path.as_str(),
            text.as_slice(),
        ) {
            Ok(()) => Ok(()),
            Err(reason) => {
                self.notices.given_up(path.as_str(), &reason);
                Err(KeepError::Lost(Trouble::Unwritten { path, reason }))
            }
        }
    }

    // Says how far the journal of a balancer is in files now.
    fn pass_on(&self, lb: u32, segment: &Segment, is_written: bool) {
        let count = segment.entries.len() as u64;
        if is_written {
            let end = segment.opening.next.saturating_add(count);
            self.turns.come_to(self.rt, lb, end, count);
        } else {
            self.turns.give_up(self.rt, lb, count);
        }
    }

    // Writes the file of a segment in its turn, and counts where that wasn't done.
    fn keep_file(&mut self, lb: u32, segment: &Segment) -> Result<(), IoError>
        ensures cause { HasCause self.old.failed self.new.failed result }
        ensures stands { OnOk result (self.new.failed ≡ self.old.failed) }
        ensures wanted { IsErrOf result IoError.NoMemory → self.new.failed ≡ self.old.failed }
        ensures trouble { KeepsTrouble (SaysUnkept self.old.dir self.old.names lb segment.now) self.old.trouble self.new.trouble result }
        ensures file { FilesSegment self.old.dir self.old.names lb segment.now (N.made self.old.files) (N.made self.new.files) result }
        ensures same { (self.new.dir ≡ self.old.dir) × (self.new.names ≡ self.old.names) }
    {
        self.turns.wait_until(self.rt, lb, segment.opening.next);
        let written = self.write(lb, segment);
        self.pass_on(lb, segment, written.is_ok());
        match written {
            Ok(()) => Ok(()),
            Err(KeepError::Lost(trouble)) => Err(self.fail(trouble)),
            Err(KeepError::NoMemory) => Err(IoError::NoMemory),
        }
    }
}

// Why a segment isn't kept.
#[derive(Drop)]
enum KeepError {
    /// It has no file, or not a whole one.
    Lost(Trouble),
    NoMemory,
}

impl From<NoMemory> for KeepError {
    ghost use Rattle.std.specs.Prelude.{◌≡◌};
    ghost use Rattle.gear_worlds.specs.declared.shelves.KeepError.TheVariants as keep;

    ghost from_gives = { λ _ e. e ≡ keep.NoMemory };

    fn from(_error: NoMemory) -> KeepError {
        KeepError::NoMemory
    }
}

// The path of a file that is to be written, as a text. One that isn't UTF-8 is refused.
fn text_of(path: Bytes) -> Result<String, KeepError>
    ensures ok { IfOk result (λ text. string_bytes text ≡ path) }
    ensures err { IfErr result (IsWhy (SaysUnwritten path)) }
{
    let bytes = path.into_vec();
    let alloc = *bytes.allocator();
    match String::from_utf8(bytes) {
        Ok(text) => Ok(text),
        Err(error) => {
            let path = shown(alloc, &Bytes::from_vec(error.into_bytes()))?;
            let reason = ErrorKind::InvalidInput.into();
            Err(KeepError::Lost(Trouble::Unwritten { path, reason }))
        }
    }
}

// Until when a file of a balancer is tried to be written, and who learns that it can't be.
#[derive(Clone, Copy)]
struct Trying<'a> {
    notices: &'a Notices,
    turns: &'a SegmentTurns,
    lb: u32,
    until: u64,
}

// Makes a new file. Where that fails it is tried again until a moment, which is said on standard error, and nobody waits for it;
// not where the file is there already.
fn make_until<R: Wait, N: NewFiles>(
    rt: &R,
    files: &mut N,
    trying: Trying<'_>,
    path: &str,
    text: &[u8],
) -> io::Result<()>
    ensures ok { OnOk result (MakesFile path.now text.now (N.made files.old) (N.made files.new)) }
    ensures err { OnErr result (N.made files.new ≡ N.made files.old) }
{
    let mut is_said = false;
    for _ in 0..u64::MAX {
        let Err(reason) = files.make(path, text) else {
            return Ok(());
        };
        if reason.kind() == ErrorKind::AlreadyExists || moment() >= trying.until {
            return Err(reason);
        }
        if !is_said {
            trying.notices.unkept(path, &reason);
            trying.turns.be_late(rt, trying.lb);
            is_said = true;
        }
        poll(&mut [], APART_MILLIS);
    }
    Err(ErrorKind::TimedOut.into())
}

impl<'r, R: Wait + Clock, N: NewFiles + Drop> Shelf for FileShelf<'r, R, N> {
    ghost use Rattle.std.specs.Prelude.{◌≡◌, [], ◌∷◌, IsErrOf, OnErr, OnOk};
    ghost use Rattle.jk_io.specs.Told.{HasCause, appended};
    ghost use Rattle.gear_worlds.specs.NewFiles.{FilesSegment};
    ghost use Rattle.gear_worlds.specs.Real.{KeepsTrouble, SaysUnkept, untold};

    ghost shelved = { λ _. untold };

    ghost faults = { λ s. s.failed };

    /// It fails for a balancer that has no name here, and where the file can't be made new and written whole. The first such
    /// trouble is kept. A segment that it keeps is in its own file, which is new; no other is made.
    fn keep(&mut self, lb: u32, segment: Segment) -> Result<(), IoError>
        ensures kept { OnOk result (untold ≡ appended untold ((lb, segment) ∷ [])) }
        ensures refused { OnErr result (untold ≡ untold) }
        ensures cause { HasCause self.old.failed self.new.failed result }
        ensures stands { OnOk result (self.new.failed ≡ self.old.failed) }
        ensures wanted { IsErrOf result IoError.NoMemory → self.new.failed ≡ self.old.failed }
        ensures trouble { KeepsTrouble (SaysUnkept self.old.dir self.old.names lb segment) self.old.trouble self.new.trouble result }
        ensures file { FilesSegment self.old.dir self.old.names lb segment (N.made self.old.files) (N.made self.new.files) result }
        ensures same { (self.new.dir ≡ self.old.dir) × (self.new.names ≡ self.old.names) }
    {
        self.keep_file(lb, &segment)
    }

    /// It waits where more entries than may be lost could come to be in no file.
    fn admit(&self, lb: u32, entries: usize, cut_at: u32) -> Admission {
        self.turns.begin(self.rt, lb, entries, cut_at);
        Admission::new(lb, entries)
    }

    fn settle(&self, admission: Admission, added: usize) {
        let lb = admission.lb();
        self.turns.settle(self.rt, lb, admission.unused(added));
    }

    fn failed(&self) -> u64 {
        self.failed
    }
}

/// A shelf that drops what it is given. It never fails, and tells nothing.
#[derive(Drop)]
pub struct DropShelf;

impl Shelf for DropShelf {
    ghost use Rattle.std.specs.Prelude.{None};

    ghost shelved = { λ _. None };

    ghost faults = { λ _. 0 };

    fn keep(&mut self, _lb: u32, _segment: Segment) -> Result<(), IoError>
        ensures { result ≡ Ok tt }
    {
        Ok(())
    }

    fn admit(&self, lb: u32, entries: usize, _cut_at: u32) -> Admission {
        Admission::new(lb, entries)
    }

    fn settle(&self, admission: Admission, added: usize) {
        admission.unused(added);
    }

    fn failed(&self) -> u64 {
        0
    }
}

/// The shelf of a real gear: files where a journal is kept, else none.
#[derive(Drop)]
pub enum RealShelf<'r, R: Files> {
    Files(FileShelf<'r, R, RealNewFiles<'r, R>>),
    Dropped(DropShelf),
}

impl<'r, R: Files + Wait + Clock> RealShelf<'r, R> {
    /// Which segment couldn't be written first, and why.
    pub(crate) fn take_trouble(&mut self) -> Option<Trouble>
        ensures { result ≡ shelf_trouble self.old }
    {
        match self {
            RealShelf::Files(shelf) => shelf.take_trouble(),
            RealShelf::Dropped(_) => None,
        }
    }
}

impl<'r, R: Files + Wait + Clock> Shelf for RealShelf<'r, R> {
    ghost use Rattle.std.specs.Prelude.{◌≡◌, [], ◌∷◌, IsErrOf, OnErr, OnOk};
    ghost use Rattle.jk_io.specs.Told.{HasCause, appended};
    ghost use Rattle.gear_worlds.specs.Real.{KeepsTrouble, shelf_faults, shelf_says, shelf_trouble, untold};

    ghost shelved = { λ _. untold };

    ghost faults = { shelf_faults };

    fn keep(&mut self, lb: u32, segment: Segment) -> Result<(), IoError>
        ensures kept { OnOk result (untold ≡ appended untold ((lb, segment) ∷ [])) }
        ensures refused { OnErr result (untold ≡ untold) }
        ensures cause { HasCause (shelf_faults self.old) (shelf_faults self.new) result }
        ensures stands { OnOk result (shelf_faults self.new ≡ shelf_faults self.old) }
        ensures wanted { IsErrOf result IoError.NoMemory → shelf_faults self.new ≡ shelf_faults self.old }
        ensures trouble { KeepsTrouble (shelf_says self.old lb segment) (shelf_trouble self.old) (shelf_trouble self.new) result }
    {
        match self {
            RealShelf::Files(shelf) => shelf.keep(lb, segment),
            RealShelf::Dropped(shelf) => shelf.keep(lb, segment),
        }
    }

    fn admit(&self, lb: u32, entries: usize, cut_at: u32) -> Admission {
        match self {
            RealShelf::Files(shelf) => shelf.admit(lb, entries, cut_at),
            RealShelf::Dropped(shelf) => shelf.admit(lb, entries, cut_at),
        }
    }

    fn settle(&self, admission: Admission, added: usize) {
        match self {
            RealShelf::Files(shelf) => shelf.settle(admission, added),
            RealShelf::Dropped(shelf) => shelf.settle(admission, added),
        }
    }

    fn failed(&self) -> u64 {
        match self {
            RealShelf::Files(shelf) => shelf.failed(),
            RealShelf::Dropped(shelf) => shelf.failed(),
        }
    }
}
