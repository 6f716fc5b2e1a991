//! A desk over a Site behind its lock, whose journal is cut.
ghost use Rattle.std.specs.Prelude.{◌≡◌, ◌<◌, ◌∷◌, [], None, length};
ghost use Rattle.desk_checks.specs.Openings.{OpensSite};

use crate::exchanged::{FRESH, tell_once, tell_view};
use crate::leases::OneSite;
use crate::sites::site_of;
use check_lines::begin::{FreshBook, is_opening_line};
use check_lines::calls::{FitOutcome, call_of, outcome_of};
use check_lines::judging::{Teller, judge_line, judge_lines};
use check_lines::one_exchange;
use check_lines::texts::{first_word, put_number, say};
use jk_io::{Bytes, NoMemory, NumberList};
use lb_book::Desk;
use lb_model::{Entry, Segment};
use lb_shared::{
    DeskShare, KeptList, Leaving, MemShelf, SharedDesk, SharedSite, SiteBlank, SiteName,
};
use std::alloc::Global;
use std::sync::Wait;

/// A desk over a Site of one Book, which holds no ticket between two lines.
#[derive(Drop)]
struct SharedRow<'s, 'r, L: SiteName, R> {
    desk: SharedDesk<'s, 'r, L, MemShelf, R>,
    ghost one: { length desk.desk.sizes ≡ 1 },
    ghost anyone: { desk.desk.caller ≡ None },
    ghost none: { desk.desk.held ≡ [] },
}

impl<'s, 'r, L: SiteName, R: Wait> SharedRow<'s, 'r, L, R> {
    fn exchange(
        &mut self,
        session: u32,
        at: u64,
        fit: FitOutcome,
        out: &mut Bytes,
    ) -> Result<bool, NoMemory> {
        let once = one_exchange(&mut self.desk, 0, session, at, &FRESH, fit.outcome);
        tell_once(&once, out)?;
        Ok(true)
    }

    fn exchange_as(&mut self, asked: &Entry, out: &mut Bytes) -> Result<bool, NoMemory> {
        match outcome_of(asked) {
            Some(fit) => self.exchange(asked.session, asked.at, fit, out),
            None => Ok(false),
        }
    }

    fn call(&mut self, alloc: Global, call: &str, out: &mut Bytes) -> Result<bool, NoMemory> {
        match call_of(alloc, call)? {
            Some(asked) => self.exchange_as(&asked, out),
            None => Ok(false),
        }
    }

    fn look(&mut self, out: &mut Bytes) -> Result<bool, NoMemory> {
        let shown = self.desk.look(0)?;
        tell_view(shown.view(), out)?;
        Ok(true)
    }
}

impl<'s, 'r, L: SiteName, R: Wait> Teller for SharedRow<'s, 'r, L, R> {
    fn tell(&mut self, alloc: Global, asked: &str, out: &mut Bytes) -> Result<bool, NoMemory> {
        if is_opening_line(asked) {
            return say(out, asked);
        }
        match first_word(asked) {
            ("desk", _) => say(out, asked),
            ("look", _) => self.look(out),
            ("exchange", call) => self.call(alloc, call, out),
            _ => Ok(false),
        }
    }
}

/// What a desk left: told by the line `left`.
#[derive(Drop)]
struct LeftRow<'l, L: SiteName> {
    left: &'l Leaving<L, MemShelf>,
}

fn put_kept(lb: u32, segment: &Segment, out: &mut Bytes) -> Result<(), NoMemory> {
    put_number(out, ", of ", u64::from(lb))?;
    put_number(out, " ", segment.entries.len() as u64)?;
    put_number(out, " from ", segment.opening.next)
}

fn put_shelf(shelf: &MemShelf, out: &mut Bytes) -> Result<bool, NoMemory> {
    for (lb, segment) in shelf.kept() {
        put_kept(*lb, segment, out)?;
    }
    Ok(true)
}

impl<'l, L: SiteName> Teller for LeftRow<'l, L> {
    fn tell(&mut self, _alloc: Global, _asked: &str, out: &mut Bytes) -> Result<bool, NoMemory> {
        put_number(out, "receipts ", self.left.receipts.len() as u64)?;
        put_number(out, " forgotten ", self.left.forgotten)?;
        put_shelf(&self.left.shelf, out)
    }
}

/// A desk that its row asks first. It takes no memory.
fn row_over<'s, 'r, L: SiteName, R: Wait>(
    alloc: Global,
    site: &'s SharedSite<'r, L, R>,
    share: DeskShare<L>,
) -> SharedRow<'s, 'r, L, R>
    requires one { length L.sizes ≡ 1 }
    requires part { 0 < share.parts }
    requires amount { share.amount ≡ 0 }
{
    let shelf = MemShelf::new(KeptList::new(alloc), NumberList::new(alloc));
    SharedRow {
        desk: SharedDesk::new(alloc, site, share, shelf),
    }
}

/// Judges the line `left` of a row over what its desk leaves.
fn judge_left<L: SiteName>(
    alloc: Global,
    left: &Leaving<L, MemShelf>,
    row: &str,
    line: &str,
    shown: &mut String,
) -> Result<u64, NoMemory> {
    let (name, _) = row.split_once('\n').unwrap_or((row, ""));
    judge_line(alloc, &mut LeftRow { left }, name, line, shown)
}

fn sum(lines: Result<u64, NoMemory>, left: Result<u64, NoMemory>) -> Result<u64, NoMemory> {
    Ok(lines?.saturating_add(left?))
}

/// Asks a desk for the lines of a row, and judges its line `left` over what the desk leaves.
fn judge_desk<'s, 'r, L: SiteName, R: Wait>(
    alloc: Global,
    asked: SharedRow<'s, 'r, L, R>,
    row: &str,
    left: &str,
    shown: &mut String,
) -> Result<u64, NoMemory> {
    let mut asked = asked;
    let fits = judge_lines(alloc, &mut asked, row, shown);
    sum(
        fits,
        judge_left(alloc, &asked.desk.leave(), row, left, shown),
    )
}

/// Judges a row: its lines over a desk, and the line `left` over what the desk leaves.
pub fn judge<L: SiteName, R: AllocGlobal + Wait>(
    rt: &R,
    blank: SiteBlank,
    fresh: FreshBook,
    cut_at: u32,
    row: &[u8],
    shown: &mut String,
) -> Result<u64, NoMemory>
    requires opens { OpensSite L.name L.parts L.sizes L.firsts blank.entries fresh.book }
    requires counts { (blank.cuts.name ≡ L.cuts_name) × (blank.cuts.parts ≡ L.parts) }
    requires starts { fresh.book.opening ∷ [] ≡ L.starts }
    requires cuts { cut_at ≡ L.cut_at }
{
    let SiteBlank { entries, cuts } = blank;
    let OneSite { site, share } = site_of::<L>(rt.alloc(), entries, fresh)?;
    let (site, share) = SharedSite::new(rt, rt.alloc(), site, share, cuts, cut_at)?;
    let asked = row_over(rt.alloc(), &site, share);
    let row = str::from_utf8(row).unwrap_or("");
    let (lines, left) = row.split_once("\nleft").unwrap_or((row, ""));
    judge_desk(rt.alloc(), asked, lines, left.trim_end(), shown)
}
