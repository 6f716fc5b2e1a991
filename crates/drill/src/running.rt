//! `run_drill`: the Site, its threads, the closing, and what is printed.
ghost use Rattle.std.specs.Prelude.{◌≡◌, ℕ, ◌<◌, ◌≤◌, List, [], ◌∷◌, false, true, codes, length, sum_by, IfOk, IfErr, IfSome, IfNone};
ghost use Rattle.std.specs.List.{All, flat_map};
ghost use Rattle.std.specs.List.Sorted.{IsPermutation};
ghost use Rattle.lb_book.specs.Journal.{Journal};
ghost use Rattle.lb_book.specs.ToldBooks.{sizes_of};
ghost use Rattle.lb_book.specs.declared.receipt.Receipt.{Receipt};
ghost use Rattle.lb_model.specs.declared.journal.Entry.{Entry};
ghost use Rattle.lb_shared.specs.Histories.{IsSiteHistory, starts_of};
ghost use Rattle.lb_shared.specs.Sites.{AreSited, IsBlankOf, added_in, nexts_of};
ghost use Rattle.lb_closing.specs.CloseErrors.{IsCloseError};
ghost use Rattle.drill.specs.Counts.{CountsDrill};
ghost use Rattle.drill.specs.Drills.{IsDrilled};
ghost use Rattle.lb_closing.specs.Closings.{AreUncut, kept_from, noted};
ghost use Rattle.drill.specs.Ends.{AreReceiptsOf, BeginsDrill, IsCompared, IsDiscordFound, IsDrillError, IsDrillJournal, IsMeasured, IsOfDrill, IsStarted, receipts_of};
ghost use Rattle.drill.specs.Requests.{bodies_of};
ghost use Rattle.journal_text.specs.SegmentText.{segment_text};
ghost use Rattle.drill.specs.Summaries.{IsJournalText, summary_text};

use crate::answered::are_answered;
use crate::drill_error::{DrillError, Drilled};
use crate::pass_slots::{PassesLeft, serve_in_turns};
use crate::plan::{MAX_REQUESTS, MAX_THREADS, Plan};
use crate::site::{BALANCER, DrillSite, book_config, drill_site};
use crate::slots::{ThreadsLeft, UnusedShare, serve_all};
use crate::summary::{bodies_of, summary};
use jk_io::{Bytes, NoMemory};
use journal_text::write_segment;
use lb_book::{Book, BookList, Segment};
use lb_closing::{CloseError, Closed, close_desks};
use lb_passes::{PassBook, close_passes};
use lb_shared::{MemShelf, SharedSite, Site, SiteBlank, SiteName};
use std::alloc::Global;
use std::marker::Brand;
use std::slice::from_ref;
use std::sync::Wait;
use std::thread::Threads;

/// A drill's Book, the bytes of all replies' bodies, and how many receipts were compared with the Book's journal.
#[derive(Drop)]
struct Measured {
    book: Book,
    bodies: u64,
    receipts: u64,
}

/// As `Measured`, of all Books of a Site: one receipt of each entry that they added.
#[derive(Drop)]
struct Compared {
    books: BookList,
    bodies: u64,
    receipts: u64,
    ghost compared: { receipts ≡ added_in books },
}

// The Book of a drill, as it starts.
fn start_book(alloc: Global) -> Result<Book, NoMemory>
    ensures start { IfOk result IsStarted }
{
    Book::start(alloc, book_config(alloc)?, 0, 0)
}

fn one_book(alloc: Global, book: Book) -> Result<BookList, NoMemory>
    ensures { IfOk result (λ books. books ≡ book ∷ []) }
{
    let mut books = BookList::new(alloc);
    books.push(book)?;
    Ok(books)
}

// A drill over the Site that a name stands for. It gives the Books back, and what was measured.
fn drill_in<L: SiteName + Send + Sync, R: Threads + Wait + Sync>(
    rt: &R,
    alloc: Global,
    blank: SiteBlank,
    site: &DrillSite,
    plan: Plan,
    books: BookList,
) -> Result<Compared, CloseError<L>>
    requires name { IsBlankOf L.name L.cuts_name L.parts blank }
    requires parts { L.parts ≡ plan.threads }
    requires books { (book : Journal) × (books ≡ book ∷ []) × IsStarted book }
    requires sizes { sizes_of books ≡ L.sizes }
    requires firsts { nexts_of books ≡ L.firsts }
    requires starts { starts_of books ≡ L.starts }
    requires uncut { 0 ≡ L.cut_at }
    ensures one { IfOk result (λ c. length c.books ≡ 1) }
    ensures books { IfOk result (λ c. All IsDrillJournal c.books) }
    ensures begins { IfOk result (λ c. AreUncut c.books → All BeginsDrill c.books) }
    ensures once { IfOk result (λ c. (told : List (List Receipt)) × CountsDrill plan.seed plan.threads plan.requests told c.bodies
        × (AreUncut c.books → AreReceiptsOf told c.books)) }
    ensures cause { IfErr result (IsCloseError IsDiscordFound) }
{
    let SiteBlank { entries, cuts } = blank;
    let (opened, share) = Site::<L>::open(entries, books);
    let (shared, share) = SharedSite::new(rt, alloc, opened, share, cuts, 0)?;
    let left = serve_all(rt, alloc, site, plan, &shared, UnusedShare { share })?;
    close_books(shared, left)
}

// Closes the desks, and gives the Books back. Where they weren't cut, their entries are the receipts of the desks, each once.
fn close_books<'r, L: SiteName, R: Wait>(
    shared: SharedSite<'r, L, R>,
    left: ThreadsLeft<L>,
) -> Result<Compared, CloseError<L>>
    requires some { 0 < length left.leaving }
    requires whole { sum_by (λ l. l.share.parts) left.leaving ≡ L.parts }
    requires sizes { L.sizes ≡ 2 ∷ [] }
    requires firsts { L.firsts ≡ 0 ∷ [] }
    ensures sited { IfOk result (λ c. AreSited L.sizes L.firsts c.books) }
    ensures history { IfOk result (λ c. (log : List (ℕ × (ℕ × Entry))) × IsSiteHistory L.starts log c.books) }
    ensures once { IfOk result (λ c. AreUncut c.books
        → IsPermutation (noted (flat_map (λ l. l.receipts) left.leaving)) (kept_from 0 c.books)) }
    ensures bodies { IfOk result (λ c. c.bodies ≡ left.bodies) }
    ensures counted { IfOk result (λ c. c.receipts ≡ sum_by (λ l. length l.receipts) left.leaving) }
    ensures cause { IfErr result (IsCloseError IsDiscordFound) }
{
    let ThreadsLeft { leaving, bodies } = left;
    let Closed { books, entries, .. } = close_desks(shared, leaving)?;
    Ok(Compared {
        books,
        bodies,
        receipts: entries,
    })
}

/// What is wanted of a drill: the journal's text or the summary, and that of a drill over passes or over a lock.
#[derive(Clone, Copy)]
struct Wanted {
    text: bool,
    passes: bool,
}

// The summary of a segment's journal, or its text; None where the journal lacks a request.
fn text_in(
    alloc: Global,
    plan: Plan,
    wanted: Wanted,
    segment: &Segment,
) -> Result<Option<Bytes>, NoMemory>
    ensures some { IfOk result (λ t. IfSome t (λ _. IsDrilled plan.threads plan.requests segment.now.entries)) }
    ensures none { IfOk result (λ t. IfNone t (IsDrilled plan.threads plan.requests segment.now.entries → ⊥)) }
    ensures summary { wanted.text ≡ false → IfOk result (λ t. IfSome t (λ bytes.
        bytes ≡ summary_text plan.seed plan.threads plan.requests wanted.passes segment.now.entries)) }
    ensures journal { wanted.text ≡ true → IfOk result (λ t. IfSome t (λ bytes. bytes ≡ segment_text (codes "lb") segment.now)) }
{
    let entries = segment.entries.as_slice();
    if !are_answered(plan, entries) {
        return Ok(None);
    }
    if wanted.text {
        Ok(Some(write_segment(BALANCER, segment)?))
    } else {
        Ok(Some(summary(alloc, plan, wanted.passes, entries)?))
    }
}

// As `text_in`, of a Book's journal.
fn text_of(
    alloc: Global,
    plan: Plan,
    wanted: Wanted,
    book: &Book,
) -> Result<Option<Bytes>, NoMemory>
    ensures some { IfOk result (λ t. IfSome t (λ _. IsDrilled plan.threads plan.requests book.now.entries)) }
    ensures none { IfOk result (λ t. IfNone t (IsDrilled plan.threads plan.requests book.now.entries → ⊥)) }
    ensures summary { wanted.text ≡ false → IfOk result (λ t. IfSome t (λ bytes.
        bytes ≡ summary_text plan.seed plan.threads plan.requests wanted.passes book.now.entries)) }
    ensures journal { wanted.text ≡ true → IfOk result (λ t. IfSome t (λ bytes. IsJournalText book.now bytes)) }
{
    let segment = book.segment()?;
    text_in(alloc, plan, wanted, &segment)
}

// What a drill hands out of the Book that it closed, where all bytes of the bodies were there.
fn tell(
    alloc: Global,
    plan: Plan,
    wanted: Wanted,
    measured: Measured,
) -> Result<Drilled, DrillError>
    requires { IsMeasured plan.seed plan.threads plan.requests wanted.passes measured }
    ensures summary { wanted.text ≡ false
        → IfOk result (λ d. d.text ≡ summary_text plan.seed plan.threads plan.requests wanted.passes d.book.entries) }
    ensures journal { wanted.text ≡ true → IfOk result (λ d. IsJournalText d.book d.text) }
    ensures drilled { IfOk result (λ d. IsDrilled plan.threads plan.requests d.book.entries) }
    ensures book { IfOk result (λ d. IsOfDrill d.book) }
    ensures bodies { IfOk result (λ d. d.bodies ≡ bodies_of plan.seed plan.requests) }
    ensures compared { IfOk result (λ d. IsCompared plan.seed plan.threads plan.requests wanted.passes d.bodies d.book) }
    ensures receipts { IfOk result (λ d. d.receipts ≡ receipts_of wanted.passes d.book.entries) }
    ensures cause { IfErr result (IsDrillError plan.seed plan.threads plan.requests) }
{
    let Measured {
        book,
        bodies,
        receipts,
    } = measured;
    let Some(text) = text_of(alloc, plan, wanted, &book)? else {
        return Err(DrillError::Lost(book));
    };
    if bodies != bodies_of(plan) {
        return Err(DrillError::Bodies(bodies));
    }
    Ok(Drilled {
        text,
        book,
        bodies,
        receipts,
    })
}

// Makes the requests over a Site of its own, and gives back its Book. The receipts are those of each entry that it keeps.
fn drilled_book<R: Threads + Wait + Sync>(
    rt: &R,
    alloc: Global,
    site: &DrillSite,
    plan: Plan,
) -> Result<Measured, DrillError>
    ensures measured { IfOk result (IsMeasured plan.seed plan.threads plan.requests false) }
    ensures cause { IfErr result (IsDrillError plan.seed plan.threads plan.requests) }
{
    let books = one_book(alloc, start_book(alloc)?)?;
    let blank = SiteBlank::new(u64::from(plan.threads));
    match drill_in::<Brand, R>(rt, alloc, blank, site, plan, books) {
        Ok(compared) => whole(compared),
        Err(CloseError::Differs(discord)) => Err(DrillError::Differs(discord)),
        Err(CloseError::NoMemory) => Err(DrillError::NoMemory),
    }
}

// The Book of a closed Site, where it keeps an entry for each receipt.
fn whole(compared: Compared) -> Result<Measured, DrillError>
    requires one { length compared.books ≡ 1 }
    requires all { All IsDrillJournal compared.books }
    ensures book { IfOk result (λ m. IsDrillJournal m.book) }
    ensures only { IfOk result (λ m. compared.books ≡ m.book ∷ []) }
    ensures kept { IfOk result (λ m. length m.book.entries ≡ m.book.added) }
    ensures bodies { IfOk result (λ m. m.bodies ≡ compared.bodies) }
    ensures receipts { IfOk result (λ m. m.receipts ≡ length m.book.entries) }
    ensures cause { (seed threads requests : ℕ) → IfErr result (IsDrillError seed threads requests) }
{
    let Compared {
        books,
        bodies,
        receipts,
    } = compared;
    let book = only_book(books);
    if book.kept() != receipts {
        return Err(DrillError::Cut(book));
    }
    Ok(Measured {
        book,
        bodies,
        receipts,
    })
}

fn only_book(books: BookList) -> Book
    requires one { length books ≡ 1 }
    requires all { All IsDrillJournal books }
    ensures book { IsDrillJournal result }
    ensures only { books ≡ result ∷ [] }
    ensures added { result.added ≡ added_in books }
{
    let mut books = books;
    match books.pop() {
        Some(book) => book,
        None => unreachable!(),
    }
}

// Makes the requests over a Book whose callers take turns, and takes it out.
fn passed_book<R: Threads + Wait + Sync>(
    rt: &R,
    alloc: Global,
    site: &DrillSite,
    plan: Plan,
) -> Result<Measured, NoMemory>
    ensures { IfOk result (IsMeasured plan.seed plan.threads plan.requests true) }
{
    let start = start_book(alloc)?;
    let (book, passes) = PassBook::new(alloc, start, plan.threads)?;
    let left = serve_in_turns::<Brand, R>(rt, alloc, site, plan, from_ref(&book), passes)?;
    let PassesLeft { passes, bodies } = left;
    match close_passes(book, passes) {
        Ok(book) => Ok(Measured {
            book,
            bodies,
            receipts: 0,
        }),
        Err(_) => unreachable!(),
    }
}

// The Book of a drill over the drill's own site, behind a lock or by turns.
fn book_of<R: Threads + Wait + Sync>(
    rt: &R,
    alloc: Global,
    plan: Plan,
    passes: bool,
) -> Result<Measured, DrillError>
    ensures measured { IfOk result (IsMeasured plan.seed plan.threads plan.requests passes) }
    ensures cause { IfErr result (IsDrillError plan.seed plan.threads plan.requests) }
{
    let site = drill_site(alloc)?;
    if passes {
        Ok(passed_book(rt, alloc, &site, plan)?)
    } else {
        drilled_book(rt, alloc, &site, plan)
    }
}

/// Makes requests by several threads over one Site: request i, from 0, is made by thread i mod `threads`, over memory
/// against a container's application. With `text` the text is the journal's, else the summary. With `passes` the threads
/// take turns at one Book, each with a pass; else their desks stand behind a lock.
pub fn run_drill<R: Threads + Wait + Sync>(
    rt: &R,
    alloc: Global,
    seed: u64,
    threads: u32,
    requests: u32,
    text: bool,
    passes: bool,
) -> Result<Drilled, DrillError>
    requires threads { (1 ≤ threads) × (threads ≤ MAX_THREADS) }
    requires requests { (1 ≤ requests) × (requests ≤ MAX_REQUESTS) }

    // The summary of the journal of the Book that is handed out, or that journal's text.
    ensures summary { text ≡ false → IfOk result (λ d. d.text ≡ summary_text seed threads requests passes d.book.entries) }
    ensures journal { text ≡ true → IfOk result (λ d. IsJournalText d.book d.text) }

    // In that journal, which began with the drill's balancer, the entries of each thread are those of its requests, each answered whole.
    ensures drilled { IfOk result (λ d. IsDrilled threads requests d.book.entries) }
    ensures book { IfOk result (λ d. IsOfDrill d.book) }

    // The bodies in the rows of all sessions had the bytes that the requests asked for. The receipts of the threads' desks are the
    // journal's entries, each once; over passes those of each thread in their order, and the Book was closed with all passes.
    ensures bodies { IfOk result (λ d. d.bodies ≡ bodies_of seed requests) }
    ensures compared { IfOk result (λ d. IsCompared seed threads requests passes d.bodies d.book) }
    ensures receipts { IfOk result (λ d. d.receipts ≡ receipts_of passes d.book.entries) }

    // Differs only with a discord of the closing, Lost only with a Book in whose journal they aren't, Bodies only where the
    // bodies in the rows of all sessions had other bytes.
    ensures cause { IfErr result (IsDrillError seed threads requests) }
{
    let plan = Plan {
        seed,
        threads,
        requests,
    };
    let measured = book_of(rt, alloc, plan, passes)?;
    tell(alloc, plan, Wanted { text, passes }, measured)
}
