//! Rows of a Book: its calls, its journal and its page.

use crate::held::tell_held;
use crate::paged::Paged;
use check_lines::begin::{FreshBook, ModernBook, is_opening_line, resumed, started};
use check_lines::judging::{Teller, judge_lines};
use check_lines::texts::{first_word, put_line, say};
use jk_io::{Bytes, NoMemory};
use std::alloc::Global;

/// A row of a Book as far as it is taken.
#[derive(Drop)]
struct BookRow {
    /// The lines of the opening.
    lines: Bytes,
    book: Option<ModernBook>,
    pages: Paged,
}

fn started_book(alloc: Global, lines: &[u8]) -> Result<Option<ModernBook>, NoMemory> {
    match started(alloc, lines)? {
        Some(FreshBook { book }) => Ok(Some(ModernBook { book })),
        None => Ok(None),
    }
}

impl BookRow {
    fn new(alloc: Global) -> BookRow {
        BookRow {
            lines: Bytes::new(alloc),
            book: None,
            pages: Paged::new(alloc),
        }
    }

    fn add_line(&mut self, line: &str, out: &mut Bytes) -> Result<bool, NoMemory> {
        put_line(&mut self.lines, line)?;
        say(out, line)
    }

    /// Begins the Book. False where the lines are no opening.
    fn start(&mut self, alloc: Global, out: &mut Bytes) -> Result<bool, NoMemory> {
        self.book = started_book(alloc, self.lines.as_slice())?;
        out.extend(b"start")?;
        Ok(self.book.is_some())
    }

    /// Goes on with the Book. False where the lines are no opening.
    fn resume(&mut self, alloc: Global, out: &mut Bytes) -> Result<bool, NoMemory> {
        self.book = resumed(alloc, self.lines.as_slice())?;
        out.extend(b"resume")?;
        Ok(self.book.is_some())
    }

    /// Puts the Book as it is on the page.
    fn add_part(&mut self, alloc: Global, type_: &str) -> Result<bool, NoMemory> {
        match &self.book {
            Some(modern) => self
                .pages
                .add(alloc, type_, self.lines.as_slice(), &modern.book),
            None => Ok(false),
        }
    }

    /// Puts the Book as it is on the page, and makes room for another one.
    fn show_on_page(
        &mut self,
        alloc: Global,
        type_: &str,
        out: &mut Bytes,
    ) -> Result<bool, NoMemory> {
        let shown = self.add_part(alloc, type_)?;
        self.lines.clear();
        self.book = None;
        out.extend(b"balancer ")?;
        out.extend(type_.as_bytes())?;
        Ok(shown)
    }

    fn tell_of_book(
        &mut self,
        alloc: Global,
        asked: &str,
        out: &mut Bytes,
    ) -> Result<bool, NoMemory> {
        match &mut self.book {
            Some(modern) => tell_held(alloc, modern, asked, self.lines.as_slice(), out),
            None => Ok(false),
        }
    }
}

impl Teller for BookRow {
    fn tell(&mut self, alloc: Global, asked: &str, out: &mut Bytes) -> Result<bool, NoMemory> {
        if is_opening_line(asked) {
            return self.add_line(asked, out);
        }
        match first_word(asked) {
            ("start", _) => self.start(alloc, out),
            ("resume", _) => self.resume(alloc, out),
            ("balancer", type_) => self.show_on_page(alloc, type_, out),
            ("page", way) => self.pages.tell(alloc, way, out),
            _ => self.tell_of_book(alloc, asked, out),
        }
    }
}

pub fn judge(alloc: Global, row: &str, shown: &mut String) -> Result<u64, NoMemory> {
    judge_lines(alloc, &mut BookRow::new(alloc), row, shown)
}
