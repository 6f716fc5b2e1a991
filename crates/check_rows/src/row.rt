//! Reading a row: its lines, and the texts that stand below some of them.
use crate::texts::{With, put_text};
use jk_io::{Bytes, FileList, ListOf, NoMemory, NumberList, parse_decimal};
use std::alloc::Global;

/// Why a row can't be done.
#[derive(Clone, Copy, Drop)]
pub enum RowError {
    Unreadable,
    NoMemory,
}

impl From<NoMemory> for RowError {
    fn from(_: NoMemory) -> RowError {
        RowError::NoMemory
    }
}

/// A row as it is done once: its lines, and what stands for `\1` and `\2` in them.
#[derive(Clone, Copy)]
pub struct BlockRow<'r> {
    pub lines: &'r str,
    pub with: With<'r>,
}

/// The first word of a line, and what stands after it.
fn parts_of(line: &str) -> (&str, &str) {
    line.split_once(' ').unwrap_or((line, ""))
}

/// Whether a line is of the text that began above it, or of no text at all.
fn is_of_text(line: &str) -> bool {
    if line.starts_with('|') || line.starts_with('+') || line.starts_with('#') {
        return true;
    }
    match parts_of(line).0 {
        "" | "times" | "counted" | "again" => true,
        _ => false,
    }
}

fn number_in(text: &str) -> Result<u64, RowError> {
    parse_decimal(text.as_bytes()).ok_or(RowError::Unreadable)
}

fn put_times(out: &mut Bytes, rest: &str, with: With<'_>) -> Result<(), RowError> {
    let (times, text) = parts_of(rest);
    for _ in 0..number_in(times)? {
        put_text(out, text, with, 0)?;
    }
    Ok(())
}

fn put_counted(out: &mut Bytes, rest: &str, with: With<'_>) -> Result<(), RowError> {
    let (times, text) = parts_of(rest);
    for number in 0..number_in(times)? {
        put_text(out, text, with, number)?;
    }
    Ok(())
}

fn put_again(out: &mut Bytes, times: &str) -> Result<(), RowError> {
    let times = number_in(times)?;
    let piece = out.copy()?;
    for _ in 0..times {
        out.extend(piece.as_slice())?;
    }
    Ok(())
}

/// Adds a line of a text; a comment and an empty line add nothing.
fn put_line(out: &mut Bytes, line: &str, with: With<'_>) -> Result<(), RowError> {
    if let Some(text) = line.strip_prefix('|') {
        put_text(out, text, with, 0)?;
        out.push(b'\n')?;
        return Ok(());
    }
    if let Some(text) = line.strip_prefix('+') {
        return put_text(out, text, with, 0);
    }
    let (key, rest) = parts_of(line);
    match key {
        "times" => put_times(out, rest, with),
        "counted" => put_counted(out, rest, with),
        "again" => put_again(out, rest),
        _ => Ok(()),
    }
}

/// Where a text of a row stands.
#[derive(Clone, Copy)]
struct Place<'k> {
    key: &'k str,
    /// How many lines of this key come first.
    before: usize,
    inside: bool,
}

impl<'k> Place<'k> {
    /// The place at a line with this key.
    fn at(self, key: &str) -> Place<'k> {
        if key != self.key {
            return Place {
                inside: false,
                ..self
            };
        }
        Place {
            before: self.before.wrapping_sub(1),
            inside: self.before == 0,
            ..self
        }
    }
}

/// Adds the text in the line of a key itself; in that of a file stands its name.
fn put_own(out: &mut Bytes, key: &str, rest: &str, with: With<'_>) -> Result<(), RowError> {
    if key == "file" {
        return Ok(());
    }
    put_text(out, rest, with, 0)
}

fn put_place(out: &mut Bytes, row: BlockRow<'_>, place: Place<'_>) -> Result<(), RowError> {
    let mut place = place;
    for line in row.body().lines() {
        if !is_of_text(line) {
            let (key, rest) = parts_of(line);
            place = place.at(key);
            if place.inside {
                put_own(out, key, rest, row.with)?;
            }
        } else if place.inside {
            put_line(out, line, row.with)?;
        }
    }
    Ok(())
}

impl<'r> BlockRow<'r> {
    /// The row of these lines, done as they stand.
    pub fn new(lines: &'r str) -> BlockRow<'r> {
        let with = With {
            first: "",
            second: "",
        };
        BlockRow { lines, with }
    }

    /// Its name, which stands in its first line.
    pub fn name(self) -> &'r str {
        self.lines.lines().next().unwrap_or("")
    }

    /// Its lines but the first.
    pub fn body(self) -> &'r str {
        self.lines.split_once('\n').map_or("", |cut| cut.1)
    }

    /// The rest of the first line that begins with this word.
    pub fn value(self, key: &str) -> Option<&'r str> {
        for line in self.body().lines() {
            let (first, rest) = parts_of(line);
            if first == key {
                return Some(rest);
            }
        }
        None
    }

    /// As `value`; `-` where no line begins with this word.
    pub fn word(self, key: &str) -> &'r str {
        self.value(key).unwrap_or("-")
    }

    /// How many lines begin with this word.
    pub fn count(self, key: &str) -> usize {
        self.body()
            .lines()
            .filter(|line| parts_of(line).0 == key)
            .count()
    }

    fn spelled(self, alloc: Global, text: &str) -> Result<Bytes, RowError> {
        let mut bytes = Bytes::new(alloc);
        put_text(&mut bytes, text, self.with, 0)?;
        Ok(bytes)
    }

    fn number_of(self, alloc: Global, text: &str) -> Result<u64, RowError> {
        let digits = self.spelled(alloc, text)?;
        parse_decimal(digits.as_slice()).ok_or(RowError::Unreadable)
    }

    /// The number of the first line of this word, where there is one.
    pub fn number(self, alloc: Global, key: &str) -> Result<Option<u64>, RowError> {
        match self.value(key) {
            None => Ok(None),
            Some(text) => Ok(Some(self.number_of(alloc, text)?)),
        }
    }

    fn put_numbers(self, alloc: Global, key: &str, out: &mut NumberList) -> Result<(), RowError> {
        for line in self.body().lines() {
            let (first, rest) = parts_of(line);
            if first == key {
                let number = self.number_of(alloc, rest)?;
                out.push(number).map_err(|_| NoMemory)?;
            }
        }
        Ok(())
    }

    /// The numbers of all lines of this word.
    pub fn numbers(self, alloc: Global, key: &str) -> Result<NumberList, RowError> {
        let mut numbers = NumberList::new(alloc);
        self.put_numbers(alloc, key, &mut numbers)?;
        Ok(numbers)
    }

    /// The text in and below the line of this word that `before` others of that word precede; empty without such a line.
    pub fn text(self, alloc: Global, key: &str, before: usize) -> Result<Bytes, RowError> {
        let mut text = Bytes::new(alloc);
        let place = Place {
            key,
            before,
            inside: false,
        };
        put_place(&mut text, self, place)?;
        Ok(text)
    }

    /// As `text`; empty where it can't be read.
    pub fn bytes_at(self, alloc: Global, key: &str, before: usize) -> Result<Bytes, NoMemory> {
        match self.text(alloc, key, before) {
            Ok(text) => Ok(text),
            Err(RowError::Unreadable) => Ok(Bytes::new(alloc)),
            Err(RowError::NoMemory) => Err(NoMemory),
        }
    }

    /// As `bytes_at`, of the first line of this word.
    pub fn bytes(self, alloc: Global, key: &str) -> Result<Bytes, NoMemory> {
        self.bytes_at(alloc, key, 0)
    }

    /// The number that the first line of this word writes, 0 where it writes none.
    pub fn amount(self, alloc: Global, key: &str) -> Result<u64, NoMemory> {
        let digits = self.bytes(alloc, key)?;
        Ok(parse_decimal(digits.as_slice()).unwrap_or(0))
    }

    /// Adds the words of a line `words`, or the one below a line `word`.
    fn put_words(self, alloc: Global, rest: &str, out: &mut ListOf<Bytes>) -> Result<(), RowError> {
        for word in rest.split(' ') {
            push(out, self.spelled(alloc, word)?)?;
        }
        Ok(())
    }

    fn put_all_words(self, alloc: Global, out: &mut ListOf<Bytes>) -> Result<(), RowError> {
        let mut before = 0usize;
        for line in self.body().lines() {
            let (key, rest) = parts_of(line);
            if key == "words" {
                self.put_words(alloc, rest, out)?;
            } else if key == "word" {
                push(out, self.text(alloc, "word", before)?)?;
                before = before.saturating_add(1);
            }
        }
        Ok(())
    }

    /// The words of a command, in order.
    pub fn words(self, alloc: Global) -> Result<ListOf<Bytes>, RowError> {
        let mut words = ListOf::new(alloc);
        self.put_all_words(alloc, &mut words)?;
        Ok(words)
    }

    fn named(self, alloc: Global, name: &str, before: usize) -> Result<(Bytes, Bytes), RowError> {
        let text = self.text(alloc, "file", before)?;
        Ok((Bytes::from_slice(alloc, name.as_bytes())?, text))
    }

    fn put_files(self, alloc: Global, out: &mut FileList) -> Result<(), RowError> {
        let mut before = 0usize;
        for line in self.body().lines() {
            let (key, name) = parts_of(line);
            if key == "file" {
                push_file(out, self.named(alloc, name, before)?)?;
                before = before.saturating_add(1);
            }
        }
        Ok(())
    }

    /// The files, each with its name.
    pub fn files(self, alloc: Global) -> Result<FileList, RowError> {
        let mut files = FileList::new(alloc);
        self.put_files(alloc, &mut files)?;
        Ok(files)
    }

    /// The text of the first file of a name; an empty one where there is none.
    pub fn file(self, alloc: Global, name: &str) -> Result<Bytes, RowError> {
        let mut before = 0usize;
        for line in self.body().lines() {
            let (key, rest) = parts_of(line);
            if key == "file" {
                if rest == name {
                    return self.text(alloc, "file", before);
                }
                before = before.saturating_add(1);
            }
        }
        Ok(Bytes::new(alloc))
    }
}

fn push(out: &mut ListOf<Bytes>, word: Bytes) -> Result<(), NoMemory> {
    out.push(word)?;
    Ok(())
}

fn push_file(out: &mut FileList, file: (Bytes, Bytes)) -> Result<(), NoMemory> {
    out.push(file)?;
    Ok(())
}
