//! The lines of a file that are refused, each by itself.
ghost use Rattle.std.specs.Prelude.{◌≡◌, ◌≤◌, ◌++◌, length, IfOk, Some};
ghost use Rattle.std.specs.Option.{option_map};
ghost use Rattle.jk_io.specs.declared.whole_input.TheConstants.{MAX_INPUT_BYTES};
ghost use Rattle.remarks.specs.Added.{Adds};
ghost use Rattle.remarks.specs.Explained.{said_of};
ghost use Rattle.remarks.specs.Firsts.{as_first};
ghost use Rattle.remarks.specs.Refused.{IsKnown, first_in, refused_lines, told_if, wrong_by, wrong_line, wrong_rule};

use crate::explain::{FileLine, map_words, put_said, workers_words};
use crate::remark_out::RemarkOut;
use crate::site_file::SiteFile;
use jk_io::{Bytes, IoError, NoMemory, Sink, trim};
use site_config::{first_line, said, without_mark};
use site_mounts::{Workers, refusal_of};
use std::alloc::Global;

/// By what a file's lines are judged.
#[derive(Clone, Copy)]
pub(crate) enum Judge<'a, 'c> {
    /// As lines of a workers.properties.
    Workers,
    /// As lines of a uriworkermap.properties over these workers.
    Map(&'a Workers<'c>),
}

/// The first line of a file that is refused, and what is wrong with it.
#[derive(Clone, Copy)]
pub(crate) struct FirstRefused {
    pub(crate) line: u32,
    pub(crate) words: &'static [u8],
}

/// What is wrong with a line of a workers.properties by itself, if something is.
fn wrong_line(number: u32, line: &[u8]) -> Option<&'static [u8]>
    ensures { option_map (λ words. words.now) result ≡ wrong_line number line.now }
{
    match said(true, number, trim(line)) {
        Ok(_) => None,
        Err(refusal) => Some(workers_words(refusal.reason)),
    }
}

/// What is wrong with a line of a uriworkermap.properties, if something is.
fn wrong_rule(
    alloc: Global,
    workers: &Workers<'_>,
    number: u32,
    line: &[u8],
) -> Result<Option<&'static [u8]>, NoMemory>
    ensures { IfOk result (λ wrong. option_map (λ words. words.now) wrong ≡ wrong_rule workers.now number line.now) }
{
    match refusal_of(alloc, workers, number, trim(line))? {
        None => Ok(None),
        Some(reason) => Ok(Some(map_words(reason))),
    }
}

/// What is wrong with a line by itself, if something is.
fn wrong_by(
    alloc: Global,
    judge: Judge<'_, '_>,
    number: u32,
    line: &[u8],
) -> Result<Option<&'static [u8]>, NoMemory>
    ensures { IfOk result (λ wrong. option_map (λ words. words.now) wrong ≡ wrong_by judge.entry number line.now) }
{
    match judge {
        Judge::Workers => Ok(wrong_line(number, line)),
        Judge::Map(workers) => wrong_rule(alloc, workers, number, line),
    }
}

/// The same where the first refused line of the file is known: up to that line none is judged again.
fn wrong_after(
    alloc: Global,
    judge: Judge<'_, '_>,
    first: FirstRefused,
    number: u32,
    line: &[u8],
) -> Result<Option<&'static [u8]>, NoMemory>
    requires { IsKnown (as_first first) number (wrong_by judge number line.now) }
    ensures { IfOk result (λ wrong. option_map (λ words. words.now) wrong ≡ wrong_by judge.entry number line.now) }
{
    if number < first.line {
        Ok(None)
    } else if number == first.line {
        Ok(Some(first.words))
    } else {
        wrong_by(alloc, judge, number, line)
    }
}

/// Adds what is wrong with a line. What `buffer` holds before doesn't count.
fn put_told<O: Sink + Drop>(
    out: &mut RemarkOut<O>,
    buffer: &mut Bytes,
    at: FileLine<'_>,
    line: &[u8],
    words: &[u8],
) -> Result<(), IoError>
    ensures { Adds result out.old out.new (said_of at.entry.file.now at.entry.line (words.now ++ line.now)) }
{
    buffer.clear();
    put_said(buffer, at, words, line)?;
    out.put(buffer.as_slice())
}

/// Adds what is wrong with a line, if something is.
fn put_wrong<O: Sink + Drop>(
    out: &mut RemarkOut<O>,
    buffer: &mut Bytes,
    at: FileLine<'_>,
    line: &[u8],
    wrong: Option<&[u8]>,
) -> Result<(), IoError>
    ensures { Adds result out.old out.new
        (told_if at.entry.file.now at.entry.line line.now (option_map (λ words. words.now) wrong.entry)) }
{
    match wrong {
        None => Ok(()),
        Some(words) => put_told(out, buffer, at, line, words),
    }
}

/// Adds each line of a file that is refused by itself, the first of which is known. It is written as it is found, and not held.
pub(crate) fn put_refused<O: Sink + Drop>(
    alloc: Global,
    out: &mut RemarkOut<O>,
    judge: Judge<'_, '_>,
    file: &SiteFile<'_>,
    first: FirstRefused,
) -> Result<(), IoError>
    requires short { length file.now.text.now ≤ MAX_INPUT_BYTES }
    requires first { first_in (wrong_by judge) file.now.text.now ≡ Some (as_first first) }
    ensures { Adds result out.old out.new (refused_lines (wrong_by judge.entry) file.now.name.now file.now.text.now) }
{
    let mut buffer = Bytes::new(alloc);
    let mut number: u32 = 0;
    let mut rest = without_mark(file.text);
    while let Some((line, behind)) = first_line(rest) {
        number += 1;
        let wrong = wrong_after(alloc, judge, first, number, line)?;
        let at = FileLine {
            file: file.name,
            line: number,
        };
        put_wrong(out, &mut buffer, at, line, wrong)?;
        rest = behind;
    }
    Ok(())
}
