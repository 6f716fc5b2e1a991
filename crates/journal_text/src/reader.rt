//! The reader of a text: where it stands, and what each line makes of that.
ghost use Rattle.std.specs.Prelude.{◌≡◌, [], ◌∷◌, ◌++◌, ◌+◌, ◌≤◌, ◌<◌, ◌^◌, None, Some, true, false, length, IfNone, IfErr, IfOk, IfSome, MatchOption};
ghost use Rattle.journal_text.specs.Ranges.{IsKeptLine};
ghost use Rattle.journal_text.specs.Reading.{Continues, Heads, Opens, RefusesTextLine, TakesAt, TakesOpening, TakesText, at_start, begun, headed, held, is_body, is_end, is_over, named, rules_at, with_member, with_ticket};

use crate::counted::{Counted, CountedList};
use crate::draft::OpeningDraft;
use crate::text_error::TextError;
use crate::{Beginning, Line, MemberValues, read_line};
use jk_io::{Bytes, NoMemory};
use lb_model::{Entry, MemberList, RowList, Segment, TicketList};
use std::alloc::Global;

/// Where a text is read.
#[derive(Drop)]
pub enum TextPlace {
    /// Between segments. The rules are those of the last one, and 1 before the first.
    Outside { former: u8 },
    /// After the line of a segment's rules.
    Ruled { rules: u8 },
    /// In an opening, after its balancer's line.
    Heading { rules: u8, draft: OpeningDraft },
    /// Among the entries of a segment.
    Body { name: Bytes, segment: Segment },
}

/// The reader of a text, which takes it line by line and holds the segments that nobody took out.
#[derive(Drop)]
pub struct Reader {
    place: TextPlace,
    /// The segments that were read.
    done: CountedList,
}

fn begun(former: u8, done: CountedList, line: Line) -> Option<Reader>
    ensures { result ≡ begun former done line }
{
    match line {
        Line::Rules(rules) if former <= rules => Some(Reader {
            place: TextPlace::Ruled { rules },
            done,
        }),
        _ => None,
    }
}

fn named(alloc: Global, rules: u8, done: CountedList, line: Line) -> Option<Reader>
    ensures { result ≡ named rules done line }
{
    let Line::Balancer { name, values } = line else {
        return None;
    };
    let draft = OpeningDraft {
        name,
        values,
        members: MemberList::new(alloc),
        rows: RowList::new(alloc),
        out: TicketList::new(alloc),
    };
    Some(Reader {
        place: TextPlace::Heading { rules, draft },
        done,
    })
}

fn opened(
    alloc: Global,
    rules: u8,
    done: CountedList,
    draft: OpeningDraft,
    beginning: &Beginning,
) -> Option<Reader>
    requires { length draft.rows + length draft.out < 2 ^ 32 }
    ensures { Opens rules done draft beginning.now result }
{
    if !draft.is_full() {
        return None;
    }
    let (name, segment) = draft.begin(alloc, rules, beginning)?;
    Some(Reader {
        place: TextPlace::Body { name, segment },
        done,
    })
}

// With a further member.
fn with_member(
    rules: u8,
    done: CountedList,
    draft: OpeningDraft,
    name: Bytes,
    route: Bytes,
    values: MemberValues,
) -> Result<Option<Reader>, NoMemory>
    ensures { IfOk result (λ found. found ≡ Some (headed rules done (with_member draft name route values))) }
{
    let further = draft.with_member(name, route, values)?;
    Ok(Some(Reader {
        place: TextPlace::Heading {
            rules,
            draft: further,
        },
        done,
    }))
}

// With a further ticket that is out.
fn with_ticket(
    rules: u8,
    done: CountedList,
    draft: OpeningDraft,
    ticket: u64,
    member: u32,
) -> Result<Option<Reader>, NoMemory>
    ensures { IfOk result (λ found. found ≡ Some (headed rules done (with_ticket draft ticket member))) }
{
    let further = draft.with_ticket(ticket, member)?;
    Ok(Some(Reader {
        place: TextPlace::Heading {
            rules,
            draft: further,
        },
        done,
    }))
}

fn headed(
    alloc: Global,
    rules: u8,
    done: CountedList,
    draft: OpeningDraft,
    line: Line,
) -> Result<Option<Reader>, NoMemory>
    requires { length draft.rows + length draft.out < 2 ^ 32 }
    ensures { IfOk result (Heads rules done draft line) }
{
    let full = draft.is_full();
    match line {
        Line::Member {
            name,
            route,
            values,
        } if !full => with_member(rules, done, draft, name, route, values),
        Line::Lease { ticket, member } if full => with_ticket(rules, done, draft, ticket, member),
        Line::From(beginning) => Ok(opened(alloc, rules, done, draft, &beginning)),
        _ => Ok(None),
    }
}

// With a further entry.
fn with_entry(
    done: CountedList,
    name: Bytes,
    segment: Segment,
    entry: Entry,
) -> Result<Option<Reader>, NoMemory>
    requires { IsKeptLine segment.rules (Line.Entry entry) }
    ensures { IfOk result (Continues done name segment (Line.Entry entry)) }
{
    let Segment {
        rules,
        opening,
        entries,
    } = segment;
    let mut entries = entries;
    entries.push(entry)?;
    let segment = Segment {
        rules,
        opening,
        entries,
    };
    Ok(Some(Reader {
        place: TextPlace::Body { name, segment },
        done,
    }))
}

// After the end of a segment.
fn ended(
    done: CountedList,
    name: Bytes,
    segment: Segment,
    count: u64,
) -> Result<Option<Reader>, NoMemory>
    ensures { IfOk result (Continues done name segment (Line.End count)) }
{
    let former = segment.rules;
    let mut done = done;
    done.push(Counted {
        name,
        segment,
        count,
    })?;
    Ok(Some(Reader {
        place: TextPlace::Outside { former },
        done,
    }))
}

fn continued(
    done: CountedList,
    name: Bytes,
    segment: Segment,
    line: Line,
) -> Result<Option<Reader>, NoMemory>
    requires { IsKeptLine segment.rules line }
    ensures { IfOk result (Continues done name segment line) }
{
    match line {
        Line::Entry(entry) => with_entry(done, name, segment, entry),
        Line::End(count) => ended(done, name, segment, count),
        _ => Ok(None),
    }
}

impl Reader {
    /// Before the first line.
    pub fn new(alloc: Global) -> Reader
        ensures { result ≡ at_start }
    {
        Reader {
            place: TextPlace::Outside { former: 1 },
            done: CountedList::new(alloc),
        }
    }

    fn take(self, alloc: Global, line: Line) -> Result<Option<Reader>, NoMemory>
        requires few { held self.place < 2 ^ 32 }
        requires kept { IsKeptLine (rules_at self.place) line }
        ensures { IfOk result (TakesAt self.done self.place line) }
    {
        let Reader { place, done } = self;
        match place {
            TextPlace::Outside { former } => Ok(begun(former, done, line)),
            TextPlace::Ruled { rules } => Ok(named(alloc, rules, done, line)),
            TextPlace::Heading { rules, draft } => headed(alloc, rules, done, draft, line),
            TextPlace::Body { name, segment } => continued(done, name, segment, line),
        }
    }

    /// Takes the text of a line, without its LF. `None`: it can't be read there.
    pub fn take_text(self, alloc: Global, text: &[u8]) -> Result<Option<Reader>, NoMemory>
        requires { held self.place < 2 ^ 32 }
        ensures { IfOk result (TakesText self text.now) }
    {
        let read = read_line(alloc, self.rules(), text)?;
        self.take_read(alloc, read)
    }

    // Takes what a text was read as.
    fn take_read(self, alloc: Global, read: Option<Line>) -> Result<Option<Reader>, NoMemory>
        requires few { held self.place < 2 ^ 32 }
        requires kept { IfSome read (IsKeptLine (rules_at self.place)) }
        ensures { IfOk result (λ found. MatchOption read (found ≡ None) (λ line. TakesAt self.done self.place line found)) }
    {
        match read {
            None => Ok(None),
            Some(line) => self.take(alloc, line),
        }
    }

    /// Takes out the segment whose opening was read whole, with its balancer's name; the reader then stands between segments.
    pub fn take_opening(self) -> (Reader, Option<(Bytes, Segment)>)
        ensures none { IfNone result.1 ((result.0 ≡ self) × (is_body self.place ≡ false)) }
        ensures opened { IfSome result.1 (λ x. TakesOpening self x.0 x.1 result.0) }
    {
        let Reader { place, done } = self;
        match place {
            TextPlace::Body { name, segment } => {
                let place = TextPlace::Outside {
                    former: segment.rules,
                };
                (Reader { place, done }, Some((name, segment)))
            }
            place => (Reader { place, done }, None),
        }
    }

    /// The rules of the present segment, or of the last one.
    pub fn rules(&self) -> u8
        ensures { result ≡ rules_at self.now.place }
    {
        match &self.place {
            TextPlace::Outside { former } => *former,
            TextPlace::Ruled { rules } => *rules,
            TextPlace::Heading { rules, .. } => *rules,
            TextPlace::Body { segment, .. } => segment.rules,
        }
    }

    /// Takes the text of the line with this number, without its LF.
    pub fn take_line(self, alloc: Global, text: &[u8], number: u32) -> Result<Reader, TextError>
        requires { held self.place < 2 ^ 32 }
        ensures takes { IfOk result (λ q. TakesText self text.now (Some q)) }
        ensures grown { IfOk result (λ q. held q.place ≤ held self.place + 1) }
        ensures err { IfErr result (RefusesTextLine self number text.now) }
    {
        match self.take_text(alloc, text)? {
            Some(further) => Ok(further),
            None => Err(TextError::Unreadable { line: number }),
        }
    }

    /// The segments that were read, where a text may end here; `last` is what stands after its last LF.
    pub(crate) fn end(self, last: &[u8]) -> Option<CountedList>
        ensures { MatchOption result (is_end self last.now ≡ false) (λ done. (is_end self last.now ≡ true) × (done ≡ self.done)) }
    {
        if self.is_over(last) && !self.done.is_empty() {
            Some(self.into_done())
        } else {
            None
        }
    }

    fn into_done(self) -> CountedList
        ensures { result ≡ self.done }
    {
        self.done
    }

    /// Takes out the segment that was read last, where there is one.
    pub fn take_segment(&mut self) -> Option<Counted>
        ensures none { IfNone result ((self.old.done ≡ []) × (self.new.done ≡ [])) }
        ensures some { IfSome result (λ c. self.old.done ≡ self.new.done ++ c ∷ []) }
        ensures same { self.new.place ≡ self.old.place }
    {
        self.done.pop()
    }

    /// Whether a text may end here that has a segment; `last` is what stands after its last LF.
    pub fn is_over(&self, last: &[u8]) -> bool
        ensures { result ≡ is_over self.now last.now }
    {
        last.is_empty() && matches!(&self.place, TextPlace::Outside { .. })
    }
}
