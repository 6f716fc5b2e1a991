//! An opening, as its lines are read.
ghost use Rattle.std.specs.Prelude.{◌≡◌, ℕ, ◌∷◌, [], ◌++◌, ◌<◌, ◌≤◌, ◌^◌, ◌==◌, length, count_by, IfOk, OnOk, MatchOption, IsTrue, ◌↔◌};
ghost use Rattle.lb_model.specs.declared.opening.Opening.{Opening};
ghost use Rattle.lb_model.specs.declared.segment.Segment.{Segment};
ghost use Rattle.lb_model.specs.Validity.{IsOpening};
ghost use Rattle.journal_text.specs.Openings.{AreCounted, Begins, IsOpened, config_of, row_of};
ghost use Rattle.journal_text.specs.Reading.{is_full, with_member, with_ticket};

use crate::{BalancerValues, Beginning, MemberValues};
use jk_io::{Bytes, NoMemory};
use lb_model::{
    EntryList, LbConfig, MemberConfig, MemberList, MemberRow, Opening, RowList, Segment, TicketList,
};
use std::alloc::Global;

/// An opening as far as its lines are read.
#[derive(Drop)]
pub struct OpeningDraft {
    pub name: Bytes,
    pub values: BalancerValues,
    pub members: MemberList,
    /// One for each member, without its tickets.
    pub rows: RowList,
    pub out: TicketList,
}

fn config_of(name: Bytes, route: Bytes, values: &MemberValues) -> MemberConfig
    ensures { result ≡ config_of name route values.now }
{
    MemberConfig {
        name,
        route,
        factor: values.factor,
        distance: values.distance,
        activation: values.activation,
        redirect: values.redirect,
        pool: values.pool,
    }
}

fn row_of(name: Bytes, values: &MemberValues) -> MemberRow
    ensures { result ≡ row_of name values.now }
{
    MemberRow {
        name,
        state: values.state,
        load: values.load,
        busy: 0,
        activation: values.activation,
        factor: values.factor,
        distance: values.distance,
        redirect: values.redirect,
    }
}

fn count_on(out: &[(u64, u32)], member: u32) -> usize
    ensures value { result ≡ count_by (λ x. x.1 == member) out.now }
    ensures few { result ≤ length out.now }
{
    out.iter().filter(|x| x.1 == member).count()
}

// Counts the tickets on each row's member.
fn count_tickets(rows: &mut Vec<MemberRow>, out: &[(u64, u32)])
    requires members { length rows.old.items < 2 ^ 32 }
    requires tickets { length out.now < 2 ^ 32 }
    ensures { AreCounted out.now (length rows.old.items) rows.old.items rows.new.items }
{
    for i in 0..rows.len() {
        rows[i].busy = count_on(out, i as u32) as u32;
    }
}

impl OpeningDraft {
    /// Whether each member of the balancer's line was read.
    pub(crate) fn is_full(&self) -> bool
        ensures { result ≡ is_full self.now }
    {
        self.members.len() == self.values.members as usize
    }

    /// With a further member.
    pub(crate) fn with_member(
        self,
        name: Bytes,
        route: Bytes,
        values: MemberValues,
    ) -> Result<OpeningDraft, NoMemory>
        ensures { IfOk result (λ d. d ≡ with_member self name route values) }
    {
        let mut draft = self;
        draft.add_member(name, route, &values)?;
        Ok(draft)
    }

    fn add_member(
        &mut self,
        name: Bytes,
        route: Bytes,
        values: &MemberValues,
    ) -> Result<(), NoMemory>
        ensures { OnOk result (self.new ≡ with_member self.old name route values.now) }
    {
        self.rows.push(row_of(name.copy()?, values))?;
        self.members.push(config_of(name, route, values))?;
        Ok(())
    }

    /// With a further ticket that is out.
    pub(crate) fn with_ticket(self, ticket: u64, member: u32) -> Result<OpeningDraft, NoMemory>
        ensures { IfOk result (λ d. d ≡ with_ticket self ticket member) }
    {
        let mut draft = self;
        draft.out.push((ticket, member))?;
        Ok(draft)
    }

    /// The name and a segment of these rules that has no entries yet, where one may begin so.
    pub(crate) fn begin(
        self,
        alloc: Global,
        rules: u8,
        beginning: &Beginning,
    ) -> Option<(Bytes, Segment)>
        requires members { length self.rows < 2 ^ 32 }
        requires tickets { length self.out < 2 ^ 32 }
        ensures { MatchOption result
            ((s : Segment) → ¬ Begins rules self beginning.now s)
            (λ found. (found.0 ≡ self.name) × Begins rules self beginning.now found.1) }
    {
        let (name, opening) = self.open(beginning)?;
        if rules != 1 && rules != 2 {
            return None;
        }
        let segment = Segment {
            rules,
            opening,
            entries: EntryList::new(alloc),
        };
        Some((name, segment))
    }

    // The name and the opening, where a segment may begin so.
    fn open(self, beginning: &Beginning) -> Option<(Bytes, Opening)>
        requires members { length self.rows < 2 ^ 32 }
        requires tickets { length self.out < 2 ^ 32 }
        ensures { MatchOption result
            ((o : Opening) → IsOpened self beginning.now o → ¬ IsOpening o)
            (λ found. (found.0 ≡ self.name) × IsOpened self beginning.now found.1 × IsOpening found.1) }
    {
        let OpeningDraft {
            name,
            values,
            members,
            rows,
            out,
        } = self;
        let mut rows = rows.into_vec();
        count_tickets(&mut rows, out.as_slice());
        let config = match LbConfig::new(
            values.method,
            values.sticky,
            values.force,
            values.direct,
            values.maintain,
            values.recover,
            members,
        ) {
            Ok(config) => config,
            Err(_) => return None,
        };
        let opening = Opening {
            config,
            rows: RowList::from_vec(rows),
            out,
            next: beginning.next,
            at: beginning.at,
            maintained: beginning.maintained,
            chosen: beginning.chosen,
        };
        if opening.is_valid() {
            Some((name, opening))
        } else {
            None
        }
    }
}
