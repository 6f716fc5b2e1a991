//! A segment, written.
ghost use Rattle.std.specs.Prelude.{◌≡◌, ◌∷◌, [], ◌++◌, IfOk, OnOk, length};
ghost use Rattle.lb_model.specs.declared.opening.Opening.{Opening};
ghost use Rattle.journal_text.specs.Lines.{lines_text};
ghost use Rattle.journal_text.specs.declared.line.Line.TheVariants as line;
ghost use Rattle.journal_text.specs.SegmentText.{balancer_values, beginning, entry_lines, lease_lines, member_line, member_lines, member_values, opening_lines, segment_text};

use crate::{
    BalancerValues, Beginning, MemberValues, put_balancer, put_beginning, put_end, put_entry,
    put_lease, put_member, put_rules,
};
use jk_io::{Bytes, NoMemory};
use lb_model::{Entry, LbConfig, MemberConfig, MemberRow, Opening, Segment};

/// What the line of a balancer says of its configuration.
pub fn balancer_values(config: &LbConfig) -> BalancerValues
    ensures { result ≡ balancer_values config.now }
{
    BalancerValues {
        method: config.method,
        sticky: config.sticky,
        force: config.force,
        direct: config.direct,
        maintain: config.maintain,
        recover: config.recover,
        members: config.members.len() as u32,
    }
}

/// What the line of a member says of its configuration and its row.
pub fn member_values(member: &MemberConfig, row: &MemberRow) -> MemberValues
    ensures { result ≡ member_values member.now row.now }
{
    MemberValues {
        factor: member.factor,
        distance: member.distance,
        activation: member.activation,
        redirect: member.redirect,
        pool: member.pool,
        state: row.state,
        load: row.load,
    }
}

/// Where a segment with this opening begins.
pub fn beginning(opening: &Opening) -> Beginning
    ensures { result ≡ beginning opening.now }
{
    Beginning {
        next: opening.next,
        at: opening.at,
        maintained: opening.maintained,
        chosen: opening.chosen,
    }
}

fn put_rules_line(out: &mut Bytes, rules: u8) -> Result<(), NoMemory>
    ensures { OnOk result (out.new ≡ out.old ++ lines_text rules (line.Rules rules ∷ [])) }
{
    put_rules(out, rules)?;
    out.push(b'\n')
}

fn put_end_line(out: &mut Bytes, rules: u8, count: u64) -> Result<(), NoMemory>
    ensures { OnOk result (out.new ≡ out.old ++ lines_text rules (line.End count ∷ [])) }
{
    put_end(out, count)?;
    out.push(b'\n')
}

fn put_balancer_line(
    out: &mut Bytes,
    rules: u8,
    name: &[u8],
    config: &LbConfig,
) -> Result<(), NoMemory>
    ensures { OnOk result (out.new ≡ out.old ++ lines_text rules (line.Balancer name.now (balancer_values config.now) ∷ [])) }
{
    put_balancer(out, name, &balancer_values(config))?;
    out.push(b'\n')
}

fn put_member_line(
    out: &mut Bytes,
    rules: u8,
    member: &MemberConfig,
    row: &MemberRow,
) -> Result<(), NoMemory>
    ensures { OnOk result (out.new ≡ out.old ++ lines_text rules (member_line member.now row.now ∷ [])) }
{
    put_member(
        out,
        member.name.as_slice(),
        member.route.as_slice(),
        &member_values(member, row),
    )?;
    out.push(b'\n')
}

fn put_members(
    out: &mut Bytes,
    rules: u8,
    members: &[MemberConfig],
    rows: &[MemberRow],
) -> Result<(), NoMemory>
    requires { length rows.now ≡ length members.now }
    ensures { OnOk result (out.new ≡ out.old ++ lines_text rules (member_lines members.now rows.now)) }
{
    for i in 0..members.len() {
        put_member_line(out, rules, &members[i], &rows[i])?;
    }
    Ok(())
}

fn put_leases(out: &mut Bytes, rules: u8, tickets: &[(u64, u32)]) -> Result<(), NoMemory>
    ensures { OnOk result (out.new ≡ out.old ++ lines_text rules (lease_lines tickets.now)) }
{
    for (ticket, member) in tickets {
        put_lease(out, *ticket, *member)?;
        out.push(b'\n')?;
    }
    Ok(())
}

fn put_opening(out: &mut Bytes, rules: u8, name: &[u8], opening: &Opening) -> Result<(), NoMemory>
    requires { length opening.now.rows ≡ length opening.now.config.members }
    ensures { OnOk result (out.new ≡ out.old ++ lines_text rules (opening_lines name.now opening.now)) }
{
    put_balancer_line(out, rules, name, &opening.config)?;
    put_members(
        out,
        rules,
        opening.config.members.as_slice(),
        opening.rows.as_slice(),
    )?;
    put_leases(out, rules, opening.out.as_slice())?;
    put_beginning(out, &beginning(opening))?;
    out.push(b'\n')
}

fn put_entries(out: &mut Bytes, rules: u8, entries: &[Entry]) -> Result<(), NoMemory>
    ensures { OnOk result (out.new ≡ out.old ++ lines_text rules (entry_lines entries.now)) }
{
    for entry in entries {
        put_entry(out, rules, entry)?;
        out.push(b'\n')?;
    }
    Ok(())
}

fn put_segment(out: &mut Bytes, name: &[u8], segment: &Segment) -> Result<(), NoMemory>
    ensures { OnOk result (out.new ≡ out.old ++ segment_text name.now segment.now) }
{
    put_rules_line(out, segment.rules)?;
    put_opening(out, segment.rules, name, &segment.opening)?;
    put_entries(out, segment.rules, segment.entries.as_slice())?;
    put_end_line(out, segment.rules, segment.entries.len() as u64)
}

// From so many entries on, a segment's text takes at once ..
const LONG_LIMIT: usize = 1_024;

// .. so much room that the C library maps it apart from what it keeps for small pieces, and gives it back to the system, whatever
// thread wrote it.
const MAPPED: usize = 0x210_0000;

/// The room to begin the text of so many entries with.
const fn room_of(entries: usize) -> usize {
    if entries < LONG_LIMIT { 0 } else { MAPPED }
}

/// The text of a segment of the balancer with this name.
pub fn write_segment(name: &[u8], segment: &Segment) -> Result<Bytes, NoMemory>
    ensures { IfOk result (λ text. text ≡ segment_text name.now segment.now) }
{
    let alloc = segment.entries.allocator();
    let mut text = match Bytes::with_capacity(alloc, room_of(segment.entries.len())) {
        Ok(text) => text,
        Err(NoMemory) => Bytes::new(alloc),
    };
    put_segment(&mut text, name, segment)?;
    Ok(text)
}
