//! The line of a member.
ghost use Rattle.std.specs.Prelude.{◌≡◌, ◌++◌, OnOk};
ghost use Rattle.std.specs.List.{flat_map};
ghost use Rattle.site_reports.specs.MemberLines.{fail_words, member_line, member_text, name_at, names_of, ping_letters, place_words, redirect_words, status_word, next_status, talk_words, weight_words};

use crate::limits_line::put_limits;
use crate::words::{activation_words, put_number, put_text};
use jk_io::{Bytes, NoMemory, put_decimal};
use lb_model::MemberConfig;
use site_config::Endpoint;

fn name_at(members: &[MemberConfig], place: Option<u32>) -> &[u8]
    ensures { result.now ≡ name_at (names_of members.now) place }
{
    match place.and_then(|place| members.get(place as usize)) {
        Some(member) => member.name.as_slice(),
        None => b"-",
    }
}

fn ping_letters(end: &Endpoint) -> &'static [u8]
    ensures { result.now ≡ ping_letters end.now.ping_new end.now.ping_each end.now.ping_idle }
{
    match (end.ping_new, end.ping_each, end.ping_idle) {
        (false, false, false) => b"-",
        (true, false, false) => b"C",
        (false, true, false) => b"P",
        (true, true, false) => b"CP",
        (false, false, true) => b"I",
        (true, false, true) => b"CI",
        (false, true, true) => b"PI",
        (true, true, true) => b"CPI",
    }
}

fn put_status(out: &mut Bytes, entry: (u16, bool)) -> Result<(), NoMemory>
    ensures { OnOk result (out.new ≡ out.old ++ status_word entry) }
{
    let (status, negated) = entry;
    if negated {
        out.extend(b"-")?;
    }
    put_decimal(out, u128::from(status))
}

// Each status after a comma.
fn put_more(out: &mut Bytes, statuses: &[(u16, bool)]) -> Result<(), NoMemory>
    ensures { OnOk result (out.new ≡ out.old ++ flat_map next_status statuses.now) }
{
    for entry in statuses {
        out.extend(b",")?;
        put_status(out, *entry)?;
    }
    Ok(())
}

fn put_fail(out: &mut Bytes, statuses: &[(u16, bool)]) -> Result<(), NoMemory>
    ensures { OnOk result (out.new ≡ out.old ++ fail_words statuses.now) }
{
    match statuses {
        [] => Ok(()),
        [first, more @ ..] => {
            out.extend(b" fail ")?;
            put_status(out, *first)?;
            put_more(out, more)
        }
    }
}

fn put_place(out: &mut Bytes, member: &MemberConfig, end: &Endpoint) -> Result<(), NoMemory>
    ensures { OnOk result (out.new ≡ out.old ++ place_words member.now end.now) }
{
    put_text(out, b"member ", member.name.as_slice())?;
    put_text(out, b" ", end.host.as_slice())?;
    put_number(out, b" ", u64::from(end.port))
}

fn put_weight(out: &mut Bytes, member: &MemberConfig) -> Result<(), NoMemory>
    ensures { OnOk result (out.new ≡ out.old ++ weight_words member.now) }
{
    put_text(out, b" route ", member.route.as_slice())?;
    put_number(out, b" factor ", u64::from(member.factor))?;
    put_number(out, b" distance ", u64::from(member.distance))
}

fn put_redirect(
    out: &mut Bytes,
    members: &[MemberConfig],
    place: Option<u32>,
) -> Result<(), NoMemory>
    ensures { OnOk result (out.new ≡ out.old ++ redirect_words (names_of members.now) place) }
{
    let name = name_at(members, place);
    put_text(out, b" redirect ", name)
}

fn put_talks(out: &mut Bytes, member: &MemberConfig, end: &Endpoint) -> Result<(), NoMemory>
    ensures { OnOk result (out.new ≡ out.old ++ talk_words member.now end.now) }
{
    put_number(out, b" retries ", u64::from(end.retries))?;
    put_number(out, b" packet ", u64::from(end.packet))?;
    put_number(out, b" pool ", u64::from(member.pool))?;
    put_number(out, b" recovery ", u64::from(end.recovery))?;
    put_text(out, b" ping ", ping_letters(end))
}

fn put_line(
    out: &mut Bytes,
    members: &[MemberConfig],
    member: &MemberConfig,
    end: &Endpoint,
) -> Result<(), NoMemory>
    ensures { OnOk result (out.new ≡ out.old ++ member_line (names_of members.now) (member.now, end.now)) }
{
    put_place(out, member, end)?;
    put_weight(out, member)?;
    out.extend(activation_words(member.activation))?;
    put_redirect(out, members, member.redirect)?;
    put_talks(out, member, end)?;
    put_fail(out, end.fail_on.as_slice())?;
    out.extend(b"\n")
}

/// Adds the line of a member of these members, and that of its time limits.
pub(crate) fn put_member(
    out: &mut Bytes,
    members: &[MemberConfig],
    member: &MemberConfig,
    end: &Endpoint,
) -> Result<(), NoMemory>
    ensures { OnOk result (out.new ≡ out.old ++ member_text (names_of members.now) (member.now, end.now)) }
{
    put_line(out, members, member, end)?;
    put_limits(out, member.name.as_slice(), &end.limits)
}
