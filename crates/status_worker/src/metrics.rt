//! The page in Prometheus' text format: the figures of each balancer and each member, with a family's lines together.
ghost use Rattle.std.specs.Prelude.{◌≡◌, ◌++◌, OnOk};
ghost use Rattle.std.specs.List.{flat_map};
ghost use Rattle.std.specs.Str.{bytes_eq};
ghost use Rattle.status_worker.specs.Metrics.{
  activation_point,
  activation_points,
  balancer_family,
  balancer_point,
  family_head,
  help_line,
  label_pair,
  member_family,
  member_labels,
  member_point,
  member_points,
  metric_help,
  metric_name,
  metrics_page,
  one_if,
  part_points,
  state_point,
  state_points,
  type_line,
};
ghost use Rattle.status_worker.specs.Words.{activation_word, state_word};

use crate::marks::put_label;
use crate::page::PagePart;
use crate::words::{activation_word, state_word};
use jk_io::{Bytes, NoMemory, put_decimal};
use lb_model::MemberRow;

/// A family of figures, one or more of each member.
#[derive(Clone, Copy)]
pub(crate) enum Metric {
    Busy,
    Load,
    Factor,
    Distance,
    /// 1 for the state that the member is in, and 0 for each other.
    State,
    /// 1 for the member's activation, and 0 for each other.
    Activation,
}

fn metric_name(metric: Metric) -> &'static [u8]
    ensures { result.now ≡ metric_name metric }
{
    match metric {
        Metric::Busy => b"jkd_member_busy",
        Metric::Load => b"jkd_member_load",
        Metric::Factor => b"jkd_member_factor",
        Metric::Distance => b"jkd_member_distance",
        Metric::State => b"jkd_member_state",
        Metric::Activation => b"jkd_member_activation",
    }
}

fn metric_help(metric: Metric) -> &'static [u8]
    ensures { result.now ≡ metric_help metric }
{
    match metric {
        Metric::Busy => b"Requests that the member has now.",
        Metric::Load => b"What the balancer's method weighs the member by.",
        Metric::Factor => b"The member's share of the balancer's work.",
        Metric::Distance => b"How far the member is; nearer ones are chosen first.",
        Metric::State => b"1 for the state that the member is in.",
        Metric::Activation => b"1 for the activation that the member has.",
    }
}

/// Adds a label with its value.
fn put_pair(out: &mut Bytes, name: &[u8], value: &[u8]) -> Result<(), NoMemory>
    ensures { OnOk result (out.new ≡ out.old ++ label_pair name.now value.now) }
{
    out.extend(name)?;
    out.extend(b"=\"")?;
    put_label(out, value)?;
    out.extend(b"\"")
}

fn put_member_labels(out: &mut Bytes, lb: &[u8], row: &MemberRow) -> Result<(), NoMemory>
    ensures { OnOk result (out.new ≡ out.old ++ member_labels lb.now row.now) }
{
    put_pair(out, b"{balancer", lb)?;
    put_pair(out, b",member", row.name.as_slice())
}

/// Adds the line of a figure of a member.
fn put_point(
    out: &mut Bytes,
    metric: Metric,
    lb: &[u8],
    row: &MemberRow,
    value: u128,
) -> Result<(), NoMemory>
    ensures { OnOk result (out.new ≡ out.old ++ member_point metric lb.now row.now value) }
{
    out.extend(metric_name(metric))?;
    put_member_labels(out, lb, row)?;
    out.extend(b"} ")?;
    put_decimal(out, value)?;
    out.extend(b"\n")
}

fn one_if(holds: bool) -> &'static [u8]
    ensures { result.now ≡ one_if holds }
{
    if holds { b"1\n" } else { b"0\n" }
}

/// The figure that says whether a state is the member's.
fn state_flag(row: &MemberRow, word: &[u8]) -> &'static [u8]
    ensures { result.now ≡ one_if (bytes_eq (state_word row.now.state) word.now) }
{
    one_if(state_word(row.state) == word)
}

/// Adds the line that says whether a state is the member's.
fn put_state_point(out: &mut Bytes, lb: &[u8], row: &MemberRow, word: &[u8]) -> Result<(), NoMemory>
    ensures { OnOk result (out.new ≡ out.old ++ state_point lb.now row.now word.now) }
{
    out.extend(b"jkd_member_state")?;
    put_member_labels(out, lb, row)?;
    put_pair(out, b",state", word)?;
    out.extend(b"} ")?;
    out.extend(state_flag(row, word))
}

fn put_states(out: &mut Bytes, lb: &[u8], row: &MemberRow) -> Result<(), NoMemory>
    ensures { OnOk result (out.new ≡ out.old ++ state_points lb.now row.now) }
{
    put_state_point(out, lb, row, b"ok")?;
    put_state_point(out, lb, row, b"error")?;
    put_state_point(out, lb, row, b"recover")?;
    put_state_point(out, lb, row, b"probe")
}

/// The figure that says whether an activation is the member's.
fn activation_flag(row: &MemberRow, word: &[u8]) -> &'static [u8]
    ensures { result.now ≡ one_if (bytes_eq (activation_word row.now.activation) word.now) }
{
    one_if(activation_word(row.activation) == word)
}

/// Adds the line that says whether an activation is the member's.
fn put_activation_point(
    out: &mut Bytes,
    lb: &[u8],
    row: &MemberRow,
    word: &[u8],
) -> Result<(), NoMemory>
    ensures { OnOk result (out.new ≡ out.old ++ activation_point lb.now row.now word.now) }
{
    out.extend(b"jkd_member_activation")?;
    put_member_labels(out, lb, row)?;
    put_pair(out, b",activation", word)?;
    out.extend(b"} ")?;
    out.extend(activation_flag(row, word))
}

fn put_activations(out: &mut Bytes, lb: &[u8], row: &MemberRow) -> Result<(), NoMemory>
    ensures { OnOk result (out.new ≡ out.old ++ activation_points lb.now row.now) }
{
    put_activation_point(out, lb, row, b"active")?;
    put_activation_point(out, lb, row, b"disabled")?;
    put_activation_point(out, lb, row, b"stopped")
}

/// Adds a member's figures of a family.
fn put_points(out: &mut Bytes, metric: Metric, lb: &[u8], row: &MemberRow) -> Result<(), NoMemory>
    ensures { OnOk result (out.new ≡ out.old ++ member_points metric lb.now row.now) }
{
    match metric {
        Metric::Busy => put_point(out, metric, lb, row, u128::from(row.busy)),
        Metric::Load => put_point(out, metric, lb, row, row.load),
        Metric::Factor => put_point(out, metric, lb, row, u128::from(row.factor)),
        Metric::Distance => put_point(out, metric, lb, row, u128::from(row.distance)),
        Metric::State => put_states(out, lb, row),
        Metric::Activation => put_activations(out, lb, row),
    }
}

fn put_part_points(out: &mut Bytes, metric: Metric, part: &PagePart) -> Result<(), NoMemory>
    ensures { OnOk result (out.new ≡ out.old ++ part_points metric part.now) }
{
    let rows = part.view.rows.as_slice();
    for row in rows {
        put_points(out, metric, part.name.as_slice(), row)?;
    }
    Ok(())
}

fn put_help_line(out: &mut Bytes, name: &[u8], help: &[u8]) -> Result<(), NoMemory>
    ensures { OnOk result (out.new ≡ out.old ++ help_line name.now help.now) }
{
    out.extend(b"# HELP ")?;
    out.extend(name)?;
    out.extend(b" ")?;
    out.extend(help)?;
    out.extend(b"\n")
}

fn put_type_line(out: &mut Bytes, name: &[u8], kind: &[u8]) -> Result<(), NoMemory>
    ensures { OnOk result (out.new ≡ out.old ++ type_line name.now kind.now) }
{
    out.extend(b"# TYPE ")?;
    out.extend(name)?;
    out.extend(b" ")?;
    out.extend(kind)?;
    out.extend(b"\n")
}

/// Adds the two lines before a family's figures.
fn put_family_head(out: &mut Bytes, name: &[u8], help: &[u8], kind: &[u8]) -> Result<(), NoMemory>
    ensures { OnOk result (out.new ≡ out.old ++ family_head name.now help.now kind.now) }
{
    put_help_line(out, name, help)?;
    put_type_line(out, name, kind)
}

fn put_all_points(out: &mut Bytes, metric: Metric, parts: &[PagePart]) -> Result<(), NoMemory>
    ensures { OnOk result (out.new ≡ out.old ++ flat_map (part_points metric) parts.now) }
{
    for part in parts {
        put_part_points(out, metric, part)?;
    }
    Ok(())
}

fn put_family(out: &mut Bytes, metric: Metric, parts: &[PagePart]) -> Result<(), NoMemory>
    ensures { OnOk result (out.new ≡ out.old ++ member_family metric parts.now) }
{
    put_family_head(out, metric_name(metric), metric_help(metric), b"gauge")?;
    put_all_points(out, metric, parts)
}

fn put_balancer_point(out: &mut Bytes, part: &PagePart) -> Result<(), NoMemory>
    ensures { OnOk result (out.new ≡ out.old ++ balancer_point part.now) }
{
    out.extend(b"jkd_balancer_entries_total")?;
    put_pair(out, b"{balancer", part.name.as_slice())?;
    out.extend(b"} ")?;
    put_decimal(out, u128::from(part.view.next))?;
    out.extend(b"\n")
}

fn put_balancer_points(out: &mut Bytes, parts: &[PagePart]) -> Result<(), NoMemory>
    ensures { OnOk result (out.new ≡ out.old ++ flat_map balancer_point parts.now) }
{
    for part in parts {
        put_balancer_point(out, part)?;
    }
    Ok(())
}

fn put_balancer_family(out: &mut Bytes, parts: &[PagePart]) -> Result<(), NoMemory>
    ensures { OnOk result (out.new ≡ out.old ++ balancer_family parts.now) }
{
    put_family_head(
        out,
        b"jkd_balancer_entries_total",
        b"Entries of the balancer's journal.",
        b"counter",
    )?;
    put_balancer_points(out, parts)
}

/// Adds the page in Prometheus' text format.
pub(crate) fn put_metrics_page(out: &mut Bytes, parts: &[PagePart]) -> Result<(), NoMemory>
    ensures { OnOk result (out.new ≡ out.old ++ metrics_page parts.now) }
{
    put_balancer_family(out, parts)?;
    put_family(out, Metric::Busy, parts)?;
    put_family(out, Metric::Load, parts)?;
    put_family(out, Metric::Factor, parts)?;
    put_family(out, Metric::Distance, parts)?;
    put_family(out, Metric::State, parts)?;
    put_family(out, Metric::Activation, parts)
}
