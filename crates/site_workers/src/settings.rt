//! The values that are in force for a worker.
ghost use Rattle.std.specs.Prelude.{◌≡◌, ◌≤◌, ◌<◌, length, Some, true};
ghost use Rattle.std.specs.Option.{option_map};
ghost use Rattle.site_config.specs.Entries.{as_properties};
ghost use Rattle.site_workers.specs.Rows.{property_at};
ghost use Rattle.site_workers.specs.Settings.{activation_in, filled, filled_or, is_closed, is_limited, kind_in, method_in, number_in, number_or, pings_in, said_in, text_in, text_or, truth_in, truth_or};
ghost use Rattle.site_config.specs.Bounds.{is_at_most};
ghost use Rattle.site_config.specs.Meanings.{least_of, most_of};

use crate::row::{Row, picked};
use lb_model::{Activation, Method};
use site_config::{Directive, Pings, PropertyLine, Value, WorkerKind};

/// The value of a directive in force.
pub(crate) fn text<'t>(
    entries: &[PropertyLine<'t>],
    row: &Row,
    directive: Directive,
) -> Option<&'t [u8]>
    ensures { option_map (λ t. t.now) result ≡ text_in (property_at (as_properties entries.now) row.now directive) }
{
    match picked(entries, row, directive) {
        Some(entry) => Some(entry.value),
        None => None,
    }
}

pub(crate) fn text_or<'t>(
    entries: &[PropertyLine<'t>],
    row: &Row,
    directive: Directive,
    default: &'t [u8],
) -> &'t [u8]
    ensures { result.now ≡ text_or default.now (property_at (as_properties entries.now) row.now directive) }
{
    match text(entries, row, directive) {
        Some(text) => text,
        None => default,
    }
}

/// The value, or the default where it is empty.
pub(crate) fn filled_or<'t>(
    entries: &[PropertyLine<'t>],
    row: &Row,
    directive: Directive,
    default: &'t [u8],
) -> &'t [u8]
    requires { 0 < length default.now }
    ensures value { result.now ≡ filled_or default.now (property_at (as_properties entries.now) row.now directive) }
    ensures filled { 0 < length result.now }
{
    let text = text_or(entries, row, directive, default);
    if text.is_empty() { default } else { text }
}

/// What the line that is in force for a directive says of it.
fn said(entries: &[PropertyLine<'_>], row: &Row, directive: Directive) -> Option<Value>
    ensures { result ≡ said_in directive (property_at (as_properties entries.now) row.now directive) }
{
    let entry = picked(entries, row, directive)?;
    entry.says(directive)
}

/// A number that is given; no line, no number.
#[tactic(auto, using(crate::proofs::SettingLemmas::said_number))]
pub(crate) fn number(entries: &[PropertyLine<'_>], row: &Row, directive: Directive) -> Option<u64>
    ensures value { result ≡ number_in (property_at (as_properties entries.now) row.now) directive }
    ensures below { is_at_most (most_of directive) result ≡ true }
{
    match said(entries, row, directive) {
        Some(Value::Number(number)) => Some(number),
        _ => None,
    }
}

#[tactic(auto, using(crate::proofs::SettingLemmas::given_low, crate::proofs::SettingLemmas::given_high))]
pub(crate) fn number_or(
    entries: &[PropertyLine<'_>],
    row: &Row,
    directive: Directive,
    default: u64,
) -> u64
    requires above { least_of directive ≤ default }
    requires below { default ≤ most_of directive }
    ensures value { result ≡ number_or (property_at (as_properties entries.now) row.now) directive default }
    ensures low { least_of directive ≤ result }
    ensures high { result ≤ most_of directive }
{
    match number(entries, row, directive) {
        Some(number) => number,
        None => default,
    }
}

/// A truth value that is given.
pub(crate) fn truth(entries: &[PropertyLine<'_>], row: &Row, directive: Directive) -> Option<bool>
    ensures { result ≡ truth_in (property_at (as_properties entries.now) row.now) directive }
{
    match said(entries, row, directive) {
        Some(Value::Truth(truth)) => Some(truth),
        _ => None,
    }
}

pub(crate) fn truth_or(
    entries: &[PropertyLine<'_>],
    row: &Row,
    directive: Directive,
    default: bool,
) -> bool
    ensures { result ≡ truth_or (property_at (as_properties entries.now) row.now) directive default }
{
    match truth(entries, row, directive) {
        Some(truth) => truth,
        None => default,
    }
}

/// Whether a limit is given that isn't 0.
pub(crate) fn is_limited(limit: Option<u64>) -> bool
    ensures { result ≡ is_limited limit }
{
    match limit {
        Some(n) => 0 < n,
        None => false,
    }
}

/// Whether a status worker's directives name users.
pub(crate) fn is_closed(entries: &[PropertyLine<'_>], row: &Row) -> bool
    ensures { result ≡ is_closed (property_at (as_properties entries.now) row.now) }
{
    let given = |directive| picked(entries, row, directive).is_some();
    given(Directive::User) || given(Directive::Good) || given(Directive::Bad)
}

/// The type of the worker.
pub(crate) fn kind(entries: &[PropertyLine<'_>], row: &Row) -> WorkerKind
    ensures { result ≡ kind_in (property_at (as_properties entries.now) row.now Directive.Kind) }
{
    match said(entries, row, Directive::Kind) {
        Some(Value::Kind(kind)) => kind,
        _ => WorkerKind::Ajp13,
    }
}

pub(crate) fn activation(entries: &[PropertyLine<'_>], row: &Row) -> Activation
    ensures { result ≡ activation_in (property_at (as_properties entries.now) row.now Directive.Activation) }
{
    match said(entries, row, Directive::Activation) {
        Some(Value::Activation(activation)) => activation,
        _ => Activation::Active,
    }
}

pub(crate) fn method(entries: &[PropertyLine<'_>], row: &Row) -> Method
    ensures { result ≡ method_in (property_at (as_properties entries.now) row.now Directive.Method) }
{
    match said(entries, row, Directive::Method) {
        Some(Value::Method(method)) => method,
        _ => Method::Request,
    }
}

/// When the worker is pinged.
pub(crate) fn pings(entries: &[PropertyLine<'_>], row: &Row) -> Pings
    ensures { result ≡ pings_in (property_at (as_properties entries.now) row.now Directive.PingMode) }
{
    match said(entries, row, Directive::PingMode) {
        Some(Value::Pings(pings)) => pings,
        _ => Pings {
            dialled: false,
            each: false,
            idle: false,
        },
    }
}
