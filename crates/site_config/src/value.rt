//! The value of a line, as its key takes it: each directive's range stands here alone.
ghost use Rattle.std.specs.Prelude.{◌≡◌, ◌≤◌, IfSome};
ghost use Rattle.site_config.specs.Meanings.{meaning_of, other_value, period_of, range_of, text_if, value_of};
ghost use Rattle.lb_model.specs.declared.config.TheConstants.{MAX_PERIOD_SECONDS};

use crate::directive::{Directive, behind_worker};
use crate::statuses::statuses_of;
use crate::subject::Subject;
use crate::values::{
    Pings, WorkerKind, activation_of, kind_of, method_of, number_in, pings_of, truth_of,
};
use lb_model::{Activation, MAX_PERIOD_SECONDS, Method};

/// What a value means.
#[derive(Clone, Copy)]
pub enum Value {
    Number(u64),
    Truth(bool),
    Kind(WorkerKind),
    Activation(Activation),
    Method(Method),
    Pings(Pings),
    /// A text or a list, which is taken as it stands.
    Text,
}

/// The least and the greatest number that the directive takes, where its values are numbers.
fn range_of(directive: Directive) -> Option<(u64, u64)>
    ensures { result ≡ range_of directive }
{
    match directive {
        Directive::Port | Directive::Factor => Some((1, 65_535)),
        Directive::Distance => Some((0, 65_535)),
        Directive::PoolSize => Some((1, 1024)),
        Directive::Retries => Some((1, 10)),
        Directive::PacketSize => Some((8192, 65_536)),
        Directive::RecoveryOptions => Some((0, 31)),
        Directive::RecoverTime => Some((1, 86_400)),
        Directive::DialTimeout
        | Directive::ConnectTimeout
        | Directive::PrepostTimeout
        | Directive::PingTimeout
        | Directive::ReplyTimeout => Some((0, 86_400_000)),
        Directive::SocketTimeout | Directive::PoolTimeout | Directive::PingInterval => {
            Some((0, 86_400))
        }
        _ => None,
    }
}

/// A text is taken as it stands where it is a good one.
fn text_if(good: bool) -> Option<Value>
    ensures { result ≡ text_if good }
{
    if good { Some(Value::Text) } else { None }
}

/// What a value means to a directive whose values are no numbers; the names in it aren't judged.
fn other_value(directive: Directive, text: &[u8]) -> Option<Value>
    ensures { result ≡ other_value directive text.now }
{
    match directive {
        Directive::Kind => Some(Value::Kind(kind_of(text)?)),
        Directive::Reference => text_if(behind_worker(text).is_some()),
        Directive::Activation => Some(Value::Activation(activation_of(text)?)),
        Directive::PingMode => Some(Value::Pings(pings_of(text)?)),
        Directive::FailOnStatus => text_if(statuses_of(text).is_some()),
        Directive::Method => Some(Value::Method(method_of(text)?)),
        Directive::Sticky | Directive::Force | Directive::ReadOnly | Directive::Keepalive => {
            Some(Value::Truth(truth_of(text)?))
        }
        Directive::Cookie | Directive::Path => text_if(!text.is_empty()),
        _ => Some(Value::Text),
    }
}

/// What a value means to a directive; nothing where it is none that the directive takes.
fn value_of(directive: Directive, text: &[u8]) -> Option<Value>
    ensures { result ≡ value_of directive text.now }
{
    match range_of(directive) {
        Some((low, high)) => Some(Value::Number(number_in(low, high, text)?)),
        None => other_value(directive, text),
    }
}

/// The seconds between two maintenances.
pub fn period_of(text: &[u8]) -> Option<u64>
    ensures value { result ≡ period_of text.now }
    ensures above { IfSome result (λ n. 1 ≤ n) }
    ensures below { IfSome result (λ n. n ≤ MAX_PERIOD_SECONDS) }
{
    number_in(1, MAX_PERIOD_SECONDS, text)
}

/// What a value means to what its line speaks of; nothing where it is none that its key takes.
pub(crate) fn meaning_of(subject: Subject<'_>, text: &[u8]) -> Option<Value>
    ensures { result ≡ meaning_of subject.entry text.now }
{
    match subject {
        Subject::Maintain => Some(Value::Number(period_of(text)?)),
        Subject::Worker {
            directive: Some(directive),
            ..
        } => value_of(directive, text),
        _ => Some(Value::Text),
    }
}
