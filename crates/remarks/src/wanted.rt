//! The values that a directive takes, in words.
ghost use Rattle.std.specs.Prelude.{◌≡◌};
ghost use Rattle.remarks.specs.Wanted.{wanted_by};

use site_config::Directive;

/// What the value of a directive must be; each value of the last eight is a good one.
pub(crate) fn wanted_by(directive: Directive) -> &'static [u8]
    ensures { result.now ≡ wanted_by directive }
{
    match directive {
        Directive::Kind => b"the type must be ajp13, lb or status: ",
        Directive::Reference => b"the reference must be worker.NAME: ",
        Directive::Port | Directive::Factor => b"the value must be a number from 1 to 65535: ",
        Directive::Distance => b"the value must be a number from 0 to 65535: ",
        Directive::Activation => {
            b"the activation must begin with A, D or S, as active, disabled and stopped do: "
        }
        Directive::PoolSize => b"the value must be a number from 1 to 1024: ",
        Directive::Retries => b"the value must be a number from 1 to 10: ",
        Directive::PacketSize => b"the value must be a number from 8192 to 65536: ",
        Directive::PingMode => b"the ping mode must have the letters C, P, I and A alone: ",
        Directive::RecoveryOptions => b"the value must be a number from 0 to 31: ",
        Directive::FailOnStatus => {
            b"the value must be 1 to 64 statuses from 200 to 999, none both with and without a - before it: "
        }
        Directive::Method => {
            b"the method must begin with R, S, T or B, as Request, Session, Traffic and Busyness do: "
        }
        Directive::DialTimeout
        | Directive::ConnectTimeout
        | Directive::PrepostTimeout
        | Directive::PingTimeout
        | Directive::ReplyTimeout => {
            b"the value must be milliseconds, a number from 0 to 86400000: "
        }
        Directive::SocketTimeout | Directive::PoolTimeout | Directive::PingInterval => {
            b"the value must be seconds, a number from 0 to 86400: "
        }
        Directive::Sticky | Directive::Force | Directive::ReadOnly | Directive::Keepalive => {
            b"the value must be true, t, yes, y, on or 1, or false, f, no, n, off or 0: "
        }
        Directive::RecoverTime => b"the value must be a number from 1 to 86400: ",
        Directive::Cookie | Directive::Path => b"the value must not be empty: ",
        Directive::Host | Directive::Route | Directive::Redirect | Directive::Secret => b"",
        Directive::BalanceWorkers | Directive::User | Directive::Good | Directive::Bad => b"",
    }
}
