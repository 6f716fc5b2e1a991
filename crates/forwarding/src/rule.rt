//! The rule, and two laws that show what it forbids.

ghost use Rattle.std.specs.Prelude.{◌≡◌, true, false};
ghost use Rattle.forwarding.specs.Recovery.{is_on, is_always_recovered, is_early_enough, may_retry_of};

use crate::method::MethodKind;
use crate::options::RecoveryOption;
use ajp_reply::Stage;

/// Whether the request may be sent once more. `options` are those of the member whose talk failed, and `stage` is how
/// far that talk had come.
pub fn may_retry(options: u8, method: MethodKind, stage: Stage) -> bool
    ensures value { result ≡ may_retry_of options method stage }
{
    let always = is_always(options, method);
    !stage.passed && (!stage.beyond && (always || is_early(options, stage)))
}

// The method is one that the member's options always recover.
fn is_always(options: u8, method: MethodKind) -> bool
    ensures { result ≡ is_always_recovered options method }
{
    match method {
        MethodKind::Head => RecoveryOption::AlwaysHead.is_on(options),
        MethodKind::Get => RecoveryOption::AlwaysGet.is_on(options),
        MethodKind::Other => false,
    }
}

// The talk had not come as far as the member's options forbid.
fn is_early(options: u8, stage: Stage) -> bool
    ensures { result ≡ is_early_enough options stage }
{
    (!stage.got || !RecoveryOption::NotOnceGot.is_on(options))
        && (!stage.headers || !RecoveryOption::NotOnceHeaders.is_on(options))
}

/// Law: once a byte of the reply was passed, or a byte beyond the first piece was taken, no option sends the
/// request again.
pub fn bytes_passed_forbid(options: u8, method: MethodKind, stage: Stage)
    ensures passed { stage.passed ≡ true → may_retry_of options method stage ≡ false }
    ensures beyond { stage.beyond ≡ true → may_retry_of options method stage ≡ false }
{}

/// Law: under option 1, with neither 8 nor 16, a container that got the request whole never gets it twice.
pub fn whole_request_goes_once(options: u8, method: MethodKind, stage: Stage)
    requires once { is_on options RecoveryOption.NotOnceGot ≡ true }
    requires head { is_on options RecoveryOption.AlwaysHead ≡ false }
    requires get { is_on options RecoveryOption.AlwaysGet ≡ false }
    ensures { stage.got ≡ true → may_retry_of options method stage ≡ false }
{}
