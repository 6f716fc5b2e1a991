//! The ask of a session to its balancer, and the terms of the mount rule that led there.
ghost use Rattle.std.specs.Prelude.{◌≡◌, None, false};

/// What a session asks of its balancer. In each of the three sets bit m stands for member m.
#[derive(Clone, Copy, Debug, PartialEq, Eq)]
pub struct Ask {
    /// The member that the session's id names, if any.
    pub routed: Option<u32>,
    /// Whether the session is a new one.
    pub fresh: bool,
    /// The members that this request was tried on.
    pub tried: u64,
    /// The members that the mount disables.
    pub disabled: u64,
    /// The members that the mount stops.
    pub stopped: u64,
}

/// What a mount rule says beside its worker. In each set bit m stands for member m.
#[derive(Clone, Copy, PartialEq, Eq)]
pub struct Terms {
    /// Whether the session's route is left out of the ask.
    pub sticky_ignore: bool,
    pub disabled: u64,
    pub stopped: u64,
    /// Milliseconds for each wait for the container's next message, before what the member says; 0 is none.
    pub reply_timeout: Option<u64>,
}

impl Terms {
    /// The terms of a mount rule without parts.
    pub fn none() -> Terms
        ensures sticky { result.sticky_ignore ≡ false }
        ensures disabled { result.disabled ≡ 0 }
        ensures stopped { result.stopped ≡ 0 }
        ensures reply { result.reply_timeout ≡ None }
    {
        Terms {
            sticky_ignore: false,
            disabled: 0,
            stopped: 0,
            reply_timeout: None,
        }
    }
}
