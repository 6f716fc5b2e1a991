//! The five options that the sum `recovery_options` is made of.

ghost use Rattle.std.specs.Prelude.{◌≡◌, ◌<◌};

/// One summand of `recovery_options`.
#[derive(Clone, Copy, PartialEq, Eq)]
pub enum RecoveryOption {
    /// No recovery once the container got the request.
    NotOnceGot,
    /// No recovery once the container sent the headers.
    NotOnceHeaders,
    /// The container's link is closed where writing to the client fails.
    CloseWithClient,
    /// HEAD is always recovered, even where the first two are on.
    AlwaysHead,
    /// GET is always recovered, even where the first two are on.
    AlwaysGet,
}

impl RecoveryOption {
    ghost use Rattle.std.specs.Prelude.{◌≡◌, ◌<◌};
    ghost use Rattle.forwarding.specs.Recovery.{number_of, is_on};

    /// What the option adds to the sum.
    pub fn number(self) -> u8
        ensures value { result ≡ number_of self }
        ensures divides { 0 < result }
    {
        match self {
            RecoveryOption::NotOnceGot => 1,
            RecoveryOption::NotOnceHeaders => 2,
            RecoveryOption::CloseWithClient => 4,
            RecoveryOption::AlwaysHead => 8,
            RecoveryOption::AlwaysGet => 16,
        }
    }

    /// Whether this option is among those that `sum` adds up.
    pub fn is_on(self, sum: u8) -> bool
        ensures { result ≡ is_on sum self }
    {
        sum / self.number() % 2 == 1
    }
}
