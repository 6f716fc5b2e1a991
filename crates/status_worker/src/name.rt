//! The names that a query may give a value.
ghost use Rattle.std.specs.Prelude.{◌≡◌};
ghost use Rattle.status_worker.specs.Names.{text_of};

/// A name that a query may give a value, by the status worker of the Tomcat Connectors reference.
#[derive(Clone, Copy)]
pub(crate) enum Name {
    /// Which command: `cmd`.
    Command,
    /// The balancer: `w`.
    Worker,
    /// Its member: `sw`.
    Member,
    /// `vwa`
    Activation,
    /// `vwf`
    Factor,
    /// `vwd`
    Distance,
    /// The member that takes this one's sessions: `vwr`.
    Redirect,
}

pub(crate) const NAMES: [Name; 7] = [
    Name::Command,
    Name::Worker,
    Name::Member,
    Name::Activation,
    Name::Factor,
    Name::Distance,
    Name::Redirect,
];

impl Name {
    /// The name as it stands in a query.
    pub(crate) fn text(self) -> &'static [u8]
        ensures { result.now ≡ text_of self }
    {
        match self {
            Name::Command => b"cmd",
            Name::Worker => b"w",
            Name::Member => b"sw",
            Name::Activation => b"vwa",
            Name::Factor => b"vwf",
            Name::Distance => b"vwd",
            Name::Redirect => b"vwr",
        }
    }
}
