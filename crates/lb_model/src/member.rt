//! Members of a balancer, as they are configured.
ghost use Rattle.std.specs.Prelude.{◌≡◌, IfOk};

use jk_io::{Bytes, ListOf, NoMemory};

/// What adds to a member's load.
#[derive(Clone, Copy, Debug, PartialEq, Eq)]
pub enum Method {
    /// Each choice of the member.
    Request,
    /// Each choice of the member for a new session.
    Session,
    /// The bytes of each exchange with the member.
    Traffic,
    /// Nothing is kept: the exchanges that run now are the load.
    Busyness,
}

/// Which requests a member takes.
#[derive(Clone, Copy, Debug, PartialEq, Eq)]
pub enum Activation {
    Active,
    /// Those of its own sessions alone.
    Disabled,
    Stopped,
}

/// A member of a balancer.
#[derive(Drop)]
pub struct MemberConfig {
    pub name: Bytes,
    /// The suffix of a session id that names this member.
    pub route: Bytes,
    /// Its weight, 1 to 65,535.
    pub factor: u32,
    /// 0 to 65,535; the nearest members are chosen first.
    pub distance: u32,
    pub activation: Activation,
    /// The member that takes this one's sessions while it doesn't serve.
    pub redirect: Option<u32>,
    /// How many exchanges may run with it at once, 1 to 1,024.
    pub pool: u32,
}

/// The members of a balancer, by index.
pub type MemberList = ListOf<MemberConfig>;

impl MemberConfig {
    /// An equal member.
    pub fn copy(&self) -> Result<MemberConfig, NoMemory>
        ensures ok { IfOk result (λ m. m ≡ self.now) }
    {
        Ok(MemberConfig {
            name: self.name.copy()?,
            route: self.route.copy()?,
            factor: self.factor,
            distance: self.distance,
            activation: self.activation,
            redirect: self.redirect,
            pool: self.pool,
        })
    }
}
