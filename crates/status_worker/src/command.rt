//! The commands of a status worker, with the names of balancers and members as the query gives them.
use jk_io::Bytes;
use lb_model::Activation;

/// What an update does with a member's redirect.
#[derive(Drop)]
pub enum NamedRedirect {
    Keep,
    None,
    /// To the member of this name.
    To(Bytes),
}

/// New values of a member; what is `None` or `Keep` stays.
#[derive(Drop)]
pub struct NamedChange {
    pub activation: Option<Activation>,
    pub factor: Option<u32>,
    pub distance: Option<u32>,
    pub redirect: NamedRedirect,
}

/// A command of a status worker: `w` names a balancer, `sw` one of its members.
#[derive(Drop)]
pub enum StatusCommand {
    /// The page, of `w` alone where it is given.
    List {
        w: Option<Bytes>,
    },
    Update {
        w: Bytes,
        sw: Bytes,
        change: NamedChange,
    },
    /// Makes the state Ok and the load 0, of every member where none is named.
    Reset {
        w: Bytes,
        sw: Option<Bytes>,
    },
    /// Makes a member in Error eligible for a trial.
    Recover {
        w: Bytes,
        sw: Bytes,
    },
}

impl StatusCommand {
    ghost use Rattle.std.specs.Prelude.{◌≡◌};
    ghost use Rattle.std.specs.Option.{option_copied};
    ghost use Rattle.status_worker.specs.Effects.{is_change, worker_of};

    /// Whether it changes a balancer: such a command is refused with 403 where the status worker is read_only.
    pub fn is_change(&self) -> bool
        ensures { result ≡ is_change self.now }
    {
        match self {
            StatusCommand::List { .. } => false,
            StatusCommand::Update { .. }
            | StatusCommand::Reset { .. }
            | StatusCommand::Recover { .. } => true,
        }
    }

    /// The name of the balancer that it is about, whose page is the answer; none where that is the page of all.
    pub fn worker(&self) -> Option<&Bytes>
        ensures { option_copied result ≡ worker_of self.now }
    {
        match self {
            StatusCommand::List { w } => w.as_ref(),
            StatusCommand::Update { w, .. }
            | StatusCommand::Reset { w, .. }
            | StatusCommand::Recover { w, .. } => Some(w),
        }
    }
}
