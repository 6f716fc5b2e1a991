//! Of what a line of a workers.properties speaks, by its key.
ghost use Rattle.std.specs.Prelude.{◌≡◌, None};
ghost use Rattle.site_config.specs.Directives.{worker_part};
ghost use Rattle.std.specs.Option.{option_map};
ghost use Rattle.site_config.specs.Subjects.{IsSubject, is_list, is_maintain, is_of, worker_in};

use crate::directive::{Directive, directive_of, is_list_key, is_maintain_key, worker_part};

/// Of what a key speaks.
#[derive(Clone, Copy)]
pub enum Subject<'t> {
    /// `worker.list`: the workers of the site.
    List,
    /// `worker.maintain`: the seconds between two maintenances.
    Maintain,
    /// `worker.NAME.DIRECTIVE`: a worker's directive; none where it isn't built.
    Worker {
        name: &'t [u8],
        directive: Option<Directive>,
    },
    /// Another key, which has no effect.
    Other,
}

impl<'t> Subject<'t> {
    pub(crate) fn is_list(self) -> bool
        ensures { result ≡ is_list self.entry }
    {
        match self {
            Subject::List => true,
            _ => false,
        }
    }

    pub(crate) fn is_maintain(self) -> bool
        ensures { result ≡ is_maintain self.entry }
    {
        match self {
            Subject::Maintain => true,
            _ => false,
        }
    }

    /// The worker to which a directive is given, and the directive, if it is one that is built.
    pub(crate) fn worker(self) -> Option<(&'t [u8], Option<Directive>)>
        ensures { option_map (λ w. (w.0.now, w.1)) result ≡ worker_in self.entry }
    {
        match self {
            Subject::Worker { name, directive } => Some((name, directive)),
            _ => None,
        }
    }

    /// Whether this directive is given.
    pub(crate) fn is_of(self, directive: Directive) -> bool
        ensures { result ≡ is_of directive self.entry }
    {
        match self {
            Subject::Worker {
                directive: Some(given),
                ..
            } => given.slot() == directive.slot(),
            _ => false,
        }
    }
}

/// Of what a key speaks that gives no worker a directive.
#[tactic(auto, using(crate::proofs::SubjectLemmas::speaks_of_list, crate::proofs::SubjectLemmas::speaks_of_maintain, crate::proofs::SubjectLemmas::speaks_of_nothing))]
fn other_subject<'t>(key: &'t [u8]) -> Subject<'t>
    requires { worker_part key.now ≡ None }
    ensures { IsSubject key.now result }
{
    if is_list_key(key) {
        Subject::List
    } else if is_maintain_key(key) {
        Subject::Maintain
    } else {
        Subject::Other
    }
}

/// Of what the key speaks.
pub(crate) fn subject_of<'t>(key: &'t [u8]) -> Subject<'t>
    ensures { IsSubject key.now result }
{
    match worker_part(key) {
        None => other_subject(key),
        Some((name, text)) => Subject::Worker {
            name,
            directive: directive_of(text),
        },
    }
}
