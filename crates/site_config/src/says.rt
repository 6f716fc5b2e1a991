//! A line's key and value, looked at once, here.
ghost use Rattle.std.specs.Prelude.{◌≡◌, IfNone, IfSome, None};
ghost use Rattle.std.specs.Str.{bytes_eq};
ghost use Rattle.site_config.specs.Directives.{list_key, maintain_key, worker_part};
ghost use Rattle.site_config.specs.Entries.{as_property};
ghost use Rattle.site_config.specs.Meanings.{names_directive, says};
ghost use Rattle.site_config.specs.Subjects.{GivesWorker};

use crate::directive::Directive;
use crate::property_line::PropertyLine;
use crate::subject::subject_of;
use crate::value::{Value, meaning_of};

impl<'t> PropertyLine<'t> {
    /// A line of this key and this value, which are looked at here alone.
    pub(crate) fn new(line: u32, key: &'t [u8], value: &'t [u8]) -> PropertyLine<'t>
        ensures { as_property result ≡ record { line = line; key = key.now; value = value.now } }
    {
        let subject = subject_of(key);
        PropertyLine {
            line,
            key,
            value,
            subject,
            meaning: meaning_of(subject, value),
        }
    }

    /// Whether the line lists workers of the site.
    pub fn is_list(&self) -> bool
        ensures { result ≡ bytes_eq self.now.key.now list_key }
    {
        self.subject.is_list()
    }

    /// Whether the line gives the seconds between two maintenances.
    pub fn is_maintain(&self) -> bool
        ensures { result ≡ bytes_eq self.now.key.now maintain_key }
    {
        self.subject.is_maintain()
    }

    /// The worker to which the line gives a directive, and the directive, if it is one that is built.
    pub fn worker(&self) -> Option<(&'t [u8], Option<Directive>)>
        ensures some { IfSome result (λ w. GivesWorker self.now.key.now w.0.now w.1) }
        ensures none { IfNone result (worker_part self.now.key.now ≡ None) }
    {
        self.subject.worker()
    }

    /// Whether the line gives a worker this directive.
    pub fn gives(&self, directive: Directive) -> bool
        ensures { result ≡ names_directive directive (worker_part self.now.key.now) }
    {
        self.subject.is_of(directive)
    }

    /// What the line says of a directive; one that gives another says nothing of it.
    pub fn says(&self, directive: Directive) -> Option<Value>
        ensures { result ≡ says directive (as_property self.now) }
    {
        if self.subject.is_of(directive) {
            self.meaning
        } else {
            None
        }
    }
}
