//! A property as it stands in the text.
ghost use Rattle.std.specs.Prelude.{◌≡◌};
ghost use Rattle.site_config.specs.Meanings.{meaning_of};
ghost use Rattle.site_config.specs.Subjects.{IsSubject};

use crate::subject::Subject;
use crate::value::Value;

/// A line's key and value, parts of the text, with what they say.
#[derive(Clone, Copy)]
pub struct PropertyLine<'t> {
    /// From 1.
    pub line: u32,
    pub key: &'t [u8],
    pub value: &'t [u8],
    /// Of what the key speaks.
    pub subject: Subject<'t>,
    /// What the value means; nothing where it is none that the key takes.
    pub meaning: Option<Value>,
    pub ghost speaks: { IsSubject key.now subject },
    pub ghost means: { meaning ≡ meaning_of subject value.now },
}
