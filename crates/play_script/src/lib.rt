//! The script of `play`: its lines, what each line says, and what the whole of it prints.
//!
//! Source: own rules; the calls that a script makes are those of the balancer (lb_model).
//! Shapes: a line's words stand between single spaces; a name has letters, digits, `-` and `_`.
//! Contract: `head_of` and `step_of`, the meaning of a line; `begin`, clause `leads`.
//! Read first: specs/Heads.antt and specs/Steps.antt (lines), then specs/Play.antt (what a script prints).
//! Errors: `ScriptRefusal`, the line that ends a script; `DraftError`.
#![tactic(auto)]

mod begun;
mod draft;
mod fields;
mod head;
pub mod laws;
mod names;
mod parts;
mod printed;
mod step;
mod values;
mod verb;

pub use begun::{BegunScript, begin, is_skipped};
pub use draft::{Draft, DraftError};
pub use head::{BalancerLine, MemberLine, ScriptHead, head_of};
pub use names::{NameList, index_of};
pub use parts::Parts;
pub use printed::{ScriptRefusal, put_answer, put_refusal, put_rows};
pub use step::{Step, step_of};
