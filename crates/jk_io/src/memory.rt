//! The objects in memory, which tell all that may be told and fail where they were told to.
pub(crate) mod call_count;
pub(crate) mod gate;
pub(crate) mod link_plan;
pub(crate) mod mem_clock;
pub(crate) mod mem_dial;
pub(crate) mod mem_door;
pub(crate) mod mem_files;
pub(crate) mod mem_link;
pub(crate) mod mem_reach;
pub(crate) mod member_link;
pub(crate) mod patient_link;
pub(crate) mod talk_book;

pub use gate::{GATE_PLACES, Gate, GateLink, Turn};
pub use link_plan::LinkPlan;
pub use mem_clock::StepClock;
pub use mem_dial::{MemDial, MemLinkList};
pub use mem_door::{ClientList, MemDoor};
pub use mem_files::{FileList, MemFiles};
pub use mem_link::MemLink;
pub use mem_reach::MemReach;
pub use patient_link::PatientLink;
pub use talk_book::TalkBook;
