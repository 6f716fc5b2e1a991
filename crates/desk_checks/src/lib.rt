//! Drives Books, a Site and desks by rows, shows Books on status pages, reads queries of a status worker, and shows each line
//! that comes out otherwise.
//!
//! What the rows of crates/checks/data/book and desk want comes from the rules, worked out by hand. How a row is written stands
//! in docs/FORMATS.md, and which lines it has at the head of each file.
#![tactic(auto)]

mod answers;
mod area;
mod book_area;
mod books;
mod desks;
mod exchanged;
mod held;
mod leases;
mod paged;
mod plain;
mod queries;
mod shared;
mod site_row;
mod sites;

pub use area::judge;
pub use book_area::judge_books;
