//! Reads rows of data/ on links, AJPv1.3, HTTP and what is forwarded, does on the wire what each says, and shows each row that
//! comes out otherwise.
//!
//! What a row wants comes from RFC 9110, RFC 9112, the AJPv1.3 reference, or the scripts of vectors/. How a row is written stands in
//! docs/FORMATS.md, and which keys it has at the head of each file of crates/checks/data/wire and http.
#![tactic(auto)]

mod area;
mod bodies;
mod heads;
mod http_area;
mod laws;
mod links;
mod messages;
mod packets;
mod replies;
mod requests;
mod routes;

pub use area::judge;
pub use http_area::judge_http;
