//! How a request goes to a member: the session ids that name one, its Forward Request, and when it may be sent once more.
//!
//! Source: AJPv1.3 reference, "Request Packet Structure" and "Data Packets"; the Tomcat Connectors reference,
//! workers.properties (`session_cookie`, `session_path`, `route`, `max_packet_size`, `secret`, `recovery_options`).
//! Own rules (docs/DECISIONS.md): ids of the path come before those of cookies; the order of attributes; a value goes on
//! without outer spaces and tabs; the first piece fits a packet of each member; what 'got' and 'sent the headers' mean, that 8
//! and 16 go before 1 and 2, and that no option sends a request again once a byte of the reply was passed or a byte beyond the
//! first body piece was taken.
//! Contract: `session_ids` and `routed`, clauses `ids` and `member`; `forward_packet`, clauses `ok` and `too_large`;
//! `first_len` and `may_retry`, clause `value`. Read first: specs/Forwards.antt, specs/Recovery.antt, specs/Ids.antt.
//! Errors: `EncodeError` of ajp_wire, `NoMemory`.
#![tactic(auto)]

mod attributes;
mod cookies;
mod cuts;
mod first_piece;
mod ids;
mod laws;
mod method;
mod options;
mod paths;
mod request;
mod routes;
mod rule;

pub use first_piece::{first_len, piece_of};
pub use ids::{IdList, session_ids};
pub use laws::{
    a_first_piece_fits_each_member, a_forward_is_read_again, attributes_stand_in_order,
};
pub use method::MethodKind;
pub use options::RecoveryOption;
pub use request::forward_packet;
pub use routes::routed;
pub use rule::{bytes_passed_forbid, may_retry, whole_request_goes_once};
