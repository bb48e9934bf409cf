//! The contents of messages: a body by its message code, and extensions (RFC 6940, sections 6.3.3,
//! 6.4, 6.5 and 7.4).
#![tactic(auto)]

mod body;
pub mod code;
mod contents;
mod decode;
mod error;
mod extension;
mod fetch;
mod fetch_ans;
mod join;
mod join_ans;
mod leave;
mod messages;
mod overlay_body;
mod path_track;
mod peer_body;
mod ping;
mod ping_ans;
mod probe;
mod probe_ans;
mod store;
mod store_ans;
mod update;

pub use body::Body;
pub use contents::Contents;
pub use decode::{decode_contents, encode_contents};
pub use extension::Extension;
pub use leave::ChordLeave;
pub use messages::{one_spelling, reads_back};
pub use probe::ProbeInformationType;
pub use probe_ans::ProbeInformation;
pub use store_ans::StoreKindResponse;
pub use update::ChordUpdate;
