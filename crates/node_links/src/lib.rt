//! What peers and clients do with their links (RFC 6940, section 6.6).
#![tactic(auto)]

mod frames;
mod hearing;
mod limits;
mod links;
mod node;
mod sending;

pub use hearing::payload_in;
pub use limits::{MAX_NUMBER, MAX_WORK};
pub use links::Links;
pub use node::Node;
pub use sending::Sending;
