//! A peer of an overlay: what it does with the frames that it hears (RFC 6940, sections 6.1, 6.2,
//! 6.4 and 7.4).
#![tactic(auto)]

mod answer;
mod clock;
mod decision;
mod ending;
mod hearing;
mod membership;
mod peer;
mod plan;
mod reply;
mod request;

pub use peer::Peer;
