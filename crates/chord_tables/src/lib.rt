//! What a peer of CHORD-RELOAD knows of other nodes (RFC 6940, section 10).
#![tactic(auto)]

mod nearest;
mod rising;
mod side;
mod tables;

pub use tables::Tables;

/// The most neighbours on each side (this profile).
pub const MAX_NEIGHBOURS: usize = 3;

/// The number of fingers (this profile).
pub const FINGERS: usize = 16;
