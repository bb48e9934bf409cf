//! Limits of nodes (this profile).

/// The greatest number of a node.
pub const MAX_NUMBER: u32 = 9_999;

/// The most inputs, frames and transaction ids of a node, so that none of its counts overflows: a
/// node that reached `MAX_LOAD` handles nothing more, and none sends more frames at once than it
/// used ids.
pub const MAX_WORK: u64 = 1_073_741_824;
