//! Limits of a run (this profile).

/// The most bytes that all frames of a run have together.
pub const MAX_AIR: u64 = 268_435_456;
