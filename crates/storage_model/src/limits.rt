//! Limits of records and answers (this profile).

/// The most that a record weighs.
pub const MAX_WEIGHT: u64 = 131_072;

/// What a kind weighs beside its slots.
pub const KIND_WEIGHT: u64 = 32;

/// What a slot weighs beside its key and its value.
pub const SLOT_WEIGHT: u64 = 64;

/// The most answers that a record keeps.
pub const MAX_KEPT: usize = 64;

/// The most bytes of the message contents of a Fetch's answer.
pub const MAX_ANSWER: u64 = 200_000;
