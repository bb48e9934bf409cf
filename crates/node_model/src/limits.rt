//! Limits of nodes and of what they hear (this profile).

/// The TTL with which each message begins, and the greatest that counts: more count as so many.
pub const MAX_TTL: u8 = 100;

/// The most bytes of the via list of a message that is heard.
pub const MAX_VIA: u32 = 2_000;

/// The most bytes of a request that isn't to the node itself alone.
pub const MAX_REQUEST: u32 = 200_000;

/// The most requests of one client that wait for answers.
pub const MAX_OUTSTANDING: usize = 64;

/// The most times that a client sends a request (RFC 6940, section 6.2.1): the first time, and then
/// again each time that it is due.
pub const MAX_SENDS: u8 = 5;

/// A node with this load handles nothing more.
pub const MAX_LOAD: u64 = 268_435_456;
