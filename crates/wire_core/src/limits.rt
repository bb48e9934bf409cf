//! Limits that several layouts share.

use reload_ids::ID_LENGTH;

/// The most bytes of a message (this profile).
pub const MAX_MESSAGE: u32 = 262_144;

/// The bytes of a Resource-ID and of the length in front of it.
pub const RESOURCE_ID_LENGTH: u8 = 1 + ID_LENGTH;
