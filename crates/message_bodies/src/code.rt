//! Message codes (RFC 6940, section 14.8; those of PathTrack are this profile's). An answer's is
//! one more than its request's.

/// What a peer is asked about itself.
pub const PROBE: u16 = 0x1;

/// What it tells.
pub const PROBE_ANS: u16 = 0x2;

/// Values to be kept.
pub const STORE: u16 = 0x7;

/// The generations that they got.
pub const STORE_ANS: u16 = 0x8;

/// Which values are wanted.
pub const FETCH: u16 = 0x9;

/// These values.
pub const FETCH_ANS: u16 = 0xa;

/// A peer asks to be admitted.
pub const JOIN: u16 = 0xf;

/// It is.
pub const JOIN_ANS: u16 = 0x10;

/// A peer goes.
pub const LEAVE: u16 = 0x11;

/// Its neighbor knows.
pub const LEAVE_ANS: u16 = 0x12;

/// Whom a peer knows.
pub const UPDATE: u16 = 0x13;

/// Its neighbor knows.
pub const UPDATE_ANS: u16 = 0x14;

/// Is anybody there?
pub const PING: u16 = 0x17;

/// Somebody is.
pub const PING_ANS: u16 = 0x18;

/// Which peer is next on the way (this profile).
pub const PATH_TRACK: u16 = 0x27;

/// That peer.
pub const PATH_TRACK_ANS: u16 = 0x28;

/// The answer to a request that is refused.
pub const ERROR: u16 = 0xffff;
