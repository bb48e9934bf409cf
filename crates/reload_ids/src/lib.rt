//! Node-IDs and Resource-IDs of 128 bits (RFC 6940, sections 6.3.1.1 and 10.2), and the ring that
//! they form.
#![tactic(auto)]

ghost use Rattle.std.specs.Prelude.{◌≡◌};
ghost use Rattle.reload_ids.specs.Ids.{resource_id, overlay_id};

mod ring;

pub use ring::{between, distance, ppb};
use sha1::Sha1;

/// The bytes of an id (this profile).
pub const ID_LENGTH: u8 = 16;

/// The place of a node on the ring.
#[derive(Clone, Copy, Debug, PartialEq, Eq, PartialOrd, Ord)]
pub struct NodeId(pub u128);

/// The place of a resource on the ring.
#[derive(Clone, Copy, Debug, PartialEq, Eq, PartialOrd, Ord)]
pub struct ResourceId(pub u128);

/// The Resource-ID of a name: the first 16 of the 20 bytes of its SHA-1.
#[tactic(auto, unfolding(crate::specs::Ids::resource_id))]
pub fn resource_of(name: &[u8]) -> ResourceId
    ensures { result.0 ≡ resource_id name.now }
{
    let d = Sha1::digest(name);
    ResourceId(u128::from_be_bytes([
        d[0], d[1], d[2], d[3], d[4], d[5], d[6], d[7], d[8], d[9], d[10], d[11], d[12], d[13],
        d[14], d[15],
    ]))
}

/// The number that stands for an overlay in each message: the last 4 of the 20 bytes of the SHA-1
/// of its name (RFC 6940, section 6.3.2).
#[tactic(auto, unfolding(crate::specs::Ids::overlay_id))]
pub fn overlay_of(name: &[u8]) -> u32
    ensures { result ≡ overlay_id name.now }
{
    let d = Sha1::digest(name);
    u32::from_be_bytes([d[16], d[17], d[18], d[19]])
}
