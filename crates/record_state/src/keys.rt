//! Keys of slots as bytes.

ghost use Rattle.std.specs.Prelude.{◌≡◌, []};
ghost use Rattle.std.specs.Int.{w32, from_be_bytes};
ghost use Rattle.data_models.specs.Stored.{key_of};

use data_models::SlotKey;

/// A key as bytes, in a room for an index.
#[tactic(auto, unfolding(data_models::specs::Stored::key_of))]
pub fn key_bytes<'a>(key: &'a SlotKey, room: &'a mut [u8; 4]) -> &'a [u8]
    ensures { result.now ≡ key_of key.now }
{
    match key {
        SlotKey::Whole | SlotKey::End => &[],
        SlotKey::Index(index) => {
            *room = index.to_be_bytes();
            room
        }
        SlotKey::Name(name) => name.as_slice(),
    }
}

/// What the first 4 bytes of a key are as a number, the highest first. Bytes that aren't there are
/// 0.
pub fn index_of(key: &[u8]) -> u32
    ensures { result ≡ from_be_bytes w32 key.now }
{
    let at = |place: usize| key.get(place).copied().unwrap_or(0);
    u32::from_be_bytes([at(0), at(1), at(2), at(3)])
}
