//! What a record has of a kind, and at a key.

ghost use Rattle.std.specs.Prelude.{◌≡◌, ◌≤◌, ◌^◌, nat_lt};
ghost use Rattle.std.specs.FinMap.{len};
ghost use Rattle.storage_model.specs.Records.{kind_in, slot_in, next_index, weight};

use crate::kinds::Kinds;
use storage_model::MAX_WEIGHT;

impl Kinds {
    /// The generation counter of a kind.
    pub fn generation_of(&self, id: u32) -> u64
        ensures { result ≡ (kind_in self.now id).generation }
    {
        match self.get(id) {
            Some(kind) => kind.generation,
            None => 0,
        }
    }

    /// The greatest storage time that was ever appended.
    pub fn append_floor_of(&self, id: u32) -> u64
        ensures { result ≡ (kind_in self.now id).append_floor }
    {
        match self.get(id) {
            Some(kind) => kind.append_floor,
            None => 0,
        }
    }

    /// The greatest storage time that was ever accepted at a key.
    pub fn floor_at(&self, id: u32, key: &[u8]) -> u64
        ensures { result ≡ (slot_in (kind_in self.now id).slots key.now).floor }
    {
        match self.get(id) {
            Some(kind) => kind.slots.floor_at(key),
            None => 0,
        }
    }

    /// The index behind the greatest that an array ever held.
    pub fn next_index_of(&self, id: u32) -> u64
        ensures value { result ≡ next_index (kind_in self.now id).slots }
        ensures small { result ≤ 2 ^ 32 }
    {
        match self.get(id) {
            Some(kind) => kind.slots.next_index(),
            None => 0,
        }
    }

    /// How many slots a kind has.
    pub fn slot_count(&self, id: u32) -> usize
        ensures { result ≡ len (kind_in self.now id).slots }
    {
        match self.get(id) {
            Some(kind) => kind.slots.table().len(),
            None => 0,
        }
    }

    /// Whether the kinds weigh more than a record may.
    pub fn is_too_heavy(&self) -> bool
        ensures { result ≡ nat_lt MAX_WEIGHT (weight self.now) }
    {
        self.weight() > MAX_WEIGHT as u128
    }
}
