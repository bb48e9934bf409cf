//! Storage times that aren't over the floors that they meet (RFC 6940, section 7.4.1).

ghost use Rattle.std.specs.Prelude.{◌≡◌, not, ◌&&◌, nat_le};
ghost use Rattle.std.specs.List.{list_any};
ghost use Rattle.data_models.specs.Stored.{key_of};
ghost use Rattle.storage_model.specs.Records.{kind_in, slot_in};
ghost use Rattle.storage_model.specs.Requests.{is_end, placed, appended};
ghost use Rattle.storage_model.specs.Verdict as verdict;

use data_models::SlotKey;
use record_state::{Kinds, is_end};
use storage_model::Value;

/// Whether the storage time of a value that has a slot isn't over the floor there.
pub fn any_old(kinds: &Kinds, id: u32, values: &[Value]) -> bool
    ensures { result ≡ list_any (verdict.is_old (kind_in kinds.now id).slots) (placed values.now) }
{
    any_placed_old(kinds, id, values)
}

fn any_placed_old(kinds: &Kinds, id: u32, values: &[Value]) -> bool
    ensures { result ≡ list_any
        (λ v. not (is_end v.stored.key) && verdict.is_old
        (kind_in kinds.now id).slots v) values.now }
{
    values.iter().any(|value| is_placed_old(kinds, id, value))
}

fn is_placed_old(kinds: &Kinds, id: u32, value: &Value) -> bool
    ensures { result ≡ (not (is_end value.now.stored.key) && verdict.is_old
        (kind_in kinds.now id).slots value.now) }
{
    !is_end(&value.stored.key)
        && value.stored.storage_time <= floor_of(kinds, id, &value.stored.key)
}

/// The greatest storage time that was ever accepted in a slot.
#[tactic(auto, unfolding(data_models::specs::Stored::key_of))]
fn floor_of(kinds: &Kinds, id: u32, key: &SlotKey) -> u64
    ensures { result ≡ (slot_in (kind_in kinds.now id).slots (key_of key.now)).floor }
{
    match key {
        SlotKey::Whole | SlotKey::End => kinds.floor_at(id, &[]),
        SlotKey::Index(index) => kinds.floor_at(id, &index.to_be_bytes()),
        SlotKey::Name(name) => kinds.floor_at(id, name.as_slice()),
    }
}

/// Whether the storage time of some append isn't over the floor that those before it leave.
#[tactic(auto, unfolding(storage_model::specs::Verdict::is_stale, storage_model::specs::Requests::appended))]
pub fn any_stale(floor: u64, values: &[Value]) -> bool
    ensures { result ≡ verdict.is_stale floor (appended values.now) }
{
    let mut floor = floor;
    for value in values {
        if is_end(&value.stored.key) {
            if value.stored.storage_time <= floor {
                return true;
            }
            floor = value.stored.storage_time;
        }
    }
    false
}
