//! What a Fetch gives for one slot.

ghost use Rattle.std.specs.Prelude.{◌≡◌, ◌-◌, ◌^◌, min, is_some, IfOk};
ghost use Rattle.std.specs.Option.{option_copied};
ghost use Rattle.data_models.specs.Stored.{key_of, gap, stored_size};
ghost use Rattle.storage_model.specs.Records as records;
ghost use Rattle.storage_model.specs.Fetches as fetches;

use data_models::{SlotKey, StoredData};
use record_state::{SlotState, Slots, key_bytes};
use reload_base::{NoMemory, TryCopy};
use std::alloc::Global;
use storage_model::Held;

/// What is given for a slot: its value, or a gap where there is none that isn't expired.
#[tactic(auto, unfolding(storage_model::specs::Fetches::given_for))]
pub fn given_for(
    alloc: Global,
    now: u64,
    slots: &Slots,
    key: SlotKey,
) -> Result<StoredData, NoMemory>
    ensures { IfOk result (λ given.
        given ≡ fetches.given_for now key (records.slot_in slots.now (key_of key)).held) }
{
    let mut room = [0; 4];
    match unexpired_at(now, slots, key_bytes(&key, &mut room)) {
        Some(held) => found(alloc, now, key, held),
        None => Ok(StoredData::gap(alloc, key)),
    }
}

/// How many bytes that has, or `u64::MAX` where there are more.
#[tactic(auto, unfolding(storage_model::specs::Fetches::given_size))]
pub fn given_size(now: u64, slots: &Slots, key: &SlotKey) -> u64
    ensures { result ≡ min
        (fetches.given_size now key.now (records.slot_in slots.now (key_of key.now)).held)
        (2 ^ 64 - 1) }
{
    let mut room = [0; 4];
    match unexpired_at(now, slots, key_bytes(key, &mut room)) {
        Some(held) => u64::from(held.size),
        None => gap_size(key),
    }
}

/// The bytes of a gap, or `u64::MAX` where there are more.
#[tactic(auto, using(data_models::proofs::Lengths::laws))]
fn gap_size(key: &SlotKey) -> u64
    ensures { result ≡ min (stored_size (gap key.now)) (2 ^ 64 - 1) }
{
    match key {
        SlotKey::Whole => 28,
        SlotKey::Index(_) | SlotKey::End => 32,
        SlotKey::Name(name) => (name.len() as u64).saturating_add(30),
    }
}

/// The value of a slot, where there is one that isn't expired.
#[tactic(auto, unfolding(storage_model::specs::Records::unexpired))]
pub fn unexpired_at<'a>(now: u64, slots: &'a Slots, key: &[u8]) -> Option<&'a Held>
    ensures { option_copied result ≡ records.unexpired now
        (records.slot_in slots.now key.now).held }
{
    match held_at(slots, key) {
        Some(held) if held.expiry > now => Some(held),
        _ => None,
    }
}

/// The value of a slot, expired or not.
fn held_at<'a>(slots: &'a Slots, key: &[u8]) -> Option<&'a Held>
    ensures { option_copied result ≡ (records.slot_in slots.now key.now).held }
{
    match slots.table().get(key) {
        Some(slot) => slot.value(),
        None => None,
    }
}

/// A value that is held, expired or not, as it is given at a key, with the rest of its lifetime. The
/// one copy of its bytes is made here.
#[tactic(auto, unfolding(storage_model::specs::Fetches::found_of))]
pub fn found(alloc: Global, now: u64, key: SlotKey, held: &Held) -> Result<StoredData, NoMemory>
    ensures { IfOk result (λ found. found ≡ fetches.found_of now key held.now) }
{
    Ok(StoredData {
        key,
        storage_time: held.storage_time,
        lifetime: rest_of(now, held.expiry),
        present: held.present,
        value: held.value.copy(alloc)?,
        signature: held.signature.copy(alloc)?,
    })
}

/// The rest of a lifetime in whole seconds, rounded up, or the most that a lifetime can say.
#[tactic(auto, using(crate::proofs::Gives::rounded_up), unfolding(storage_model::specs::Fetches::rest_of))]
fn rest_of(now: u64, expiry: u64) -> u32
    ensures { result ≡ fetches.rest_of now expiry }
{
    let seconds = expiry.saturating_sub(now).div_ceil(1000);
    u32::try_from(seconds).unwrap_or(u32::MAX)
}

/// Whether a slot has a value that isn't expired.
#[tactic(auto, unfolding(storage_model::specs::Records::unexpired))]
pub fn is_live(now: u64, slot: &SlotState) -> bool
    ensures { result ≡ is_some (records.unexpired now slot.now.held) }
{
    match slot.value() {
        Some(held) => held.expiry > now,
        None => false,
    }
}
