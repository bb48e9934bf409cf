//! A slot as a record keeps it.

ghost use Rattle.std.specs.Prelude.{◌≡◌, ◌+◌, ◌≤◌, IfOk};
ghost use Rattle.std.specs.Option.{option_copied, option_map_or};
ghost use Rattle.record_state.specs.Light.{counted};
ghost use Rattle.record_state.specs.Light as light;

use crate::boxed_held::BoxedHeld;
use reload_base::{NoMemory, TryCopy};
use std::alloc::Global;
use std::marker::Model;
use storage_model::{Held, MAX_WEIGHT, SLOT_WEIGHT};

/// A slot: the greatest storage time that was ever accepted there, and its value.
#[derive(Debug, Drop)]
pub struct SlotState {
    pub floor: u64,
    pub(crate) held: Option<BoxedHeld>,
}

impl Model for SlotState {
    ghost use Rattle.storage_model.specs.Records.{SlotEntry};
    ghost use Rattle.record_state.specs.Codes.{slot_code};

    ghost Value = { SlotEntry };

    ghost coded = { slot_code };

    ghost view = { λ s. record { floor = s.floor; held = s.held } };
}

impl SlotState {
    /// Its value.
    pub fn value(&self) -> Option<&Held>
        ensures { option_copied result ≡ self.now.held }
    {
        match &self.held {
            Some(held) => Some(held.get()),
            None => None,
        }
    }
}

/// A weight isn't counted further than this: it is too much for a record.
pub const ENOUGH: u128 = MAX_WEIGHT as u128 + 1;

/// What a slot with a key of so many bytes weighs, counted up to [`ENOUGH`].
pub fn slot_weight(key: usize, slot: &SlotState) -> u128
    ensures { result ≡ counted (SLOT_WEIGHT + key + option_map_or (λ h. h.size) slot.now.held 0) }
{
    let size = match &slot.held {
        Some(held) => u128::from(held.get().size),
        None => 0,
    };
    ENOUGH.min(SLOT_WEIGHT as u128 + key as u128 + size)
}

/// When the value of a slot expires, or the latest clock where there is none.
pub fn expiry_of(slot: &SlotState) -> u64
    ensures { result ≤ light.expiry_of slot.now.held }
{
    match &slot.held {
        Some(held) => held.get().expiry,
        None => u64::MAX,
    }
}

/// What a slot weighs where there is one.
pub fn weight_before(key: usize, before: &Option<SlotState>) -> u128
    ensures { result ≡ option_map_or (λ s. counted (SLOT_WEIGHT + key + option_map_or
        (λ h. h.size) s.held 0)) before.now 0 }
{
    match before {
        Some(slot) => slot_weight(key, slot),
        None => 0,
    }
}

impl TryCopy for SlotState {
    fn copy(&self, alloc: Global) -> Result<SlotState, NoMemory> {
        Ok(SlotState {
            floor: self.floor,
            held: copy_held(alloc, &self.held)?,
        })
    }
}

/// A copy of the value of a slot.
fn copy_held(alloc: Global, held: &Option<BoxedHeld>) -> Result<Option<BoxedHeld>, NoMemory>
    ensures { IfOk result (λ copy. copy ≡ held.now) }
{
    match held {
        Some(held) => Ok(Some(held.copy(alloc)?)),
        None => Ok(None),
    }
}
