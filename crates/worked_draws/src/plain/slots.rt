//! Slots, and what is put in them.

use crate::plain::sizes::{key_size, stored_size};
use crate::requests::{Group, Value, kind_at};
use data_models::DataModel;
use reload_base::NoMemory;

/// A kind at a resource.
#[derive(Clone, Copy, PartialEq, Eq)]
pub struct Place {
    pub resource: usize,
    pub kind: usize,
}

/// A value that is held under its key, the bytes of its StoredData, and the clock at which it is expired.
#[derive(Clone, Copy)]
pub struct Held {
    pub value: Value,
    pub size: usize,
    pub expiry: u64,
}

/// What a slot has come to.
#[derive(Clone, Copy)]
pub struct Slot {
    pub place: Place,
    pub key: usize,
    pub floor: u64,
    pub held: Option<Held>,
}

/// Lets go what is expired at a resource.
pub fn expire(slots: &mut [Slot], now: u64, resource: usize) {
    for slot in slots.iter_mut() {
        if slot.place.resource == resource {
            slot.held = live(slot.held, now);
        }
    }
}

/// What is held and isn't expired.
pub fn live(held: Option<Held>, now: u64) -> Option<Held> {
    held.filter(|held| held.expiry > now)
}

/// The greatest index among the slots of an array, and 1, or 0 where there is none.
pub fn next_index(slots: &[Slot], place: Place) -> usize {
    let mut next = 0_usize;
    for slot in slots {
        if slot.place == place && next <= slot.key {
            next = slot.key.wrapping_add(1);
        }
    }
    next
}

/// The position of a slot.
pub fn position(slots: &[Slot], place: Place, key: usize) -> Option<usize> {
    slots
        .iter()
        .position(|slot| slot.place == place && slot.key == key)
}

fn put_slot(slots: &mut Vec<Slot>, slot: Slot) -> Result<(), NoMemory> {
    let old = position(slots.as_slice(), slot.place, slot.key);
    match old.and_then(|old| slots.get_mut(old)) {
        Some(old) => *old = slot,
        None => slots.push(slot)?,
    }
    Ok(())
}

/// The slot of a value that is put.
fn slot_of(place: Place, key: usize, now: u64, value: Value) -> Slot {
    let held = Held {
        value: Value {
            key: Some(key),
            ..value
        },
        size: stored_size(place.kind, key, value.length.unwrap_or(0)),
        expiry: now.wrapping_add(value.lifetime.wrapping_mul(1000)),
    };
    Slot {
        place,
        key,
        floor: value.time,
        held: Some(held),
    }
}

fn put_keyed(
    slots: &mut Vec<Slot>,
    place: Place,
    now: u64,
    values: &[Value],
) -> Result<(), NoMemory> {
    for value in values {
        if let Some(key) = value.key {
            put_slot(slots, slot_of(place, key, now, *value))?;
        }
    }
    Ok(())
}

fn put_appended(
    slots: &mut Vec<Slot>,
    place: Place,
    now: u64,
    values: &[Value],
) -> Result<(), NoMemory> {
    for value in values {
        if value.key.is_none() {
            let next = next_index(slots.as_slice(), place);
            put_slot(slots, slot_of(place, next, now, *value))?;
        }
    }
    Ok(())
}

/// Puts the values of a group: those with a key first, and then the others, each behind the
/// greatest index.
pub fn put_values(
    slots: &mut Vec<Slot>,
    place: Place,
    now: u64,
    values: &[Value],
) -> Result<(), NoMemory> {
    put_keyed(slots, place, now, values)?;
    put_appended(slots, place, now, values)
}

/// What a kind at a resource weighs.
pub fn weight(slots: &[Slot], place: Place) -> usize {
    let mut sum = 0_usize;
    for slot in slots {
        if slot.place == place {
            let first = if sum == 0 { 32_usize } else { 0 };
            let held = slot.held.map_or(0, |held| held.size);
            let own = key_size(place.kind, slot.key).wrapping_add(64);
            sum = sum.wrapping_add(first).wrapping_add(own).wrapping_add(held);
        }
    }
    sum
}

fn count(slots: &[Slot], place: Place) -> usize {
    slots.iter().filter(|slot| slot.place == place).count()
}

fn are_too_long(values: &[Value], longest: usize) -> bool {
    values
        .iter()
        .any(|value| longest < value.length.unwrap_or(0))
}

/// Whether a value stands behind the last index of an array that may be, where `next` is the
/// greatest index and 1.
fn is_beyond(value: Value, most: usize, next: usize) -> bool {
    match value.key {
        Some(index) => most <= index,
        None => most < next,
    }
}

fn are_beyond(values: &[Value], most: usize, next: usize) -> bool {
    values.iter().any(|value| is_beyond(*value, most, next))
}

/// Whether a group passes its kind's limits with the slots as they are afterwards.
pub fn is_too_large(slots: &[Slot], place: Place, group: &Group) -> bool {
    let kind = kind_at(place.kind);
    let (most, longest) = (kind.max_count as usize, kind.max_size as usize);
    let values = group.values.as_slice();
    let is_array = kind.model == DataModel::Array;
    let beyond = is_array && are_beyond(values, most, next_index(slots, place));
    beyond || most < count(slots, place) || are_too_long(values, longest)
}
