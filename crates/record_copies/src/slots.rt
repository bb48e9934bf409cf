//! The slots that a note and its values say.

ghost use Rattle.std.specs.Prelude.{◌≡◌, ◌≤◌, map, IfOk};
ghost use Rattle.std.specs.Option.{option_map, option_map_or};
ghost use Rattle.data_models.specs.Stored.{stored_size};
ghost use Rattle.storage_model.specs.declared.limits.TheConstants.{MAX_WEIGHT};
ghost use Rattle.record_state.specs.Written.{slot_entry};
ghost use Rattle.node_model.specs.Copies as model;
ghost use Rattle.record_copies.specs.Said as said;

use crate::rest::Rest;
use data_models::StoredData;
use peer_note::SlotNote;
use reload_base::{List, NoMemory};
use std::alloc::Global;
use storage_model::{Held, Slot};
use wire_core::Spell;

/// The slots that a note and the values beside it say: each that is held has the next value. Keys
/// and values move.
pub(crate) fn slots_said(
    alloc: Global,
    notes: List<SlotNote>,
    values: List<StoredData>,
) -> Result<List<Slot>, NoMemory>
    requires { said.slots_weight notes values ≤ MAX_WEIGHT }
    ensures { IfOk result (λ slots. map slot_entry slots ≡ model.slots_said notes values) }
{
    let mut slots = List::new(alloc);
    let mut left = Rest::of(notes);
    let mut beside = Rest::of(values);
    'notes: while let Some(note) = left.take() {
        let value = next_value(note.held, &mut beside);
        slots.push(slot_with(note, value))?;
    }
    Ok(slots)
}

/// Takes the value for a slot, where that is held.
fn next_value(held: bool, values: &mut Rest<StoredData>) -> Option<StoredData>
    ensures value { result ≡ said.value_for held values.old }
    ensures rest { values.new ≡ said.values_after held values.old }
{
    if held { values.take() } else { None }
}

/// A slot that a note says, with this value.
fn slot_with(note: SlotNote, value: Option<StoredData>) -> Slot
    requires { option_map_or stored_size value 0 ≤ MAX_WEIGHT }
    ensures { slot_entry result ≡ said.slot_with note value }
{
    let SlotNote {
        key,
        floor,
        held: _,
        expiry,
    } = note;
    Slot {
        key,
        floor,
        held: held_with(expiry, value),
    }
}

fn held_with(expiry: u64, value: Option<StoredData>) -> Option<Held>
    requires { option_map_or stored_size value 0 ≤ MAX_WEIGHT }
    ensures { result ≡ option_map (model.held_until expiry) value }
{
    match value {
        Some(value) => Some(held_until(expiry, value)),
        None => None,
    }
}

/// A value in a slot, until a clock.
#[tactic(auto, unfolding(node_model::specs::Copies::held_until))]
fn held_until(expiry: u64, stored: StoredData) -> Held
    requires { stored_size stored ≤ MAX_WEIGHT }
    ensures { result ≡ model.held_until expiry stored }
{
    let size = stored.len() as u32;
    let StoredData {
        key: _,
        storage_time,
        lifetime: _,
        present,
        value,
        signature,
    } = stored;
    Held {
        storage_time,
        present,
        value,
        signature,
        size,
        expiry,
    }
}
