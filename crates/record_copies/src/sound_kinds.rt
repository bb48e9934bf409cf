//! Whether a kind that a note says is sound.

ghost use Rattle.std.specs.Prelude.{◌≡◌, false};
ghost use Rattle.std.specs.Option.{option_map_or};
ghost use Rattle.std.specs.List.{list_all};
ghost use Rattle.node_model.specs.Copies as model;

use crate::keys::is_slot_key;
use crate::rising::keys_rise;
use data_models::{Config, DataModel};
use peer_note::{KindNote, SlotNote};

/// Whether each kind is sound.
pub(crate) fn are_sound_kinds(config: &Config, notes: &[KindNote]) -> bool
    ensures { result ≡ list_all (model.is_sound_kind config.now) notes.now }
{
    notes.iter().all(|note| is_sound_kind(config, note))
}

/// Whether a kind has a definition, and at least one slot, and these are sound and rise.
#[tactic(auto, unfolding(node_model::specs::Copies::is_sound_kind))]
fn is_sound_kind(config: &Config, note: &KindNote) -> bool
    ensures { result ≡ model.is_sound_kind config.now note.now }
{
    let slots = note.slots.as_slice();
    has_sound_slots(config.model(note.kind), slots) && !slots.is_empty() && keys_rise(slots)
}

fn has_sound_slots(defined: Option<DataModel>, slots: &[SlotNote]) -> bool
    ensures { result ≡ option_map_or (λ defined.
        list_all (model.is_sound_slot defined) slots.now) defined false }
{
    match defined {
        Some(defined) => are_sound_slots(defined, slots),
        None => false,
    }
}

fn are_sound_slots(defined: DataModel, slots: &[SlotNote]) -> bool
    ensures { result ≡ list_all (model.is_sound_slot defined) slots.now }
{
    slots.iter().all(|slot| is_sound_slot(defined, slot))
}

/// Whether a slot has a key of its kind's model, and an expiry only where it is held.
#[tactic(auto, unfolding(node_model::specs::Copies::is_sound_slot))]
fn is_sound_slot(defined: DataModel, slot: &SlotNote) -> bool
    ensures { result ≡ model.is_sound_slot defined slot.now }
{
    is_slot_key(defined, slot.key.as_slice()) && (slot.held || slot.expiry == 0)
}
