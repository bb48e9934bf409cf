//! What the slots and kinds weigh that a note and its Store say.

ghost use Rattle.std.specs.Prelude.{◌≡◌, ◌-◌, ◌^◌, min};
ghost use Rattle.std.specs.Option.{option_map_or};
ghost use Rattle.data_models.specs.Stored.{stored_size};
ghost use Rattle.record_copies.specs.Said as said;

use crate::agreeing::values_in;
use data_models::{StoreKind, StoredData};
use peer_note::{KindNote, SlotNote};
use storage_model::{KIND_WEIGHT, SLOT_WEIGHT};
use wire_core::Spell;

/// What the kinds weigh, or `u64::MAX` where that is more.
#[tactic(auto, using(crate::proofs::Weights::no_kind, crate::proofs::Weights::none_beside, crate::proofs::Weights::kinds_more))]
pub(crate) fn kinds_weight(notes: &[KindNote], kinds: &[StoreKind]) -> u64
    ensures { result ≡ min (said.kinds_weight notes.now kinds.now) (2 ^ 64 - 1) }
{
    let mut sum = 0u64;
    let mut left = notes;
    let mut beside = kinds;
    'notes: while let Some((note, others)) = left.split_first() {
        let Some((kind, more)) = beside.split_first() else {
            return sum;
        };
        sum = sum.saturating_add(kind_weight(note, kind));
        left = others;
        beside = more;
    }
    sum
}

/// What a kind weighs, or `u64::MAX` where that is more.
#[tactic(auto, unfolding(crate::specs::Said::kind_weight_said))]
fn kind_weight(note: &KindNote, kind: &StoreKind) -> u64
    ensures { result ≡ min (said.kind_weight_said note.now kind.now) (2 ^ 64 - 1) }
{
    KIND_WEIGHT.saturating_add(slots_weight(note.slots.as_slice(), values_in(&kind.values)))
}

/// What the slots weigh, or `u64::MAX` where that is more.
#[tactic(auto, using(crate::proofs::Weights::no_slot, crate::proofs::Weights::slots_more))]
fn slots_weight(notes: &[SlotNote], values: &[StoredData]) -> u64
    ensures { result ≡ min (said.slots_weight notes.now values.now) (2 ^ 64 - 1) }
{
    let mut sum = 0u64;
    let mut left = notes;
    let mut beside = values;
    'notes: while let Some((note, others)) = left.split_first() {
        sum = sum.saturating_add(slot_weight(note, beside));
        beside = values_behind(note.held, beside);
        left = others;
    }
    sum
}

/// What the first of some slots weighs with its value, or `u64::MAX` where that is more.
#[tactic(auto, unfolding(crate::specs::Said::weight_with))]
fn slot_weight(note: &SlotNote, values: &[StoredData]) -> u64
    ensures { result ≡ min (said.weight_with note.now (said.value_for note.now.held values.now))
        (2 ^ 64 - 1) }
{
    SLOT_WEIGHT
        .saturating_add(note.key.len() as u64)
        .saturating_add(value_size(note.held, values))
}

/// The bytes of the first value, or 0 where the slot isn't held, or `u64::MAX` where there are
/// more.
fn value_size(held: bool, values: &[StoredData]) -> u64
    ensures { result ≡ min (option_map_or stored_size (said.value_for held values.now) 0)
        (2 ^ 64 - 1) }
{
    match values.split_first() {
        Some((value, _)) if held => value.len(),
        _ => 0,
    }
}

/// The values for the other slots, behind the one for the first where that is held.
fn values_behind<'a>(held: bool, values: &'a [StoredData]) -> &'a [StoredData]
    ensures { result.now ≡ said.values_after held values.now }
{
    match values.split_first() {
        Some((_, others)) if held => others,
        _ => values,
    }
}
