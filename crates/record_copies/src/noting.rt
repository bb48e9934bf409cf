//! What a note says of a record.

ghost use Rattle.std.specs.Prelude.{◌≡◌, map, is_some, IfOk};
ghost use Rattle.std.specs.Option.{option_map_or};
ghost use Rattle.std.specs.FinMap.{entries};
ghost use Rattle.node_model.specs.Copies as model;

use kind_store::Record;
use peer_note::{KeptAnswer, KindNote, SlotNote, StoreNote};
use record_state::{KindState, Kinds, SlotState, Slots};
use reload_base::{Bytes, List, NoMemory};
use std::alloc::Global;
use storage_model::Kept;

/// What a note says of a record.
#[tactic(auto, unfolding(node_model::specs::Copies::noted))]
pub fn noted(alloc: Global, stored: &Record) -> Result<StoreNote, NoMemory>
    ensures { IfOk result (λ note. note ≡ model.noted stored.now) }
{
    Ok(StoreNote {
        turn: stored.turn(),
        joined: stored.joined(),
        kinds: kind_notes(alloc, stored.kinds_held())?,
        kept: kept_notes(alloc, stored.kept(alloc)?)?,
    })
}

/// What a note says of kinds, by rising Kind-ID.
fn kind_notes(alloc: Global, kinds: &Kinds) -> Result<List<KindNote>, NoMemory>
    ensures { IfOk result (λ notes. notes ≡ map model.kind_noted (entries kinds.now)) }
{
    let mut notes = List::new(alloc);
    for (id, kind) in kinds.table().rows() {
        notes.push(kind_note(alloc, *id as u32, kind)?)?;
    }
    Ok(notes)
}

/// What a note says of a kind.
#[tactic(auto, unfolding(node_model::specs::Copies::kind_noted))]
fn kind_note(alloc: Global, id: u32, kind: &KindState) -> Result<KindNote, NoMemory>
    ensures { IfOk result (λ note. note ≡ model.kind_noted (id, kind.now)) }
{
    Ok(KindNote {
        kind: id,
        generation: kind.generation,
        append_floor: kind.append_floor,
        slots: slot_notes(alloc, &kind.slots)?,
    })
}

/// What a note says of slots, by rising key.
fn slot_notes(alloc: Global, slots: &Slots) -> Result<List<SlotNote>, NoMemory>
    ensures { IfOk result (λ notes. notes ≡ map model.slot_noted (entries slots.now)) }
{
    let mut notes = List::new(alloc);
    for (key, slot) in slots.table().tree() {
        notes.push(slot_note(alloc, key.as_slice(), slot)?)?;
    }
    Ok(notes)
}

/// What a note says of a slot.
#[tactic(auto, unfolding(node_model::specs::Copies::slot_noted))]
fn slot_note(alloc: Global, key: &[u8], slot: &SlotState) -> Result<SlotNote, NoMemory>
    ensures { IfOk result (λ note. note ≡ model.slot_noted (key.now, slot.now)) }
{
    let (held, expiry) = held_until(slot);
    Ok(SlotNote {
        key: Bytes::from_slice(alloc, key)?,
        floor: slot.floor,
        held,
        expiry,
    })
}

/// Whether a slot holds a value, and when that expires.
fn held_until(slot: &SlotState) -> (bool, u64)
    ensures held { result.0 ≡ is_some slot.now.held }
    ensures expiry { result.1 ≡ option_map_or (λ h. h.expiry) slot.now.held 0 }
{
    match slot.value() {
        Some(held) => (true, held.expiry),
        None => (false, 0),
    }
}

/// What a note says of the answers that are kept. Their counters move.
fn kept_notes(alloc: Global, kept: List<Kept>) -> Result<List<KeptAnswer>, NoMemory>
    ensures { IfOk result (λ notes. notes ≡ map model.kept_noted kept) }
{
    let mut notes = List::new(alloc);
    for answer in kept.into_vec() {
        notes.push(kept_note(answer))?;
    }
    Ok(notes)
}

/// What a note says of an answer that is kept.
fn kept_note(answer: Kept) -> KeptAnswer
    ensures { result ≡ model.kept_noted answer }
{
    let Kept {
        origin,
        id,
        code,
        counters,
    } = answer;
    KeptAnswer {
        origin,
        id,
        code,
        counters,
    }
}
