//! Kinds written down in their order, and put together again.

ghost use Rattle.std.specs.Prelude.{◌≡◌, ◌++◌, ◌∷◌, [], OnOk, OnErr, IfOk};
ghost use Rattle.std.specs.FinMap as map;
ghost use Rattle.record_state.specs.Written as written;
ghost use Rattle.record_state.specs.Written.{Follows};

use crate::boxed_held::BoxedHeld;
use crate::kind::KindState;
use crate::kinds::Kinds;
use crate::slot::SlotState;
use crate::slots::Slots;
use reload_base::{Bytes, List, NoMemory, TryCopy};
use std::alloc::Global;
use storage_model::{Held, KindRecord, Slot};

impl Kinds {
    /// Adds a kind behind those that are there. After `NoMemory` all is as before.
    pub fn push(&mut self, alloc: Global, kind: KindRecord) -> Result<(), NoMemory>
        requires { Follows self.old kind }
        ensures ok { OnOk result (
            self.new ≡ map.insert self.old kind.kind (written.kind_written kind)) }
        ensures listed { OnOk result (
            written.kind_records self.new ≡ written.kind_records self.old ++ kind ∷ []) }
        ensures err { OnErr result (self.new ≡ self.old) }
    {
        let state = KindState {
            generation: kind.generation,
            append_floor: kind.append_floor,
            slots: slots_of(alloc, kind.slots)?,
        };
        self.add(kind.kind, state)
    }

    /// The kinds by rising id, each with copies of its slots by rising key.
    pub fn records(&self, alloc: Global) -> Result<List<KindRecord>, NoMemory>
        ensures { IfOk result (λ all. all ≡ written.kind_records self.now) }
    {
        let mut all = List::new(alloc);
        for (id, kind) in self.table().rows() {
            all.push(record_of(alloc, *id as u32, kind)?)?;
        }
        Ok(all)
    }
}

/// A kind with copies of its slots.
fn record_of(alloc: Global, id: u32, kind: &KindState) -> Result<KindRecord, NoMemory>
    ensures { IfOk result (λ k. k ≡ written.kind_record id kind.now) }
{
    Ok(KindRecord {
        kind: id,
        generation: kind.generation,
        append_floor: kind.append_floor,
        slots: copied(alloc, &kind.slots)?,
    })
}

/// Copies of slots, by rising key.
#[tactic(auto, unfolding(crate::specs::Written::slot_records))]
fn copied(alloc: Global, slots: &Slots) -> Result<List<Slot>, NoMemory>
    ensures { IfOk result (λ all. all ≡ written.slot_records slots.now) }
{
    let mut all = List::new(alloc);
    for (key, slot) in slots.table().tree() {
        all.push(slot_record_of(alloc, key.as_slice(), slot)?)?;
    }
    Ok(all)
}

/// A copy of a slot with its key.
fn slot_record_of(alloc: Global, key: &[u8], slot: &SlotState) -> Result<Slot, NoMemory>
    ensures { IfOk result (λ s. s ≡ written.slot_record (key.now, slot.now)) }
{
    Ok(Slot {
        key: Bytes::from_slice(alloc, key)?,
        floor: slot.floor,
        held: held_copied(alloc, slot)?,
    })
}

/// A copy of the value of a slot.
fn held_copied(alloc: Global, slot: &SlotState) -> Result<Option<Held>, NoMemory>
    ensures { IfOk result (λ held. held ≡ slot.now.held) }
{
    match &slot.held {
        Some(held) => Ok(Some(held.get().copy(alloc)?)),
        None => Ok(None),
    }
}

/// Slots by their keys, which rise. Their keys and bytes move.
fn slots_of(alloc: Global, slots: List<Slot>) -> Result<Slots, NoMemory>
    requires { written.HaveRisingKeys slots }
    ensures { IfOk result (λ all. all ≡ written.slots_written slots) }
{
    let mut all = Slots::new(alloc);
    for slot in slots.into_vec() {
        let (key, state) = entry_of(alloc, slot)?;
        all.add(key, state)?;
    }
    Ok(all)
}

/// A slot and its key, which move.
fn entry_of(alloc: Global, slot: Slot) -> Result<(Bytes, SlotState), NoMemory>
    ensures key { IfOk result (λ entry. entry.0 ≡ slot.key) }
    ensures state { IfOk result (λ entry. entry.1 ≡ (written.slot_entry slot).1) }
{
    let Slot { key, floor, held } = slot;
    let state = SlotState {
        floor,
        held: held_boxed(alloc, held)?,
    };
    Ok((key, state))
}

/// The value of a slot, in memory of its own.
fn held_boxed(alloc: Global, held: Option<Held>) -> Result<Option<BoxedHeld>, NoMemory>
    ensures { IfOk result (λ boxed. boxed ≡ held) }
{
    match held {
        Some(held) => Ok(Some(BoxedHeld::new(alloc, held)?)),
        None => Ok(None),
    }
}
