//! Expired values leave a draft of the kinds.

ghost use Rattle.std.specs.Prelude.{ℕ, ◌≡◌, ◌∷◌, ◌++◌, Some, fold, IfOk, OnOk};
ghost use Rattle.std.specs.Prelude as words;
ghost use Rattle.std.specs.FinMap as map;
ghost use Rattle.storage_model.specs.Records as records;
ghost use Rattle.storage_model.specs.Records.{map_values, swept_slot, all_swept};
ghost use Rattle.record_state.specs.Sweep.{swept_on, emptied_at, emptied_on, is_expired};

use crate::draft::Draft;
use crate::kind::KindState;
use crate::kinds::Kinds;
use crate::slot::SlotState;
use crate::slots::Slots;
use reload_base::{Bytes, List, NoMemory};
use std::alloc::Global;

/// Takes the expired values out, at a clock in milliseconds. Kinds in which nothing is due are
/// passed over, and take no memory.
pub fn sweep(draft: &mut Draft, alloc: Global, now: u64) -> Result<(), NoMemory>
    ensures before { draft.new.before ≡ draft.old.before }
    ensures ok { OnOk result (draft.new.kinds ≡ all_swept now draft.old.kinds) }
{
    let ids = due_kinds(alloc, now, draft.kinds())?;
    sweep_all(draft, alloc, now, ids.as_slice())
}

/// The kinds in which a value may be expired.
fn due_kinds(alloc: Global, now: u64, kinds: &Kinds) -> Result<List<u32>, NoMemory>
    ensures { IfOk result (λ ids. fold (swept_on now) kinds.now ids ≡ all_swept now kinds.now) }
{
    let mut ids = List::new(alloc);
    for (id, kind) in kinds.table().rows() {
        note_due(&mut ids, now, *id as u32, kind)?;
    }
    Ok(ids)
}

/// Adds a kind to others, unless nothing in it is due: to sweep those is then to sweep it too.
fn note_due(ids: &mut List<u32>, now: u64, id: u32, kind: &KindState) -> Result<(), NoMemory>
    ensures { (kinds : records.Kinds) (rest : words.List ℕ) → map.get kinds id ≡ Some kind.now
        → OnOk result (fold (swept_on now) kinds (ids.new ++ rest)
        ≡ fold (swept_on now) kinds (ids.old ++ id ∷ rest)) }
{
    if now < kind.slots.soonest() {
        return Ok(());
    }
    ids.push(id)
}

fn sweep_all(draft: &mut Draft, alloc: Global, now: u64, ids: &[u32]) -> Result<(), NoMemory>
    ensures before { draft.new.before ≡ draft.old.before }
    ensures ok { OnOk result (draft.new.kinds ≡ fold (swept_on now) draft.old.kinds ids.now) }
{
    for id in ids {
        sweep_kind(draft, alloc, now, *id)?;
    }
    Ok(())
}

/// Takes the expired values of a kind out, which then knows when the first of the others expires.
fn sweep_kind(draft: &mut Draft, alloc: Global, now: u64, id: u32) -> Result<(), NoMemory>
    ensures before { draft.new.before ≡ draft.old.before }
    ensures ok { OnOk result (draft.new.kinds ≡ swept_on now draft.old.kinds id) }
{
    let Some(kind) = draft.kinds().get(id) else {
        return Ok(());
    };
    let keys = due_keys(alloc, now, &kind.slots)?;
    empty_all(draft, now, id, keys)?;
    draft.renew_soonest(id);
    Ok(())
}

/// The keys at which a value is expired.
fn due_keys(alloc: Global, now: u64, slots: &Slots) -> Result<List<Bytes>, NoMemory>
    ensures { IfOk result (λ keys.
        fold (emptied_at now) slots.now keys ≡ map_values (swept_slot now) slots.now) }
{
    let mut keys = List::new(alloc);
    for (key, slot) in slots.table().tree() {
        if is_due(now, slot) {
            keys.push(Bytes::from_slice(alloc, key.as_slice())?)?;
        }
    }
    Ok(keys)
}

fn empty_all(draft: &mut Draft, now: u64, id: u32, keys: List<Bytes>) -> Result<(), NoMemory>
    ensures before { draft.new.before ≡ draft.old.before }
    ensures ok { OnOk result (draft.new.kinds ≡ fold (emptied_on now id) draft.old.kinds keys) }
{
    for key in keys.into_vec() {
        empty(draft, now, id, key)?;
    }
    Ok(())
}

/// Takes the value at a key out, where it is expired.
fn empty(draft: &mut Draft, now: u64, id: u32, key: Bytes) -> Result<(), NoMemory>
    ensures before { draft.new.before ≡ draft.old.before }
    ensures ok { OnOk result (draft.new.kinds ≡ emptied_on now id draft.old.kinds key) }
{
    let Some(kind) = draft.kinds().get(id) else {
        return Ok(());
    };
    let Some(slot) = kind.slots.table().get(key.as_slice()) else {
        return Ok(());
    };
    if !is_due(now, slot) {
        return Ok(());
    }
    let counters = (kind.generation, kind.append_floor);
    let empty = SlotState {
        floor: slot.floor,
        held: None,
    };
    draft.put(id, counters, key, empty)
}

/// Whether a slot holds a value that is expired.
fn is_due(now: u64, slot: &SlotState) -> bool
    ensures { result ≡ is_expired now slot.now }
{
    match &slot.held {
        Some(held) => held.get().expiry <= now,
        None => false,
    }
}
