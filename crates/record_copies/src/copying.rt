//! The kinds of a Store that copies a record.

ghost use Rattle.std.specs.Prelude.{◌≡◌, map, IfOk};
ghost use Rattle.std.specs.List.{filter_map};
ghost use Rattle.std.specs.FinMap.{entries};
ghost use Rattle.node_model.specs.Copies as model;

use crate::keys::slot_key;
use data_models::{Config, DataModel, KindValues, StoreKind, StoredData};
use kind_store::{Record, found};
use record_state::{KindState, Kinds, SlotState, Slots};
use reload_base::{Bytes, List, NoMemory};
use std::alloc::Global;

/// The kinds of a Store that copies a record, at a clock in milliseconds: the values with the rest
/// of their lifetimes. Each value's bytes are copied once.
#[tactic(auto, unfolding(node_model::specs::Copies::copied_kinds))]
pub fn copied_kinds(
    alloc: Global,
    config: &Config,
    now: u64,
    stored: &Record,
) -> Result<List<StoreKind>, NoMemory>
    ensures { IfOk result (λ kinds. kinds ≡ model.copied_kinds config.now now stored.now) }
{
    each_copied(alloc, config, now, stored.kinds_held())
}

fn each_copied(
    alloc: Global,
    config: &Config,
    now: u64,
    kinds: &Kinds,
) -> Result<List<StoreKind>, NoMemory>
    ensures { IfOk result (λ copies.
        copies ≡ map (model.kind_copied config.now now) (entries kinds.now)) }
{
    let mut copies = List::new(alloc);
    for (id, kind) in kinds.table().rows() {
        copies.push(kind_copied(alloc, config, now, *id as u32, kind)?)?;
    }
    Ok(copies)
}

/// A kind with its values.
#[tactic(auto, unfolding(node_model::specs::Copies::kind_copied))]
fn kind_copied(
    alloc: Global,
    config: &Config,
    now: u64,
    id: u32,
    kind: &KindState,
) -> Result<StoreKind, NoMemory>
    ensures { IfOk result (λ copy. copy ≡ model.kind_copied config.now now (id, kind.now)) }
{
    Ok(StoreKind {
        kind: id,
        generation: kind.generation,
        values: values_copied(alloc, now, config.model(id), &kind.slots)?,
    })
}

/// The values of a kind, in the order of its slots; one without a definition has none.
#[tactic(auto, unfolding(node_model::specs::Copies::values_copied))]
fn values_copied(
    alloc: Global,
    now: u64,
    defined: Option<DataModel>,
    slots: &Slots,
) -> Result<KindValues, NoMemory>
    ensures { IfOk result (λ values. values ≡ model.values_copied now defined slots.now) }
{
    match defined {
        Some(defined) => Ok(KindValues::Known(known_values(alloc, now, defined, slots)?)),
        None => Ok(KindValues::Raw(Bytes::new(alloc))),
    }
}

fn known_values(
    alloc: Global,
    now: u64,
    defined: DataModel,
    slots: &Slots,
) -> Result<List<StoredData>, NoMemory>
    ensures { IfOk result (λ values.
        values ≡ filter_map (model.value_copied now defined) (entries slots.now)) }
{
    let mut values = List::new(alloc);
    for (key, slot) in slots.table().tree() {
        if let Some(value) = value_copied(alloc, now, defined, key.as_slice(), slot)? {
            values.push(value)?;
        }
    }
    Ok(values)
}

/// The value that a slot holds, expired or not, with the rest of its lifetime.
fn value_copied(
    alloc: Global,
    now: u64,
    defined: DataModel,
    key: &[u8],
    slot: &SlotState,
) -> Result<Option<StoredData>, NoMemory>
    ensures { IfOk result (λ value. value ≡ model.value_copied now defined (key.now, slot.now)) }
{
    match slot.value() {
        Some(held) => Ok(Some(found(alloc, now, slot_key(alloc, defined, key)?, held)?)),
        None => Ok(None),
    }
}
