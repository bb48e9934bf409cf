//! The values of a Store are put, one after the other (RFC 6940, section 7.4.1).

ghost use Rattle.std.specs.Prelude.{◌≡◌, ◌+◌, ◌<◌, ◌≤◌, ◌^◌, ℕ, true, fold, IfOk, OnOk};
ghost use Rattle.std.specs.Int.{w32, to_be_bytes};
ghost use Rattle.storage_model.specs.Records.{kind_in, next_index};
ghost use Rattle.storage_model.specs.Requests.{placed, appended, is_sound};
ghost use Rattle.storage_model.specs.Puts as meaning;
ghost use Rattle.storage_model.specs.Puts.{at_keys, at_end, append_floor_after};
ghost use Rattle.record_state.specs.Placing.{put_into, placed_on};
ghost use Rattle.record_state.specs.Undo.{slot_put};

use crate::asked::{is_end, puts, slot_after, values_in};
use crate::draft::Draft;
use data_models::Config;
use reload_base::{Bytes, NoMemory};
use std::alloc::Global;
use storage_model::{AskedKind, StoreAsked, Value};

/// Puts the values of one kind, where there are some.
#[tactic(auto, unfolding(crate::specs::Placing::put_into))]
pub fn put_kind(
    draft: &mut Draft,
    alloc: Global,
    now: u64,
    asked: &AskedKind,
) -> Result<(), NoMemory>
    requires clock { now < 2 ^ 62 }
    requires counted { (kind_in draft.old.kinds asked.now.kind).generation < 2 ^ 63 }
    ensures before { draft.new.before ≡ draft.old.before }
    ensures ok { OnOk result (draft.new.kinds ≡ meaning.put_kind now draft.old.kinds asked.now) }
{
    if !puts(asked) {
        return Ok(());
    }
    let values = values_in(asked);
    let counters = counters_after(draft, asked.kind, values);
    put_placed(draft, alloc, now, asked.kind, counters, values)?;
    put_appended(draft, alloc, now, asked.kind, counters, values)
}

/// The generation counter and the append floor of a kind, once its values are put.
fn counters_after(draft: &Draft, id: u32, values: &[Value]) -> (u64, u64)
    requires { (kind_in draft.now.kinds id).generation < 2 ^ 63 }
    ensures generation { result.0 ≡ (kind_in draft.now.kinds id).generation + 1 }
    ensures floor { result.1 ≡ append_floor_after (kind_in draft.now.kinds id).append_floor
        (appended values.now) }
{
    let floor = draft.kinds().append_floor_of(id);
    (
        draft.kinds().generation_of(id) + 1,
        floor_after(floor, values),
    )
}

/// The greatest storage time that was appended, after further appends in their order.
#[tactic(auto, unfolding(storage_model::specs::Puts::append_floor_after, storage_model::specs::Requests::appended))]
fn floor_after(floor: u64, values: &[Value]) -> u64
    ensures { result ≡ append_floor_after floor (appended values.now) }
{
    let mut floor = floor;
    for value in values {
        if is_end(&value.stored.key) {
            floor = value.stored.storage_time;
        }
    }
    floor
}

/// Puts the values that have a slot.
fn put_placed(
    draft: &mut Draft,
    alloc: Global,
    now: u64,
    id: u32,
    counters: (u64, u64),
    values: &[Value],
) -> Result<(), NoMemory>
    requires { now < 2 ^ 62 }
    ensures before { draft.new.before ≡ draft.old.before }
    ensures ok { OnOk result (
        draft.new.kinds ≡ put_into now id counters draft.old.kinds (at_keys (placed values.now))) }
{
    put_each(draft, alloc, now, id, counters, values)
}

/// Puts each value that has a slot.
fn put_each(
    draft: &mut Draft,
    alloc: Global,
    now: u64,
    id: u32,
    counters: (u64, u64),
    values: &[Value],
) -> Result<(), NoMemory>
    requires { now < 2 ^ 62 }
    ensures before { draft.new.before ≡ draft.old.before }
    ensures ok { OnOk result (draft.new.kinds ≡ fold
        (placed_on now id counters) draft.old.kinds values.now) }
{
    for value in values {
        put_in_place(draft, alloc, now, id, counters, value)?;
    }
    Ok(())
}

/// Puts a value, where it has a slot.
#[tactic(auto, unfolding(crate::specs::Placing::placed_on))]
fn put_in_place(
    draft: &mut Draft,
    alloc: Global,
    now: u64,
    id: u32,
    counters: (u64, u64),
    value: &Value,
) -> Result<(), NoMemory>
    requires { now < 2 ^ 62 }
    ensures before { draft.new.before ≡ draft.old.before }
    ensures ok { OnOk result (draft.new.kinds
        ≡ placed_on now id counters draft.old.kinds value.now) }
{
    if is_end(&value.stored.key) {
        return Ok(());
    }
    let key = value.stored.key.bytes(alloc)?;
    let slot = slot_after(alloc, now, value)?;
    draft.put(id, counters, key, slot)
}

/// Appends the values that have no slot, from the index behind the greatest that the array ever
/// held.
#[tactic(auto, unfolding(crate::specs::Placing::put_into, storage_model::specs::Requests::appended, storage_model::specs::Puts::at_end))]
fn put_appended(
    draft: &mut Draft,
    alloc: Global,
    now: u64,
    id: u32,
    counters: (u64, u64),
    values: &[Value],
) -> Result<(), NoMemory>
    requires { now < 2 ^ 62 }
    ensures before { draft.new.before ≡ draft.old.before }
    ensures ok { OnOk result (
        draft.new.kinds ≡ put_into now id counters draft.old.kinds
        (at_end (next_index (kind_in draft.old.kinds id).slots) (appended values.now))) }
{
    let mut next = u128::from(draft.kinds().next_index_of(id));
    for value in values {
        if is_end(&value.stored.key) {
            put_at(draft, alloc, now, id, counters, next, value)?;
            next += 1;
        }
    }
    Ok(())
}

/// Puts a value at an index.
fn put_at(
    draft: &mut Draft,
    alloc: Global,
    now: u64,
    id: u32,
    counters: (u64, u64),
    index: u128,
    value: &Value,
) -> Result<(), NoMemory>
    requires { now < 2 ^ 62 }
    ensures before { draft.new.before ≡ draft.old.before }
    ensures ok { OnOk result (
        draft.new.kinds ≡ slot_put draft.old.kinds id counters.0 counters.1
        (to_be_bytes w32 index) (meaning.slot_of now value.now)) }
{
    let key = index_key(alloc, index)?;
    let slot = slot_after(alloc, now, value)?;
    draft.put(id, counters, key, slot)
}

/// An index as a key: its last 4 bytes.
fn index_key(alloc: Global, index: u128) -> Result<Bytes, NoMemory>
    ensures { IfOk result (λ key. key ≡ to_be_bytes w32 index) }
{
    let bytes = index.to_be_bytes();
    Bytes::from_slice(alloc, &[bytes[12], bytes[13], bytes[14], bytes[15]])
}

/// Puts the values of all kinds of a Store.
pub fn put_kinds(
    draft: &mut Draft,
    alloc: Global,
    now: u64,
    config: &Config,
    request: &StoreAsked,
) -> Result<(), NoMemory>
    requires clock { now < 2 ^ 62 }
    requires counted { (kind : ℕ) → (kind_in draft.old.kinds kind).generation < 2 ^ 63 }
    requires sound { is_sound config.now request.now ≡ true }
    ensures before { draft.new.before ≡ draft.old.before }
    ensures ok { OnOk result (draft.new.kinds ≡ fold
        (meaning.put_kind now) draft.old.kinds request.now.kinds) }
{
    for kind in request.kinds.as_slice() {
        put_kind(draft, alloc, now, kind)?;
    }
    Ok(())
}
