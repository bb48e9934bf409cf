//! What a Store asks of one kind.

ghost use Rattle.std.specs.Prelude.{◌≡◌, IfOk};
ghost use Rattle.std.specs.List.{list_any};
ghost use Rattle.storage_model.specs.Requests as requests;
ghost use Rattle.storage_model.specs.Requests.{values_of};
ghost use Rattle.storage_model.specs.Puts.{held_of, slot_of};
ghost use Rattle.std.specs.Prelude.{◌<◌, ◌^◌};

use crate::boxed_held::BoxedHeld;
use crate::slot::SlotState;
use data_models::SlotKey;
use reload_base::{NoMemory, TryCopy};
use std::alloc::Global;
use storage_model::{AskedKind, AskedValues, Held, Value};

/// The values of a kind, none where the configuration lacks the kind.
pub fn values_in(asked: &AskedKind) -> &[Value]
    ensures { result.now ≡ values_of asked.now }
{
    match &asked.values {
        AskedValues::Known(values) => values.as_slice(),
        AskedValues::Raw(_) => &[],
    }
}

/// Whether a Store puts a value of this kind.
#[tactic(auto, unfolding(storage_model::specs::Requests::puts))]
pub fn puts(asked: &AskedKind) -> bool
    ensures { result ≡ requests.puts asked.now }
{
    !values_in(asked).is_empty()
}

/// Whether a Store puts some value.
pub fn any_puts(asked: &[AskedKind]) -> bool
    ensures { result ≡ list_any requests.puts asked.now }
{
    asked.iter().any(|kind| puts(kind))
}

/// Whether a key is the end of an array, where values are appended.
pub fn is_end(key: &SlotKey) -> bool
    ensures { result ≡ requests.is_end key.now }
{
    match key {
        SlotKey::End => true,
        _ => false,
    }
}

/// What a value's slot is once it is put, at a clock in milliseconds.
pub fn slot_after(alloc: Global, now: u64, value: &Value) -> Result<SlotState, NoMemory>
    requires { now < 2 ^ 62 }
    ensures { IfOk result (λ slot. slot ≡ slot_of now value.now) }
{
    Ok(SlotState {
        floor: value.stored.storage_time,
        held: Some(BoxedHeld::new(alloc, held_after(alloc, now, value)?)?),
    })
}

/// A value once it is held. The one copy of its bytes is made here.
fn held_after(alloc: Global, now: u64, value: &Value) -> Result<Held, NoMemory>
    requires { now < 2 ^ 62 }
    ensures { IfOk result (λ held. held ≡ held_of now value.now) }
{
    Ok(Held {
        storage_time: value.stored.storage_time,
        present: value.stored.present,
        value: value.stored.value.copy(alloc)?,
        signature: value.stored.signature.copy(alloc)?,
        size: value.size,
        expiry: now + 1000 * u64::from(value.stored.lifetime),
    })
}
