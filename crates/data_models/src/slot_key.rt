//! What stands of a slot's key before its value (RFC 6940, section 7.2).

ghost use Rattle.std.specs.Prelude.{◌≡◌, ◌-◌, ◌^◌, ◌<◌, ◌↔◌, ◌++◌, IsTrue, OnOk, OnErr, length, min, take};
ghost use Rattle.wire_core.specs.Reading.{Decodes};
ghost use Rattle.data_models.specs.Stored.{key_part, key_at, indexed, IsSpelledKey};

use crate::config::DataModel;
use crate::stored_data::{END_INDEX, SlotKey};
use reload_base::{Bytes, NoMemory};
use std::alloc::Global;
use wire_core::{Cursor, DecodeFault, put_bytes, put_u32, take_bytes};

/// Takes a key of a model.
#[tactic(auto, unfolding(crate::specs::Stored::key_at))]
pub(crate) fn take_key(
    alloc: Global,
    model: DataModel,
    from: &mut Cursor<'_>,
) -> Result<SlotKey, DecodeFault>
    ensures { Decodes result from.new (key_at model from.old) }
{
    match model {
        DataModel::Single => Ok(SlotKey::Whole),
        DataModel::Array => Ok(indexed(from.take_u32()?)),
        DataModel::Dictionary => Ok(SlotKey::Name(take_bytes(alloc, from, 2)?)),
    }
}

/// The key that an index is.
fn indexed(index: u32) -> SlotKey
    ensures { result ≡ indexed index }
{
    if index == END_INDEX {
        SlotKey::End
    } else {
        SlotKey::Index(index)
    }
}

/// Whether a key has a spelling.
pub(crate) fn key_fits(key: &SlotKey) -> bool
    ensures { IsTrue result ↔ IsSpelledKey key.now }
{
    match key {
        SlotKey::Whole | SlotKey::End => true,
        SlotKey::Index(index) => *index < END_INDEX,
        SlotKey::Name(name) => name.len() < 0x1_0000,
    }
}

/// The number of bytes that stand of a key, or `u64::MAX` where there are more.
#[tactic(auto, using(wire_core::proofs::Puts::lengths), unfolding(crate::specs::Stored::key_part))]
pub(crate) fn key_len(key: &SlotKey) -> u64
    ensures { result ≡ min (length (key_part key.now)) (2 ^ 64 - 1) }
{
    match key {
        SlotKey::Whole => 0,
        SlotKey::Index(_) | SlotKey::End => 4,
        SlotKey::Name(name) => (name.len() as u64).saturating_add(2),
    }
}

/// Adds what stands of a key. After `NoMemory` the bytes still begin with what was there.
#[tactic(auto, using(wire_core::proofs::Puts::fronts), unfolding(crate::specs::Stored::key_part))]
pub(crate) fn put_key(out: &mut Bytes, key: &SlotKey) -> Result<(), NoMemory>
    requires { IsSpelledKey key.now }
    ensures ok { OnOk result (out.new ≡ out.old ++ key_part key.now) }
    ensures err { OnErr result (take (length out.old) out.new ≡ out.old) }
{
    match key {
        SlotKey::Whole => Ok(()),
        SlotKey::Index(index) => put_u32(out, *index),
        SlotKey::End => put_u32(out, END_INDEX),
        SlotKey::Name(name) => put_bytes(out, 2, name.as_slice()),
    }
}
