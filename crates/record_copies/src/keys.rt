//! Keys of slots as bytes.

ghost use Rattle.std.specs.Prelude.{◌≡◌, IfOk};
ghost use Rattle.node_model.specs.Copies as model;

use data_models::{DataModel, END_INDEX, SlotKey};
use record_state::index_of;
use reload_base::{Bytes, NoMemory};
use std::alloc::Global;

/// Whether bytes are the key of a slot.
#[tactic(auto, unfolding(node_model::specs::Copies::is_slot_key))]
pub(crate) fn is_slot_key(defined: DataModel, key: &[u8]) -> bool
    ensures { result ≡ model.is_slot_key defined key.now }
{
    match defined {
        DataModel::Single => key.is_empty(),
        DataModel::Array => key.len() == 4 && index_of(key) < END_INDEX,
        DataModel::Dictionary => true,
    }
}

/// The key of a slot with these bytes.
#[tactic(auto, unfolding(node_model::specs::Copies::slot_key))]
pub(crate) fn slot_key(alloc: Global, defined: DataModel, key: &[u8]) -> Result<SlotKey, NoMemory>
    ensures { IfOk result (λ k. k ≡ model.slot_key defined key.now) }
{
    match defined {
        DataModel::Single => Ok(SlotKey::Whole),
        DataModel::Array => Ok(SlotKey::Index(index_of(key))),
        DataModel::Dictionary => Ok(SlotKey::Name(Bytes::from_slice(alloc, key)?)),
    }
}
