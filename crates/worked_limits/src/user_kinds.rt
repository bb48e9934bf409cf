//! Kinds for a user.

use access_policy::Policy;
use data_models::{DataModel, KindDef, MAX_COUNT, MAX_SIZE};

/// A kind for a user.
pub fn kind(id: u32, model: DataModel, count: u32, size: u32) -> KindDef {
    KindDef {
        id,
        model,
        policy: Policy::UserMatch,
        max_count: count,
        max_size: size,
        multiple: 0,
    }
}

/// A kind of each model, of as many slots and as long values as there may be.
pub fn widest() -> [KindDef; 3] {
    [
        kind(256, DataModel::Single, 1, MAX_SIZE),
        kind(257, DataModel::Array, MAX_COUNT, MAX_SIZE),
        kind(258, DataModel::Dictionary, MAX_COUNT, MAX_SIZE),
    ]
}
