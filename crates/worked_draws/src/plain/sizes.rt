//! How many bytes there are in what is stored.

use crate::requests::{key_digits, kind_at};
use data_models::DataModel;

/// The bytes of a key.
pub fn key_size(kind: usize, key: usize) -> usize {
    match kind_at(kind).model {
        DataModel::Single => 0,
        DataModel::Array => 4,
        DataModel::Dictionary => key_digits(key).len() / 2,
    }
}

/// The bytes of a gap, whose signature has 7. A dictionary's key stands behind its length.
pub fn gap_size(kind: usize, key: usize) -> usize {
    let length = match kind_at(kind).model {
        DataModel::Single | DataModel::Array => 28_usize,
        DataModel::Dictionary => 30,
    };
    length.wrapping_add(key_size(kind, key))
}

/// The bytes of a StoredData, whose signature has 73.
pub fn stored_size(kind: usize, key: usize, length: usize) -> usize {
    gap_size(kind, key).wrapping_add(66).wrapping_add(length)
}
