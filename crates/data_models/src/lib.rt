//! Kinds and the values that are stored under them (RFC 6940, section 7).
#![tactic(auto)]

mod config;
mod data_value;
mod fetched;
mod slot_key;
mod specifier;
mod store_kind;
mod stored_codec;
mod stored_data;

pub use config::{
    Config, DataModel, KindDef, MAX_COUNT, MAX_KINDS, MAX_MULTIPLE, MAX_NAME, MAX_REPLICAS,
    MAX_SEQUENCE, MAX_SIZE,
};
pub use data_value::take_data_value;
pub use fetched::{KindValues, Selector, Specifier, StoreKind};
pub use specifier::{put_specifier, take_specifier};
pub use store_kind::{put_store_kind, take_store_kind};
/// A kind of the answer to a Fetch has the layout of one of a Store.
pub use store_kind::take_store_kind as take_fetch_kind;
pub use stored_codec::{gap_size, signed_bytes, sizes};
pub use stored_data::{END_INDEX, SlotKey, StoredData};
