//! Configurations.

use data_models::{Config, KindDef};
use reload_base::{Bytes, List, NoMemory};
use std::alloc::Global;

/// The number of each configuration.
pub const SEQUENCE: u16 = 5;

/// The configuration of an overlay with these kinds and without replicas.
pub fn configuration(alloc: Global, kinds: &[KindDef]) -> Result<Config, NoMemory> {
    Ok(Config {
        name: Bytes::from_slice(alloc, b"overlay.example")?,
        sequence: SEQUENCE,
        replicas: 0,
        kinds: List::from_vec(kinds.to_vec(alloc)?),
    })
}
