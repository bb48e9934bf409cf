//! The parts of a record that requests and answers name too.

use reload_base::{Bytes, List, NoMemory, TryCopy};
use reload_ids::NodeId;
use std::alloc::Global;
use wire_core::Signature;

/// A value that a slot holds.
#[derive(Debug, Drop)]
pub struct Held {
    /// When its owner stored it, in milliseconds.
    pub storage_time: u64,
    /// Whether there is a value, or a Store took it away.
    pub present: bool,
    /// The bytes of the value.
    pub value: Bytes,
    /// Its owner's signature.
    pub signature: Signature,
    /// The whole length of its StoredData, in bytes.
    pub size: u32,
    /// The clock at which it is expired, in milliseconds.
    pub expiry: u64,
}

/// An answer that is kept, so that a repeat of its request gets it again.
#[derive(Debug, Drop)]
pub struct Kept {
    /// Whose request it answers.
    pub origin: NodeId,
    /// That request's transaction id.
    pub id: u64,
    /// The error code (RFC 6940, section 6.3.3.1), or 0.
    pub code: u16,
    /// Kind-IDs and generation counters.
    pub counters: List<(u32, u64)>,
}

/// A slot of a record, as records are written down.
#[derive(Debug, Drop)]
pub struct Slot {
    /// The key: no bytes for a single kind, the 4 bytes of an index, or a name.
    pub key: Bytes,
    /// The greatest storage time that was ever accepted there, in milliseconds.
    pub floor: u64,
    /// The value, where the slot holds one.
    pub held: Option<Held>,
}

/// A kind of a record, as records are written down.
#[derive(Debug, Drop)]
pub struct KindRecord {
    /// The Kind-ID.
    pub kind: u32,
    /// The generation counter.
    pub generation: u64,
    /// The greatest storage time that was ever appended, in milliseconds.
    pub append_floor: u64,
    /// The slots, by rising key.
    pub slots: List<Slot>,
}

impl TryCopy for Held {
    fn copy(&self, alloc: Global) -> Result<Held, NoMemory> {
        Ok(Held {
            storage_time: self.storage_time,
            present: self.present,
            value: self.value.copy(alloc)?,
            signature: self.signature.copy(alloc)?,
            size: self.size,
            expiry: self.expiry,
        })
    }
}

impl TryCopy for Kept {
    fn copy(&self, alloc: Global) -> Result<Kept, NoMemory> {
        Ok(Kept {
            origin: self.origin,
            id: self.id,
            code: self.code,
            counters: self.counters.copy(alloc)?,
        })
    }
}
