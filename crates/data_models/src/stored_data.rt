//! Values as they are stored, and the slots that they are for.

use crate::config::DataModel;
use reload_base::{Bytes, NoMemory, TryCopy};
use std::alloc::Global;
use wire_core::{Signature, SignerIdentity};

/// The index that stands for the slot behind the last one of an array (RFC 6940, section 7.2.2).
pub const END_INDEX: u32 = 0xFFFF_FFFF;

/// Which slot of a kind a value is for (RFC 6940, section 7.2).
#[derive(Debug, Drop)]
pub enum SlotKey {
    /// The one slot of a single kind.
    Whole,
    /// The slot of an array with this index, which is less than [`END_INDEX`].
    Index(u32),
    /// The slot behind the last one of an array.
    End,
    /// The slot of a dictionary with this key, of at most 65,535 bytes.
    Name(Bytes),
}

/// A value as it is stored (RFC 6940, section 7).
#[derive(Debug, Drop)]
pub struct StoredData {
    pub key: SlotKey,
    /// When its owner stored it, in milliseconds: later values have greater times.
    pub storage_time: u64,
    /// How long it is kept from its decision on, in seconds.
    pub lifetime: u32,
    /// Whether there is a value. A Store of a nonexistent one removes the value before.
    pub present: bool,
    /// The bytes of the value, none where it doesn't exist.
    pub value: Bytes,
    /// Its owner's, over what [`crate::signed_bytes`] gives and the owner's identity.
    pub signature: Signature,
}

impl TryCopy for SlotKey {
    fn copy(&self, alloc: Global) -> Result<SlotKey, NoMemory> {
        match self {
            SlotKey::Whole => Ok(SlotKey::Whole),
            SlotKey::Index(index) => Ok(SlotKey::Index(*index)),
            SlotKey::End => Ok(SlotKey::End),
            SlotKey::Name(name) => Ok(SlotKey::Name(name.copy(alloc)?)),
        }
    }
}

impl TryCopy for StoredData {
    fn copy(&self, alloc: Global) -> Result<StoredData, NoMemory> {
        Ok(StoredData {
            key: self.key.copy(alloc)?,
            storage_time: self.storage_time,
            lifetime: self.lifetime,
            present: self.present,
            value: self.value.copy(alloc)?,
            signature: self.signature.copy(alloc)?,
        })
    }
}

impl SlotKey {
    ghost use Rattle.std.specs.Prelude.{◌≡◌, IfOk};
    ghost use Rattle.data_models.specs.Stored.{model_of, key_of};

    /// The data model that has such keys.
    pub fn model(&self) -> DataModel
        ensures { result ≡ model_of self.now }
    {
        match self {
            SlotKey::Whole => DataModel::Single,
            SlotKey::Index(_) | SlotKey::End => DataModel::Array,
            SlotKey::Name(_) => DataModel::Dictionary,
        }
    }

    /// The key as bytes, by whose order the slots of a kind are put: none for a single kind, an
    /// array's index in 4 bytes, a dictionary's name. What is to be appended has no slot yet, and
    /// no bytes.
    #[tactic(auto, unfolding(crate::specs::Stored::key_of))]
    pub fn bytes(&self, alloc: Global) -> Result<Bytes, NoMemory>
        ensures { IfOk result (λ bytes. bytes ≡ key_of self.now) }
    {
        match self {
            SlotKey::Whole | SlotKey::End => Ok(Bytes::new(alloc)),
            SlotKey::Index(index) => Bytes::from_slice(alloc, &index.to_be_bytes()),
            SlotKey::Name(name) => name.copy(alloc),
        }
    }
}

impl StoredData {
    ghost use Rattle.std.specs.Prelude.{◌≡◌};
    ghost use Rattle.data_models.specs.Stored.{gap};

    /// What a Fetch gives for a slot where no value is (RFC 6940, section 7.4.2.2). It takes no
    /// memory.
    #[tactic(auto, unfolding(crate::specs::Stored::gap))]
    pub fn gap(alloc: Global, key: SlotKey) -> StoredData
        ensures { result ≡ gap key }
    {
        StoredData {
            key,
            storage_time: 0,
            lifetime: 0,
            present: false,
            value: Bytes::new(alloc),
            signature: Signature {
                hash: 0,
                algorithm: 0,
                identity: SignerIdentity::None,
                value: Bytes::new(alloc),
            },
        }
    }
}
