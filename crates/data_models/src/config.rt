//! What all nodes of an overlay agree on (RFC 6940, section 11.1).

use access_policy::Policy;
use reload_base::{Bytes, List, NoMemory, TryCopy};
use std::alloc::Global;

/// The most kinds of a configuration (this profile).
pub const MAX_KINDS: usize = 16;

/// The most slots of a kind at one resource (this profile).
pub const MAX_COUNT: u32 = 1024;

/// The most bytes of one value (this profile).
pub const MAX_SIZE: u32 = 140_000;

/// The most resources that NODE-MULTIPLE permits one node (this profile).
pub const MAX_MULTIPLE: u32 = 20;

/// The greatest number of a configuration (RFC 6940, section 11.1).
pub const MAX_SEQUENCE: u16 = 65_534;

/// The most replicas of a record (this profile).
pub const MAX_REPLICAS: u8 = 3;

/// The most bytes of an overlay's name (this profile).
pub const MAX_NAME: usize = 64;

/// How the values of a kind stand at a resource (RFC 6940, section 7.2).
#[derive(Clone, Copy, Debug, PartialEq, Eq)]
pub enum DataModel {
    /// One value.
    Single,
    /// Values by index.
    Array,
    /// Values by key.
    Dictionary,
}

/// A kind: what may be stored under a Kind-ID (RFC 6940, section 7.4.5).
#[derive(Clone, Copy, Debug, PartialEq, Eq)]
pub struct KindDef {
    /// The Kind-ID.
    pub id: u32,
    pub model: DataModel,
    /// USER-NODE-MATCH needs a dictionary.
    pub policy: Policy,
    /// The most slots of the kind at one resource, from 1 to [`MAX_COUNT`].
    pub max_count: u32,
    /// The most bytes of one value, from 0 to [`MAX_SIZE`].
    pub max_size: u32,
    /// How many resources NODE-MULTIPLE permits each node, from 1 to [`MAX_MULTIPLE`]. It is 0
    /// under the other policies.
    pub multiple: u32,
}

/// What all nodes of an overlay agree on (RFC 6940, section 11.1).
#[derive(Debug, Drop)]
pub struct Config {
    /// The overlay's name, 1 to [`MAX_NAME`] visible bytes of ASCII.
    pub name: Bytes,
    /// The number of this configuration, from 1 to [`MAX_SEQUENCE`].
    pub sequence: u16,
    /// How many successors hold a copy of each record, from 0 to [`MAX_REPLICAS`].
    pub replicas: u8,
    /// At most [`MAX_KINDS`] kinds of distinct Kind-IDs.
    pub kinds: List<KindDef>,
}

impl TryCopy for KindDef {
    fn copy(&self, _alloc: Global) -> Result<KindDef, NoMemory> {
        Ok(*self)
    }
}

impl TryCopy for Config {
    fn copy(&self, alloc: Global) -> Result<Config, NoMemory> {
        Ok(Config {
            name: self.name.copy(alloc)?,
            sequence: self.sequence,
            replicas: self.replicas,
            kinds: self.kinds.copy(alloc)?,
        })
    }
}

impl Config {
    ghost use Rattle.std.specs.Prelude.{◌≡◌};
    ghost use Rattle.data_models.specs.Configs.{kind_of, model_in};

    /// The definition of a Kind-ID, where there is one.
    #[tactic(auto, unfolding(crate::specs::Configs::kind_of))]
    pub fn kind(&self, id: u32) -> Option<KindDef>
        ensures { result ≡ kind_of self.now id }
    {
        self.kinds
            .as_slice()
            .iter()
            .copied()
            .find(|kind| kind.id == id)
    }

    /// The data model of a Kind-ID, where the configuration has its definition.
    #[tactic(auto, unfolding(crate::specs::Configs::model_in))]
    pub fn model(&self, id: u32) -> Option<DataModel>
        ensures { result ≡ model_in self.now id }
    {
        self.kind(id).map(|kind| kind.model)
    }
}
