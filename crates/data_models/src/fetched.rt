//! What is stored and fetched: the values of a kind, and which of them are asked for (RFC 6940,
//! sections 7.4.1 and 7.4.2).

use crate::stored_data::StoredData;
use reload_base::{Bytes, List, NoMemory, TryCopy};
use std::alloc::Global;

/// Which values of a kind are asked for.
#[derive(Debug, Drop)]
pub enum Selector {
    /// The one value of a single kind.
    Whole,
    /// Those of an array with an index from a first to a last one, for each such range.
    Ranges(List<(u32, u32)>),
    /// Those of a dictionary with these keys, or all of them where the list is empty.
    Names(List<Bytes>),
    /// What a kind without a definition is asked for.
    Raw(Bytes),
}

/// A kind of a Fetch (RFC 6940, section 7.4.2.1).
#[derive(Debug, Drop)]
pub struct Specifier {
    /// The Kind-ID.
    pub kind: u32,
    /// The generation counter that the asker knows, or 0. No values are answered where it is the
    /// stored one.
    pub generation: u64,
    pub selector: Selector,
}

/// Values of a kind.
#[derive(Debug, Drop)]
pub enum KindValues {
    /// Those of a kind that the configuration defines.
    Known(List<StoredData>),
    /// The bytes of those of another kind.
    Raw(Bytes),
}

/// A kind of a Store or of the answer to a Fetch, with its generation counter (RFC 6940,
/// section 7.4.1.1).
#[derive(Debug, Drop)]
pub struct StoreKind {
    /// The Kind-ID.
    pub kind: u32,
    pub generation: u64,
    pub values: KindValues,
}

impl TryCopy for Selector {
    fn copy(&self, alloc: Global) -> Result<Selector, NoMemory> {
        match self {
            Selector::Whole => Ok(Selector::Whole),
            Selector::Ranges(ranges) => Ok(Selector::Ranges(copy_of_ranges(alloc, ranges)?)),
            Selector::Names(names) => Ok(Selector::Names(names.copy(alloc)?)),
            Selector::Raw(bytes) => Ok(Selector::Raw(bytes.copy(alloc)?)),
        }
    }
}

impl TryCopy for Specifier {
    fn copy(&self, alloc: Global) -> Result<Specifier, NoMemory> {
        Ok(Specifier {
            kind: self.kind,
            generation: self.generation,
            selector: self.selector.copy(alloc)?,
        })
    }
}

impl TryCopy for KindValues {
    fn copy(&self, alloc: Global) -> Result<KindValues, NoMemory> {
        match self {
            KindValues::Known(values) => Ok(KindValues::Known(values.copy(alloc)?)),
            KindValues::Raw(bytes) => Ok(KindValues::Raw(bytes.copy(alloc)?)),
        }
    }
}

impl TryCopy for StoreKind {
    fn copy(&self, alloc: Global) -> Result<StoreKind, NoMemory> {
        Ok(StoreKind {
            kind: self.kind,
            generation: self.generation,
            values: self.values.copy(alloc)?,
        })
    }
}

ghost use Rattle.std.specs.Prelude.{◌≡◌, IfOk};

/// Equal ranges.
fn copy_of_ranges(alloc: Global, ranges: &List<(u32, u32)>) -> Result<List<(u32, u32)>, NoMemory>
    ensures { IfOk result (λ copy. copy ≡ ranges.now) }
{
    Ok(List::from_vec(ranges.as_slice().to_vec(alloc)?))
}
