ghost use Rattle.std.specs.Prelude.{◌≡◌, IfOk};

use crate::list::List;
use crate::no_memory::NoMemory;
use std::alloc::Global;

/// A value of which there can be another, where memory is found for it.
pub trait TryCopy: Sized + Drop {
    /// An equal value.
    fn copy(&self, alloc: Global) -> Result<Self, NoMemory>
        ensures { IfOk result (λ copy. copy ≡ self.now) };

    /// A list of equal values, in memory that is as large as they need.
    fn copies(items: &[Self], alloc: Global) -> Result<List<Self>, NoMemory>
        ensures { IfOk result (λ copies. copies ≡ items.now) }
    {
        let mut copies = List::new(alloc);
        copies.reserve(items.len())?;
        for item in items {
            copies.push(item.copy(alloc)?)?;
        }
        Ok(copies)
    }
}

impl TryCopy for u8 {
    fn copy(&self, _alloc: Global) -> Result<u8, NoMemory> {
        Ok(*self)
    }

    /// Bytes are copied at once.
    fn copies(items: &[u8], alloc: Global) -> Result<List<u8>, NoMemory> {
        List::from_slice(alloc, items)
    }
}

impl TryCopy for u32 {
    fn copy(&self, _alloc: Global) -> Result<u32, NoMemory> {
        Ok(*self)
    }
}

impl TryCopy for (u32, u64) {
    fn copy(&self, _alloc: Global) -> Result<(u32, u64), NoMemory> {
        Ok(*self)
    }
}
