//! A source over bytes in memory.

ghost use Rattle.std.specs.Prelude.{◌≡◌, ◌<◌, [], Some, min, length, IfOk, if◌then◌else◌};
ghost use Rattle.reload_base.specs.Outside.{Reads};
ghost use Rattle.reload_base.specs.Fakes.{counted, next_fails, IsFaultless};

use crate::calls::Calls;
use crate::list::{Bytes, List};
use crate::no_memory::NoMemory;
use crate::source::{Source, Took};
use std::alloc::Global;
use std::marker::Model;

/// Bytes in memory that are read from the front to the end, a fake of the outside. Contracts see
/// the bytes that are left, and beside them the calls.
#[derive(Debug, Drop)]
pub struct MemorySource {
    content: Bytes,
    taken: usize,
    calls: Calls,
}

impl Model for MemorySource {
    ghost use Rattle.std.specs.Prelude.{List, ℕ, ◌≤◌, length, drop};
    ghost use Rattle.std.specs.Coded.{coded_list, coded×, coded_ℕ};
    ghost use Rattle.reload_base.specs.declared.calls.Calls.{Calls};
    ghost use Rattle.reload_base.specs.contracts.calls.Calls as of_calls;

    ghost Value = { List ℕ × Calls };

    ghost coded = { coded× (coded_list coded_ℕ) of_calls.the_row.coded };

    ghost view = { λ s. (drop s.taken s.content, s.calls) };

    ghost invariant = { λ s. s.taken ≤ length s.content };
}

impl MemorySource {
    /// A source that has this content left. The calls whose numbers are in `fail`, counted from 1,
    /// fail.
    pub fn new(alloc: Global, content: &[u8], fail: &[u64]) -> Result<MemorySource, NoMemory>
        ensures view { IfOk result (λ s. ⟦<MemorySource as Source>⟧.view s
            ≡ record { left = Some content.now; faults = 0 }) }
        ensures faultless { fail.now ≡ [] → IfOk result (λ s. IsFaultless s.1) }
        ensures calls { IfOk result (λ s.
            s.1 ≡ record { made = 0; failing = fail.now; faults = 0 }) }
    {
        Ok(MemorySource {
            content: List::from_slice(alloc, content)?,
            taken: 0,
            calls: Calls::new(alloc, fail)?,
        })
    }
}

impl Source for MemorySource {
    ghost view = { λ s. record { left = Some s.0; faults = s.1.faults } };

    /// Moves as many bytes as are left and have a place, unless the call is one that fails.
    fn read(&mut self, buf: &mut [u8]) -> Took
        requires { 0 < length buf.old }
        ensures taken { Reads (⟦<MemorySource as Source>⟧.view self.old)
            (⟦<MemorySource as Source>⟧.view self.new) result buf.new }
        ensures answer { result ≡ (if next_fails self.old.1 then Took.Failed
            else Took.Some (min (length self.old.0) (length buf.old))) }
        ensures calls { self.new.1 ≡ counted self.old.1 }
        ensures faultless { IsFaultless self.old.1
            → IsFaultless self.new.1 × (self.new.1.faults ≡ self.old.1.faults) }
    {
        if self.calls.count() {
            return Took::Failed;
        }
        let (_, left) = self.content.as_slice().split_at(self.taken);
        let n = left.len().min(buf.len());
        let (front, _) = left.split_at(n);
        let (place, _) = buf.split_at_mut(n);
        place.copy_from_slice(front);
        self.taken += n;
        Took::Some(n)
    }
}
