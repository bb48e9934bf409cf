//! A sink into memory.

ghost use Rattle.std.specs.Prelude.{◌≡◌, ℕ, ◌<◌, ◌↔◌, [], Some, length, IsTrue, IfOk};
ghost use Rattle.reload_base.specs.Outside.{Writes};
ghost use Rattle.reload_base.specs.Fakes.{counted, next_fails, IsFaultless};

use crate::calls::Calls;
use crate::list::{Bytes, List};
use crate::no_memory::NoMemory;
use crate::sink::{Sink, Wrote};
use std::alloc::Global;
use std::marker::Model;

/// Bytes in memory that grow at the end, a fake of the outside. Contracts see the bytes that were
/// written, and beside them the calls.
#[derive(Debug, Drop)]
pub struct MemorySink {
    written: Bytes,
    calls: Calls,
}

impl Model for MemorySink {
    ghost use Rattle.std.specs.Prelude.{List, ℕ};
    ghost use Rattle.std.specs.Coded.{coded_list, coded×, coded_ℕ};
    ghost use Rattle.reload_base.specs.declared.calls.Calls.{Calls};
    ghost use Rattle.reload_base.specs.contracts.calls.Calls as of_calls;

    ghost Value = { List ℕ × Calls };

    ghost coded = { coded× (coded_list coded_ℕ) of_calls.the_row.coded };

    ghost view = { λ s. (s.written, s.calls) };
}

impl MemorySink {
    /// A sink with nothing written. The calls whose numbers are in `fail`, counted from 1, fail.
    pub fn new(alloc: Global, fail: &[u64]) -> Result<MemorySink, NoMemory>
        ensures view { IfOk result (λ s. ⟦<MemorySink as Sink>⟧.view s
            ≡ record { written = Some []; faults = 0 }) }
        ensures faultless { fail.now ≡ [] → IfOk result (λ s. IsFaultless s.1) }
        ensures calls { IfOk result (λ s.
            s.1 ≡ record { made = 0; failing = fail.now; faults = 0 }) }
    {
        Ok(MemorySink {
            written: List::new(alloc),
            calls: Calls::new(alloc, fail)?,
        })
    }

    /// What was written.
    pub fn as_slice(&self) -> &[u8]
        ensures { (⟦<MemorySink as Sink>⟧.view self.now).written ≡ Some result.now }
    {
        self.written.as_slice()
    }
}

impl Sink for MemorySink {
    ghost view = { λ s. record { written = Some s.0; faults = s.1.faults } };

    /// Appends the whole piece, unless the call is one that fails or memory is missing.
    fn write(&mut self, piece: &[u8]) -> Wrote
        requires { 0 < length piece.now }
        ensures written { Writes (⟦<MemorySink as Sink>⟧.view self.old)
            (⟦<MemorySink as Sink>⟧.view self.new) result piece.now }
        ensures whole { (n : ℕ) → result ≡ Wrote.Some n → n ≡ length piece.now }
        ensures fails { (result ≡ Wrote.Failed) ↔ IsTrue (next_fails self.old.1) }
        ensures calls { self.new.1 ≡ counted self.old.1 }
        ensures faultless { IsFaultless self.old.1
            → IsFaultless self.new.1 × (self.new.1.faults ≡ self.old.1.faults) }
    {
        if self.calls.count() {
            return Wrote::Failed;
        }
        match self.written.extend(piece) {
            Ok(()) => Wrote::Some(piece.len()),
            Err(_) => Wrote::NoMemory,
        }
    }
}
