//! The calls of a fake.

ghost use Rattle.std.specs.Prelude.{◌≡◌, false, IfOk, if◌then◌else◌};
ghost use Rattle.reload_base.specs.Outside.{raised};

use crate::list::List;
use crate::no_memory::NoMemory;
use std::alloc::Global;

/// How many calls were made, the numbers of the calls that fail, counted from 1, and how many
/// failed. Both counters end at 2^64 - 1, and no call fails once the counter of calls stands there.
#[derive(Debug, Drop)]
pub struct Calls {
    pub made: u64,
    pub failing: List<u64>,
    pub faults: u64,
}

impl Calls {
    ghost use Rattle.reload_base.specs.Fakes.{counted, next_fails, IsFaultless};

    /// No call yet.
    pub fn new(alloc: Global, failing: &[u64]) -> Result<Calls, NoMemory>
        ensures { IfOk result (λ calls.
            calls ≡ record { made = 0; failing = failing.now; faults = 0 }) }
    {
        Ok(Calls {
            made: 0,
            failing: List::from_vec(Vec::from_slice(alloc, failing)?),
            faults: 0,
        })
    }

    /// Counts a call, and says whether it fails.
    #[tactic(auto, unfolding(crate::specs::Fakes::counted, crate::specs::Fakes::next_fails))]
    pub fn count(&mut self) -> bool
        ensures answer { result ≡ next_fails self.old }
        ensures after { self.new ≡ counted self.old }
        ensures faults { self.new.faults
            ≡ (if result then raised self.old.faults else self.old.faults) }
        ensures faultless { IsFaultless self.old
            → (result ≡ false) × IsFaultless self.new × (self.new.faults ≡ self.old.faults) }
    {
        if self.made == u64::MAX {
            return false;
        }
        self.made += 1;
        let fails = self.failing.as_slice().contains(&self.made);
        if fails {
            self.faults = self.faults.saturating_add(1);
        }
        fails
    }
}
