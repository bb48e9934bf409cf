//! The generation counters of an answer (RFC 6940, section 7.4.1.2).

ghost use Rattle.std.specs.Prelude.{◌≡◌, IfOk};
ghost use Rattle.storage_model.specs.Verdict as verdict;

use crate::kinds::Kinds;
use reload_base::{List, NoMemory};
use std::alloc::Global;
use storage_model::{AskedKind, Refusal};

/// The named kinds with their generation counters, in the order of the request.
#[tactic(auto, unfolding(storage_model::specs::Verdict::counters_in))]
pub fn counters_in(
    alloc: Global,
    kinds: &Kinds,
    asked: &[AskedKind],
) -> Result<List<(u32, u64)>, NoMemory>
    ensures { IfOk result (λ counters. counters ≡ verdict.counters_in kinds.now asked.now) }
{
    let mut counters = List::new(alloc);
    for kind in asked {
        counters.push((kind.kind, kinds.generation_of(kind.kind)))?;
    }
    Ok(counters)
}

/// The counters that a refusal tells: the stored ones where others were asked for.
pub fn counters_told(
    alloc: Global,
    cause: Refusal,
    kinds: &Kinds,
    asked: &[AskedKind],
) -> Result<List<(u32, u64)>, NoMemory>
    ensures { IfOk result (λ counters. counters ≡ verdict.told cause kinds.now asked.now) }
{
    match cause {
        Refusal::GenerationCounterTooLow => counters_in(alloc, kinds, asked),
        _ => Ok(List::new(alloc)),
    }
}
