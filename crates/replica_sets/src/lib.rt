//! The mirrors of a peer's range, and what is queued to them when tables or the range change
//! (RFC 6940, sections 10.4 and 10.7.3).
#![tactic(auto)]

ghost use Rattle.std.specs.Prelude.{◌≡◌, List, map, IfOk};
ghost use Rattle.std.specs.List.Sorted.{IsStrictlyIncreasing};
ghost use Rattle.reload_ids.specs.declared.ResourceId.{ResourceId};
ghost use Rattle.replica_sets.specs.Refills.{refilled};

mod laws;
mod queue;
mod range;
mod stretches;

pub use laws::{first_mirrors_get_all, no_change_queues_nothing};
use queue::refill_mirror;
pub use range::Range;
use reload_base::{List, NoMemory};
use reload_ids::{NodeId, ResourceId};
use std::alloc::Global;
use stretches::owned;

/// What a peer queues to its mirrors after a change of tables or range: for each mirror in order,
/// by rising resource, those of the held ones that are owned now, where the node wasn't a mirror
/// before or the resource wasn't owned before. The `Err` is that there is no memory for that list.
#[tactic(auto, unfolding(crate::specs::Refills::refilled))]
pub fn refill(
    alloc: Global,
    before: &Range,
    after: &Range,
    held: &[ResourceId],
) -> Result<List<(NodeId, ResourceId)>, NoMemory>
    requires { IsStrictlyIncreasing (map (λ r. r.0) held.now) }
    ensures { IfOk result (λ queued. queued ≡ refilled before.now after.now held.now) }
{
    let (low, high) = owned(held, after);
    let mut queued = List::new(alloc);
    for mirror in after.mirrors.as_slice() {
        refill_mirror(&mut queued, before, *mirror, low)?;
        refill_mirror(&mut queued, before, *mirror, high)?;
    }
    Ok(queued)
}
