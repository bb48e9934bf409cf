//! What is queued to one mirror.

ghost use Rattle.std.specs.Prelude.{◌≡◌, ◌++◌, filter, OnOk};
ghost use Rattle.replica_sets.specs.Refills.{to_mirror, is_lacking};
ghost use Rattle.replica_sets.specs.Rising.{IsRising};

use crate::range::Range;
use crate::stretches::unowned;
use reload_base::{List, NoMemory};
use reload_ids::{NodeId, ResourceId};

/// Queues each of some resources to a mirror.
#[tactic(auto, unfolding(crate::specs::Refills::to_mirror))]
fn queue(
    queued: &mut List<(NodeId, ResourceId)>,
    mirror: NodeId,
    resources: &[ResourceId],
) -> Result<(), NoMemory>
    ensures { OnOk result (queued.new ≡ queued.old ++ to_mirror mirror resources.now) }
{
    queued.reserve(resources.len())?;
    for resource in resources {
        queued.push((mirror, *resource))?;
    }
    Ok(())
}

/// Queues to a mirror what it lacks of the resources that are owned now. A mirror that was one
/// before costs no more than what is newly owned.
#[tactic(auto, unfolding(crate::specs::Refills::is_lacking))]
pub fn refill_mirror(
    queued: &mut List<(NodeId, ResourceId)>,
    before: &Range,
    mirror: NodeId,
    resources: &[ResourceId],
) -> Result<(), NoMemory>
    requires { IsRising resources.now }
    ensures { OnOk result (queued.new ≡ queued.old
        ++ to_mirror mirror (filter (λ r. is_lacking before.now mirror r) resources.now)) }
{
    if !before.is_mirror(mirror) {
        return queue(queued, mirror, resources);
    }
    let (low, high) = unowned(resources, before);
    queue(queued, mirror, low)?;
    queue(queued, mirror, high)
}
