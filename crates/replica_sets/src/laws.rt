//! Laws of what is queued, each the contract of a function that does nothing.

ghost use Rattle.std.specs.Prelude.{◌≡◌, List, [], filter, IsTrue};
ghost use Rattle.std.specs.List.{All, flat_map};
ghost use Rattle.reload_ids.specs.declared.ResourceId.{ResourceId};
ghost use Rattle.replica_sets.specs.declared.range.Range.{Range};
ghost use Rattle.replica_sets.specs.Refills.{owns, is_mirror, to_mirror, refilled};

/// Where each mirror was one before, and each resource that is owned was owned before, nothing is
/// queued: so where neither the mirrors nor the range changed.
pub fn no_change_queues_nothing()
    ensures grown { (before after : Range) (held : List ResourceId)
        → All (λ mirror. IsTrue (is_mirror before mirror)) after.mirrors
        → ((r : ResourceId) → IsTrue (owns after r) → IsTrue (owns before r))
        → refilled before after held ≡ [] }
    ensures same { (range : Range) (held : List ResourceId) → refilled range range held ≡ [] }
{}

/// Where there were no mirrors before, each held resource that is owned is queued to each.
pub fn first_mirrors_get_all()
    ensures { (before after : Range) (held : List ResourceId) → before.mirrors ≡ []
        → refilled before after held
        ≡ flat_map (λ mirror. to_mirror mirror (filter (λ r. owns after r) held)) after.mirrors }
{}
