//! The resources that a scenario names.

ghost use Rattle.std.specs.Prelude.{◌≡◌};
ghost use Rattle.scenario_moves.specs.Moves.{id_of_resource};

use reload_ids::{ResourceId, resource_of};
use request_words::ResourceName;

/// The Resource-ID that a scenario names.
pub fn id_of_resource(resource: &ResourceName) -> ResourceId
    ensures { result.0 ≡ id_of_resource resource.now }
{
    match resource {
        ResourceName::Name(name) => resource_of(name.as_slice()),
        ResourceName::Id(resource) => *resource,
    }
}
