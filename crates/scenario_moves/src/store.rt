//! A Store, as a client is told to ask for it (RFC 6940, section 7.4.1).

ghost use Rattle.std.specs.Prelude.{◌≡◌, map, IfOk};
ghost use Rattle.scenario_text.specs.declared.scenario.EventKind.TheVariants.{Store};
ghost use Rattle.scenario_moves.specs.Moves.{kind_of, store_command, move_of};

use crate::resource::id_of_resource;
use crate::stored::values_of;
use data_models::{KindValues, StoreKind};
use node_model::{Command, StoreCommand};
use reload_base::{List, NoMemory};
use reload_ids::NodeId;
use request_words::GroupWords;
use run_model::Move;
use scenario_text::StoreEvent;
use std::alloc::Global;

// The values of a kind.
#[tactic(auto, unfolding(crate::specs::Moves::kind_of))]
fn kind_of(alloc: Global, group: &GroupWords) -> Result<StoreKind, NoMemory>
    ensures { IfOk result (λ kind. kind ≡ kind_of group.now) }
{
    Ok(StoreKind {
        kind: group.kind,
        generation: group.generation,
        values: KindValues::Known(values_of(alloc, group.values.as_slice())?),
    })
}

fn kinds_of(alloc: Global, groups: &[GroupWords]) -> Result<List<StoreKind>, NoMemory>
    ensures { IfOk result (λ kinds. kinds ≡ map kind_of groups.now) }
{
    let mut kinds = List::new(alloc);
    kinds.reserve(groups.len())?;
    for group in groups {
        kinds.push(kind_of(alloc, group)?)?;
    }
    Ok(kinds)
}

// The command. Nobody looks at the Node-ID in it.
#[tactic(auto, unfolding(crate::specs::Moves::store_command))]
fn store_command(alloc: Global, event: &StoreEvent) -> Result<StoreCommand, NoMemory>
    ensures { IfOk result (λ command. command ≡ store_command event.now) }
{
    Ok(StoreCommand {
        peer: NodeId(0),
        resource: id_of_resource(&event.resource),
        ttl: event.ttl,
        sequence: event.seq,
        kinds: kinds_of(alloc, event.groups.as_slice())?,
    })
}

/// What a Store of a scenario makes a world do.
pub fn move_of_store(alloc: Global, event: &StoreEvent) -> Result<Move, NoMemory>
    ensures { IfOk result (λ m. m ≡ move_of (Store event.now)) }
{
    Ok(Move::Ask {
        client: event.client,
        peer: event.peer,
        command: Command::Store(store_command(alloc, event)?),
    })
}
