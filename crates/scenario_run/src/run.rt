//! A run: its declarations, its events one after the other, and its end, each written as one piece.

ghost use Rattle.std.specs.Prelude.{◌≡◌, ◌<◌, ◌^◌, [], length};
ghost use Rattle.node_messages.specs.Signed.{words_of};
ghost use Rattle.scenario_text.specs.Scenarios.{IsScenario};
ghost use Rattle.scenario_run.specs.Outcomes.{Runs};

use crate::fault::RunFault;
use crate::piece::{event_piece, write_echo, write_end};
use overlay_world::World;
use reload_base::{Air, Sink, write_all};
use scenario_text::Scenario;
use security_block::Signer;
use std::alloc::Global;

/// Runs a scenario: writes its declarations, the lines of each event that has any, and its end, and
/// sends its frames. If frames are traced, the lines of an event end with those of the frames that
/// it sent. Each of these pieces is written on until the sink has taken it whole. The air is empty
/// before, and the scenario has fewer than 2^31 events.
pub fn run_scenario<K: Sink, A: Air, G: Signer>(
    alloc: Global,
    scenario: &Scenario,
    traced: bool,
    sink: &mut K,
    air: &mut A,
    signer: &G,
) -> Result<(), RunFault>
    requires scenario { IsScenario scenario.now }
    requires few { length scenario.now.events < 2 ^ 31 }
    requires empty { (A.view air.old).sent ≡ [] }
    // What was written and sent, that the decisions are those of one map, and what stopped the run.
    ensures { let words = words_of G.certificate_of G.signature_of G.about_of G.verifies
        signer.now in Runs words traced scenario.now
        (record { sink = K.view sink.old; air = A.view air.old })
        (record { sink = K.view sink.new; air = A.view air.new }) result }
{
    write_echo(alloc, scenario, sink)?;
    let mut world = World::new(alloc, &scenario.config, &scenario.nodes)?;
    for event in scenario.events.as_slice() {
        let piece = event_piece(alloc, traced, &mut world, event, air, signer)?;
        let _frames = air.frames();
        write_all(sink, piece.as_slice())?;
    }
    write_end(alloc, &world, air, sink)?;
    Ok(())
}
