//! Nodes that handle something, and put out what they make of it.

ghost use Rattle.std.specs.Prelude.{◌≡◌};
ghost use Rattle.node_messages.specs.Signed.{words_of};
ghost use Rattle.node_model.specs.Nodes.{cause_of};
ghost use Rattle.run_model.specs.Worlds as worlds;
ghost use Rattle.overlay_world.specs.Sendings.{IsHeavy};
ghost use Rattle.overlay_world.specs.Parts.{scene_of, world_of, IsSound, Goes};

use crate::acting::act;
use crate::fault::StepFault;
use crate::sending::put_out;
use crate::world::World;
use node_model::Input;
use reload_base::{Air, Bytes};
use security_block::Signer;
use std::alloc::Global;

impl World {
    /// The node with a number handles an input, where there is one, and what it puts out goes on
    /// its way.
    pub(crate) fn give<A: Air, G: Signer>(
        &mut self,
        alloc: Global,
        number: u32,
        input: Input<'_>,
        air: &mut A,
        signer: &G,
        out: &mut Bytes,
    ) -> Result<(), StepFault>
        requires sound { IsSound (scene_of self.old (A.view air.old) out.old) }
        ensures { let words = words_of G.certificate_of G.signature_of G.about_of G.verifies
            signer.now
            in let before = scene_of self.old (A.view air.old) out.old
            in Goes (worlds.handled words number (cause_of input.entry) (world_of before))
            (IsHeavy number (world_of before)) before
            (scene_of self.new (A.view air.new) out.new) result }
    {
        let outputs = act(alloc, &mut self.actors, number, self.clock, input, signer)?;
        let Some(outputs) = outputs else {
            return Ok(());
        };
        put_out(
            alloc,
            air,
            &self.names,
            &mut self.fates,
            number,
            outputs,
            out,
        )
    }
}
