//! Frames that are delivered one after the other.

ghost use Rattle.std.specs.Prelude.{◌≡◌, position};
ghost use Rattle.node_messages.specs.Signed.{words_of};
ghost use Rattle.run_model.specs.declared.moves.Move.TheVariants as events;
ghost use Rattle.run_model.specs.Moves as moves;
ghost use Rattle.run_model.specs.Stops.{IsNodeFull};
ghost use Rattle.frames_in_flight.specs.Flying.{waits};
ghost use Rattle.overlay_world.specs.Parts.{scene_of, world_of, IsSound, Goes};

use crate::fault::StepFault;
use crate::world::World;
use reload_base::{Air, Bytes};
use security_block::Signer;
use std::alloc::Global;

impl World {
    /// The place of the lowest frame that waits, found without a search from the first.
    fn lowest(&mut self) -> Option<usize>
        ensures place { result ≡ position waits self.old.fates }
        ensures same { self.new ≡ self.old }
    {
        self.fates.lowest()
    }

    /// The lowest frame that waits is delivered: so many times, or until there is none.
    pub(crate) fn drain<A: Air, G: Signer>(
        &mut self,
        alloc: Global,
        n: u64,
        air: &mut A,
        signer: &G,
        out: &mut Bytes,
    ) -> Result<(), StepFault>
        requires sound { IsSound (scene_of self.old (A.view air.old) out.old) }
        ensures { let words = words_of G.certificate_of G.signature_of G.about_of G.verifies
            signer.now
            in let before = scene_of self.old (A.view air.old) out.old
            in Goes (moves.drained words n (world_of before))
            (IsNodeFull words (events.Drain n) (world_of before)) before
            (scene_of self.new (A.view air.new) out.new) result }
    {
        'deliveries: for _ in 0..n {
            let Some(at) = self.lowest() else {
                return Ok(());
            };
            self.fly(alloc, at, air, signer, out)?;
        }
        Ok(())
    }
}
