//! The clock that goes on.

ghost use Rattle.std.specs.Prelude.{◌≡◌, ◌+◌, ◌<◌, ◌^◌};
ghost use Rattle.node_messages.specs.Signed.{words_of};
ghost use Rattle.run_model.specs.declared.moves.Move.TheVariants as events;
ghost use Rattle.run_model.specs.Worlds as worlds;
ghost use Rattle.run_model.specs.Moves as moves;
ghost use Rattle.run_model.specs.Stops.{IsNodeFull};
ghost use Rattle.overlay_world.specs.Sendings.{IsTellingFull};
ghost use Rattle.overlay_world.specs.Parts.{scene_of, world_of, IsSound, Goes};

use crate::fault::StepFault;
use crate::world::World;
use node_model::Input;
use reload_base::{Air, Bytes};
use security_block::Signer;
use std::alloc::Global;

impl World {
    /// The clock goes on by so many milliseconds.
    fn go_on(&mut self, ms: u64)
        requires { self.old.clock + ms < 2 ^ 62 }
        ensures { self.new ≡ record self.old { clock = self.old.clock + ms } }
    {
        self.clock += ms;
    }

    /// The nodes with these numbers are told of the time, one after the other.
    fn tell_time<A: Air, G: Signer>(
        &mut self,
        alloc: Global,
        numbers: &[u32],
        air: &mut A,
        signer: &G,
        out: &mut Bytes,
    ) -> Result<(), StepFault>
        requires sound { IsSound (scene_of self.old (A.view air.old) out.old) }
        ensures { let words = words_of G.certificate_of G.signature_of G.about_of G.verifies
            signer.now
            in let before = scene_of self.old (A.view air.old) out.old
            in Goes (worlds.told_time words numbers.now (world_of before))
            (IsTellingFull words numbers.now (world_of before)) before
            (scene_of self.new (A.view air.new) out.new) result }
    {
        'nodes: for number in numbers {
            self.give(alloc, *number, Input::Clock, air, signer, out)?;
        }
        Ok(())
    }

    /// The clock goes on by so many milliseconds, and each node is told of it, by rising number.
    pub(crate) fn clock<A: Air, G: Signer>(
        &mut self,
        alloc: Global,
        ms: u64,
        air: &mut A,
        signer: &G,
        out: &mut Bytes,
    ) -> Result<(), StepFault>
        requires time { self.old.clock + ms < 2 ^ 62 }
        requires sound { IsSound (scene_of self.old (A.view air.old) out.old) }
        ensures { let words = words_of G.certificate_of G.signature_of G.about_of G.verifies
            signer.now
            in let before = scene_of self.old (A.view air.old) out.old
            in Goes (moves.clocked words ms (world_of before))
            (IsNodeFull words (events.Clock ms) (world_of before)) before
            (scene_of self.new (A.view air.new) out.new) result }
    {
        let numbers = self.actors.numbers(alloc)?;
        self.go_on(ms);
        self.tell_time(alloc, numbers.as_slice(), air, signer, out)
    }
}
