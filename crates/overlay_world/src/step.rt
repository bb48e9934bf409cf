//! What an event makes of a world.

ghost use Rattle.node_messages.specs.Signed.{words_of};
ghost use Rattle.overlay_world.specs.Standings.{world_in};
ghost use Rattle.overlay_world.specs.Steps.{IsInTime};
ghost use Rattle.overlay_world.specs.Parts.{scene_of, IsSound, Steps};

use crate::fault::StepFault;
use crate::world::World;
use reload_base::{Air, Bytes};
use run_model::Move;
use security_block::Signer;
use std::alloc::Global;

impl World {
    /// An event, at its line in a scenario: the world, its air, and the lines of what happens, each
    /// appended as it happens. Behind a fault, which is `NoMemory` wherever memory is missing, the
    /// world and the lines are only dropped.
    pub fn step<A: Air, G: Signer>(
        &mut self,
        alloc: Global,
        line: u64,
        what: Move,
        air: &mut A,
        signer: &G,
        out: &mut Bytes,
    ) -> Result<(), StepFault>
        requires clock { IsInTime what (world_in self.old (A.view air.old)) }
        requires sound { IsSound (scene_of self.old (A.view air.old) out.old) }
        ensures { let words = words_of G.certificate_of G.signature_of G.about_of G.verifies
            signer.now
            in Steps words line what
            (scene_of self.old (A.view air.old) out.old)
            (scene_of self.new (A.view air.new) out.new) result }
    {
        match what {
            Move::Clock(ms) => self.clock(alloc, ms, air, signer, out),
            Move::Deliver(k) => self.deliver(alloc, line, k, air, signer, out),
            Move::Lose(k) => self.lose(line, k, out),
            Move::Drain(n) => self.drain(alloc, n, air, signer, out),
            Move::Ask {
                client,
                peer,
                command,
            } => self.ask(alloc, line, client, peer, command, air, signer, out),
        }
    }
}
