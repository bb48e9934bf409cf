//! Clients that are told to ask something.

ghost use Rattle.std.specs.Prelude.{◌≡◌};
ghost use Rattle.reload_base.specs.Outside.{AirView};
ghost use Rattle.node_messages.specs.Signed.{words_of};
ghost use Rattle.run_model.specs.declared.moves.Move.TheVariants as events;
ghost use Rattle.run_model.specs.Moves as moves;
ghost use Rattle.run_model.specs.Stops.{IsNodeFull};
ghost use Rattle.overlay_world.specs.Standings.{world_in};
ghost use Rattle.overlay_world.specs.Steps.{asked_by};
ghost use Rattle.overlay_world.specs.Parts.{scene_of, world_of, IsSound, Goes};

use crate::acting::{is_asked, is_busy};
use crate::fault::StepFault;
use crate::refusing::refused;
use crate::world::World;
use node_model::{Command, Input};
use reload_base::{Air, Bytes};
use reload_ids::NodeId;
use run_model::Happening;
use security_block::Signer;
use std::alloc::Global;

/// A command to the peer with a Node-ID.
fn aimed(command: Command, peer: NodeId) -> Command
    ensures { result ≡ moves.aimed command peer }
{
    match command {
        Command::Store(mut command) => {
            command.peer = peer;
            Command::Store(command)
        }
        Command::Fetch(mut command) => {
            command.peer = peer;
            Command::Fetch(command)
        }
    }
}

impl World {
    /// The Node-ID of the peer that a client asks, or why the event at a line is refused.
    #[tactic(auto, unfolding(crate::specs::Steps::asked_by))]
    fn asked_by(&self, line: u64, client: u32, peer: u32) -> Result<NodeId, Happening>
        ensures { (air : AirView)
            → result ≡ asked_by line client peer (world_in self.now air) }
    {
        if !is_asked(&self.actors, peer) {
            return Err(Happening::UnknownNode { line });
        }
        let Some(id) = self.names.node_of(peer) else {
            return Err(Happening::UnknownNode { line });
        };
        match is_busy(&self.actors, client) {
            None => Err(Happening::UnknownNode { line }),
            Some(true) => Err(Happening::Busy { line }),
            Some(false) => Ok(id),
        }
    }

    /// A client is told to ask something of a peer: both must be there, and the client not busy.
    pub(crate) fn ask<A: Air, G: Signer>(
        &mut self,
        alloc: Global,
        line: u64,
        client: u32,
        peer: u32,
        command: Command,
        air: &mut A,
        signer: &G,
        out: &mut Bytes,
    ) -> Result<(), StepFault>
        requires sound { IsSound (scene_of self.old (A.view air.old) out.old) }
        ensures { let words = words_of G.certificate_of G.signature_of G.about_of G.verifies
            signer.now
            in let before = scene_of self.old (A.view air.old) out.old
            in Goes (moves.told words line client peer (moves.aimed command) (world_of before))
            (IsNodeFull words (events.Ask client peer command) (world_of before)) before
            (scene_of self.new (A.view air.new) out.new) result }
    {
        match self.asked_by(line, client, peer) {
            Ok(id) => {
                let input = Input::Command(aimed(command, id));
                self.give(alloc, client, input, air, signer, out)
            },
            Err(why) => refused(out, &self.names, why),
        }
    }
}
