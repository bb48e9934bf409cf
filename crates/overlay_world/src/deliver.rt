//! Frames that come to their nodes.

ghost use Rattle.std.specs.Prelude.{◌≡◌, ◌==◌, ◌||◌, not, nat_lt, length, Some, slice_get};
ghost use Rattle.node_messages.specs.Signed.{words_of};
ghost use Rattle.run_model.specs.declared.moves.Move.TheVariants as events;
ghost use Rattle.run_model.specs.Moves as moves;
ghost use Rattle.run_model.specs.Stops.{IsNodeFull};
ghost use Rattle.overlay_world.specs.Sendings.{IsFullAt};
ghost use Rattle.overlay_world.specs.Parts.{scene_of, world_of, IsSound, Goes};

use crate::acting::{act, is_hearing};
use crate::fault::StepFault;
use crate::refusing::refused;
use crate::sending::put_out;
use crate::world::World;
use frames_in_flight::frame_at;
use node_model::Input;
use reload_base::{Air, AirFrame, Bytes};
use run_model::Happening;
use security_block::Signer;
use std::alloc::Global;

impl World {
    /// Whether a frame with this number, counted from 1, was sent.
    pub(crate) fn was_sent(&self, k: u64) -> bool
        ensures { result ≡ not ((k == 0) || nat_lt (length self.now.fates) k) }
    {
        !(k == 0 || (self.fates.count() as u64) < k)
    }

    /// The frame of a place, which was read from there, is heard by its node, or lost where no node
    /// hears it.
    fn hear<A: Air, G: Signer>(
        &mut self,
        alloc: Global,
        at: usize,
        frame: &AirFrame,
        air: &mut A,
        signer: &G,
        out: &mut Bytes,
    ) -> Result<(), StepFault>
        requires there { slice_get (A.view air.old).sent at ≡ Some frame.now }
        requires sound { IsSound (scene_of self.old (A.view air.old) out.old) }
        ensures { let words = words_of G.certificate_of G.signature_of G.about_of G.verifies
            signer.now
            in let before = scene_of self.old (A.view air.old) out.old
            in Goes (moves.flown_at words at (world_of before))
            (IsFullAt at (world_of before)) before
            (scene_of self.new (A.view air.new) out.new) result }
    {
        if !is_hearing(&self.actors, frame.to) {
            self.fates.lost(at);
            return Ok(());
        }
        let Some(from) = self.names.node_of(frame.from) else {
            return Ok(());
        };
        let input = Input::Frame {
            from,
            bytes: frame.bytes.as_slice(),
        };
        let outputs = act(alloc, &mut self.actors, frame.to, self.clock, input, signer)?;
        self.fates.delivered(at);
        let Some(outputs) = outputs else {
            return Ok(());
        };
        put_out(
            alloc,
            air,
            &self.names,
            &mut self.fates,
            frame.to,
            outputs,
            out,
        )
    }

    /// The frame at a place is heard by its node, or lost where no node hears it.
    pub(crate) fn fly<A: Air, G: Signer>(
        &mut self,
        alloc: Global,
        at: usize,
        air: &mut A,
        signer: &G,
        out: &mut Bytes,
    ) -> Result<(), StepFault>
        requires sound { IsSound (scene_of self.old (A.view air.old) out.old) }
        ensures { let words = words_of G.certificate_of G.signature_of G.about_of G.verifies
            signer.now
            in let before = scene_of self.old (A.view air.old) out.old
            in Goes (moves.flown_at words at (world_of before))
            (IsFullAt at (world_of before)) before
            (scene_of self.new (A.view air.new) out.new) result }
    {
        if self.fates.count() <= at {
            return Ok(());
        }
        let frame = frame_at(alloc, air, at)?;
        self.hear(alloc, at, &frame, air, signer, out)
    }

    /// Frame K is delivered, whatever became of it before.
    pub(crate) fn deliver<A: Air, G: Signer>(
        &mut self,
        alloc: Global,
        line: u64,
        k: u64,
        air: &mut A,
        signer: &G,
        out: &mut Bytes,
    ) -> Result<(), StepFault>
        requires sound { IsSound (scene_of self.old (A.view air.old) out.old) }
        ensures { let words = words_of G.certificate_of G.signature_of G.about_of G.verifies
            signer.now
            in let before = scene_of self.old (A.view air.old) out.old
            in Goes (moves.delivered words line k (world_of before))
            (IsNodeFull words (events.Deliver k) (world_of before)) before
            (scene_of self.new (A.view air.new) out.new) result }
    {
        if !self.was_sent(k) {
            return refused(out, &self.names, Happening::NoSuchFrame { line });
        }
        self.fly(alloc, (k - 1) as usize, air, signer, out)
    }
}
