//! Frames that are lost.

ghost use Rattle.reload_base.specs.Outside.{AirView};
ghost use Rattle.run_model.specs.Moves as moves;
ghost use Rattle.overlay_world.specs.Sendings.{IsNone};
ghost use Rattle.overlay_world.specs.Parts.{scene_of, world_of, IsSound, Goes};

use crate::fault::StepFault;
use crate::refusing::refused;
use crate::world::World;
use reload_base::Bytes;
use run_model::Happening;

impl World {
    /// Frame K is lost, unless it was delivered.
    pub(crate) fn lose(&mut self, line: u64, k: u64, out: &mut Bytes) -> Result<(), StepFault>
        ensures { (air : AirView)
            → let before = scene_of self.old air out.old
            in IsSound before → Goes (moves.lost line k (world_of before)) IsNone before
            (scene_of self.new air out.new) result }
    {
        if !self.was_sent(k) {
            return refused(out, &self.names, Happening::NoSuchFrame { line });
        }
        self.fates.lost((k - 1) as usize);
        Ok(())
    }
}
