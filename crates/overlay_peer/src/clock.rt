//! What a peer does when the clock moves on.

ghost use Rattle.std.specs.Prelude.{◌≡◌, ◌<◌, ◌^◌, IfOk, OnOk, OnErr};
ghost use Rattle.node_model.specs.declared.limits.TheConstants.{MAX_LOAD};
ghost use Rattle.node_model.specs.Peers as model;

use crate::peer::Peer;
use node_model::Outputs;
use reload_base::{List, NoMemory};
use std::alloc::Global;

impl Peer {
    /// What is due is sent again, as often as it takes.
    #[tactic(auto, unfolding(node_model::specs::Peers::clocked))]
    pub(crate) fn clocked(&mut self, alloc: Global, now: u64) -> Result<Outputs, NoMemory>
        requires clock { now < 2 ^ 62 }
        requires light { model.load self.old < MAX_LOAD }
        ensures outputs { IfOk result (λ out. out ≡ (model.clocked now self.old).outputs) }
        ensures peer { OnOk result (self.new ≡ (model.clocked now self.old).node) }
        ensures err { OnErr result (self.new ≡ self.old) }
    {
        let due = self.table.due(alloc, now)?;
        let frames = self.node.resend(alloc, &self.table, due.as_slice(), None)?;
        self.table.renew(due.as_slice(), now, None);
        Ok(Outputs {
            frames,
            notices: List::new(alloc),
        })
    }
}
