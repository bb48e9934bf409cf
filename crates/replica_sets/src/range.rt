//! The range that a peer is responsible for, and its mirrors.

ghost use Rattle.std.specs.Prelude.{◌≡◌};
ghost use Rattle.replica_sets.specs.Refills.{is_mirror};

use reload_base::List;
use reload_ids::NodeId;

/// Which resources a peer owns, and who holds their replicas (RFC 6940, sections 10.1 and 10.4).
#[derive(Debug, Drop)]
pub struct Range {
    /// Whether the peer owns any resource.
    pub owning: bool,
    /// The node behind which the range begins, as a rule the first predecessor. Without one the
    /// range is the whole ring.
    pub from: Option<NodeId>,
    /// The peer itself, at which the range ends.
    pub me: NodeId,
    /// The nodes that hold replicas, in order.
    pub mirrors: List<NodeId>,
}

impl Range {
    /// Whether a node is among the mirrors.
    #[tactic(auto, unfolding(crate::specs::Refills::is_mirror))]
    pub(crate) fn is_mirror(&self, node: NodeId) -> bool
        ensures { result ≡ is_mirror self.now node }
    {
        self.mirrors.as_slice().contains(&node)
    }
}
