//! The best of the peers that a peer knows.

ghost use Rattle.std.specs.Prelude.{◌≡◌, ◌<◌, ◌^◌};
ghost use Rattle.std.specs.List.{All};
ghost use Rattle.chord_tables.specs.Tables.{ids, number};
ghost use Rattle.peer_routing.specs.Best.{pointed, farther, nearer, farthest_with, nearest_with};
ghost use Rattle.peer_routing.specs.Routes.{known, farthest_up_to, nearest_from};

use chord_tables::Tables;
use reload_ids::{NodeId, between, distance};

/// The best of the peers that were looked at.
#[derive(Clone, Copy, Debug)]
pub(crate) struct Best {
    /// The farthest up to an id, where there is one.
    pub(crate) farthest: Option<NodeId>,
    /// The nearest from an id on, where there is one.
    pub(crate) nearest: Option<NodeId>,
}

/// The farther from `me` of the farthest so far and of a node that is up to `k`.
#[tactic(auto, unfolding(crate::specs::Best::farther))]
fn farther(me: NodeId, k: u128, best: Option<NodeId>, node: NodeId) -> Option<NodeId>
    ensures { number result ≡ farther me.0 k (number best) node.0 }
{
    if !between(me.0, node.0, k) {
        return best;
    }
    match best {
        Some(far) if distance(me.0, node.0) < distance(me.0, far.0) => best,
        _ => Some(node),
    }
}

/// The nearer from `k` on of the nearest so far and of a node.
#[tactic(auto, unfolding(crate::specs::Best::nearer))]
fn nearer(k: u128, best: Option<NodeId>, node: NodeId) -> Option<NodeId>
    ensures { number result ≡ nearer k (number best) node.0 }
{
    match best {
        Some(near) if distance(k, near.0) <= distance(k, node.0) => best,
        _ => Some(node),
    }
}

impl Best {
    /// The best with one more node.
    fn look(self, me: NodeId, k: u128, node: NodeId) -> Best
        ensures farthest { number result.farthest ≡ farther me.0 k (number self.farthest) node.0 }
        ensures nearest { number result.nearest ≡ nearer k (number self.nearest) node.0 }
        ensures fits { node.0 < 2 ^ 128 }
    {
        Best {
            farthest: farther(me, k, self.farthest, node),
            nearest: nearer(k, self.nearest, node),
        }
    }

    /// The best with further nodes, the last first.
    fn look_at(self, me: NodeId, k: u128, nodes: &[NodeId]) -> Best
        ensures farthest { number result.farthest
            ≡ farthest_with me.0 k (ids nodes.now) (number self.farthest) }
        ensures nearest { number result.nearest
            ≡ nearest_with k (ids nodes.now) (number self.nearest) }
        ensures fit { All (λ x. x < 2 ^ 128) (ids nodes.now) }
    {
        let mut best = self;
        let mut left = nodes;
        while let Some((last, before)) = left.split_last() {
            best = best.look(me, k, *last);
            left = before;
        }
        best
    }

    /// The best with the nodes of fingers, the last first.
    fn look_at_fingers(self, me: NodeId, k: u128, fingers: &[Option<NodeId>]) -> Best
        ensures farthest { number result.farthest
            ≡ farthest_with me.0 k (pointed fingers.now) (number self.farthest) }
        ensures nearest { number result.nearest
            ≡ nearest_with k (pointed fingers.now) (number self.nearest) }
        ensures fit { All (λ x. x < 2 ^ 128) (pointed fingers.now) }
    {
        let mut best = self;
        let mut left = fingers;
        while let Some((last, before)) = left.split_last() {
            if let Some(node) = last {
                best = best.look(me, k, *node);
            }
            left = before;
        }
        best
    }
}

/// The best of the neighbours and of the fingers, each looked at once.
pub(crate) fn best_known(t: &Tables, k: u128) -> Best
    ensures farthest { number result.farthest ≡ farthest_up_to t.now.me k (known t.now) }
    ensures nearest { number result.nearest ≡ nearest_from k (known t.now) }
{
    let me = t.me();
    let none = Best {
        farthest: None,
        nearest: None,
    };
    none.look_at_fingers(me, k, t.fingers())
        .look_at(me, k, t.successors())
        .look_at(me, k, t.predecessors())
}
