//! The two sides of a node on the ring.

ghost use Rattle.std.specs.Prelude.{◌≡◌};
ghost use Rattle.chord_tables.specs.Sides.{way};

use reload_ids::{NodeId, distance};

/// A side of a node on the ring.
#[derive(Clone, Copy, Debug, PartialEq, Eq)]
pub(crate) enum Side {
    /// Where its predecessors are.
    Before,
    /// Where its successors are.
    Behind,
}

/// How far a node is from `me` on a side.
pub(crate) fn way(side: Side, me: NodeId, node: NodeId) -> u128
    ensures { result ≡ way side me.0 node.0 }
{
    match side {
        Side::Before => distance(node.0, me.0),
        Side::Behind => distance(me.0, node.0),
    }
}
