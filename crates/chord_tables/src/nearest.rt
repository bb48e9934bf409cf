//! The nearest nodes on a side, in memory of fixed size.

ghost use Rattle.std.specs.Prelude.{◌≡◌, ◌<◌, ◌≤◌, [], length, take, insert};
ghost use Rattle.std.specs.List.{position};
ghost use Rattle.chord_tables.specs.Neighbours.{without};
ghost use Rattle.chord_tables.specs.Sides.{is_place, with_id, gathered};
ghost use Rattle.chord_tables.specs.Tables.{ids};

use crate::MAX_NEIGHBOURS;
use crate::side::{Side, way};
use reload_ids::NodeId;
use std::marker::Model;

/// At most `MAX_NEIGHBOURS` nodes in order. Contracts see the list of their ids.
#[derive(Debug, Drop)]
pub(crate) struct Nearest {
    nodes: [NodeId; MAX_NEIGHBOURS],
    /// How many of them there are, from the first on.
    len: usize,
}

impl Model for Nearest {
    ghost use Rattle.std.specs.Prelude.{List, ℕ, ◌≤◌, take};
    ghost use Rattle.chord_tables.specs.declared.TheConstants.{MAX_NEIGHBOURS};
    ghost use Rattle.chord_tables.specs.Tables.{ids};

    ghost Value = { List ℕ };

    ghost view = { λ n. ids (take n.len n.nodes) };

    ghost invariant = { λ n. n.len ≤ MAX_NEIGHBOURS };
}

impl Nearest {
    /// No nodes.
    pub(crate) fn new() -> Nearest
        ensures { result ≡ [] }
    {
        Nearest {
            nodes: [NodeId(0); MAX_NEIGHBOURS],
            len: 0,
        }
    }

    /// Equal nodes.
    pub(crate) fn copy(&self) -> Nearest
        ensures { result ≡ self.now }
    {
        Nearest {
            nodes: self.nodes,
            len: self.len,
        }
    }

    /// The nodes as a slice.
    pub(crate) fn as_slice(&self) -> &[NodeId]
        ensures value { ids result.now ≡ self.now }
        ensures few { length result.now ≤ MAX_NEIGHBOURS }
    {
        self.nodes.split_at(self.len).0
    }

    /// Adds a node before the one at a place. Of more than there is room for, the last leaves.
    fn insert(&mut self, place: usize, node: NodeId)
        requires { place ≤ length self.old }
        ensures { self.new ≡ take MAX_NEIGHBOURS (insert self.old place node.0) }
    {
        if place < MAX_NEIGHBOURS {
            self.nodes.split_at_mut(place).1.rotate_right(1);
            self.nodes[place] = node;
            self.len = MAX_NEIGHBOURS.min(self.len + 1);
        }
    }

    /// Adds a node other than `me` where its way is among theirs, if it isn't there yet.
    #[tactic(auto, unfolding(crate::specs::Sides::with_id))]
    fn put(&mut self, side: Side, me: NodeId, node: NodeId)
        ensures { self.new ≡ with_id side me.0 node.0 self.old }
    {
        if node == me {
            return;
        }
        let near = self.as_slice();
        let place = place_of(near, side, me, node).unwrap_or(near.len());
        if place == near.len() || node != near[place] {
            self.insert(place, node);
        }
    }

    /// Adds each of further nodes, the last first.
    pub(crate) fn gather(&mut self, side: Side, me: NodeId, nodes: &[NodeId])
        ensures { self.new ≡ gathered side me.0 (ids nodes.now) self.old }
    {
        let mut left = nodes;
        while let Some((last, before)) = left.split_last() {
            self.put(side, me, *last);
            left = before;
        }
    }

    /// Takes a node out.
    pub(crate) fn remove(&mut self, node: NodeId)
        ensures { self.new ≡ without node.0 self.old }
    {
        let mut rest = Nearest::new();
        for other in self.as_slice() {
            if *other != node {
                let len = rest.len;
                rest.insert(len, *other);
            }
        }
        *self = rest;
    }
}

/// Whether a node stands at the place of another, or would stand before it.
#[tactic(auto, unfolding(crate::specs::Sides::is_place))]
fn is_place(side: Side, me: NodeId, node: NodeId, other: NodeId) -> bool
    ensures { result ≡ is_place side me.0 node.0 other.0 }
{
    node == other || way(side, me, node) < way(side, me, other)
}

/// Where a node stands among nodes by a rising way, or else the place of the first behind it.
fn place_of(near: &[NodeId], side: Side, me: NodeId, node: NodeId) -> Option<usize>
    ensures { result ≡ position (λ x. is_place side me.0 node.0 x.0) near.now }
{
    near.iter()
        .position(|other| is_place(side, me, node, *other))
}
