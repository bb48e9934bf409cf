//! The tables of a peer.

ghost use Rattle.std.specs.Prelude.{◌≡◌, ◌==◌, ◌<◌, ◌≤◌, ◌++◌, Some, length, map, slice_get, OnOk, OnErr};
ghost use Rattle.std.specs.List.{list_any, filter_map};
ghost use Rattle.chord_tables.specs.Rising.{IsRising};
ghost use Rattle.chord_tables.specs.Sides.{nearest};
ghost use Rattle.chord_tables.specs.Tables.{ids, number, alone, owns, mirrors, merged, removed, with_finger, spared, with_friend, with_user, names};

use crate::nearest::Nearest;
use crate::rising::Rising;
use crate::side::Side;
use crate::{FINGERS, MAX_NEIGHBOURS};
use reload_base::{NoMemory, TryCopy};
use reload_ids::{NodeId, between};
use std::alloc::Global;
use std::marker::Model;

/// A peer's Node-ID, and what it knows of other nodes: its neighbours on both sides of the ring,
/// the nearest first; the peer that answers for the target of each finger, where one is known; its
/// friends and its users, by rising ids (RFC 6940, sections 10.1 and 10.7). Contracts see the ids.
#[derive(Debug, Drop)]
pub struct Tables {
    me: NodeId,
    predecessors: Nearest,
    successors: Nearest,
    fingers: [Option<NodeId>; FINGERS],
    friends: Rising,
    users: Rising,
}

impl Model for Tables {
    ghost use Rattle.std.specs.Prelude.{map};
    ghost use Rattle.chord_tables.specs.Tables as words;

    ghost Value = { words.Tables };

    ghost view = { λ t. record {
      me = t.me.0;
      predecessors = t.predecessors;
      successors = t.successors;
      fingers = map words.number t.fingers;
      friends = t.friends;
      users = t.users;
    } };
}

impl Tables {
    /// The tables of a peer that knows nobody.
    pub fn new(alloc: Global, me: NodeId) -> Tables
        ensures { result ≡ alone me.0 }
    {
        Tables {
            me,
            predecessors: Nearest::new(),
            successors: Nearest::new(),
            fingers: [None; FINGERS],
            friends: Rising::new(alloc),
            users: Rising::new(alloc),
        }
    }

    /// The peer's own Node-ID.
    pub fn me(&self) -> NodeId
        ensures { result.0 ≡ self.now.me }
    {
        self.me
    }

    /// Whether the peer owns an id: one behind its first predecessor, up to its own, or any where
    /// it has no predecessor.
    #[tactic(auto, unfolding(crate::specs::Tables::owns))]
    pub fn owns(&self, k: u128) -> bool
        ensures { result ≡ owns self.now k }
    {
        match self.predecessors().first() {
            Some(first) => between(first.0, k, self.me.0),
            None => true,
        }
    }

    /// The holders of replicas: as many of the first successors, or as there are (RFC 6940,
    /// section 10.4).
    pub fn mirrors(&self, replicas: u8) -> &[NodeId]
        ensures { ids result.now ≡ mirrors replicas self.now }
    {
        let successors = self.successors();
        successors
            .split_at(successors.len().min(usize::from(replicas)))
            .0
    }

    /// The nearest peers before it, the nearest first.
    pub fn predecessors(&self) -> &[NodeId]
        ensures value { ids result.now ≡ self.now.predecessors }
        ensures few { length self.now.predecessors ≤ MAX_NEIGHBOURS }
    {
        self.predecessors.as_slice()
    }

    /// The nearest peers behind it, the nearest first.
    pub fn successors(&self) -> &[NodeId]
        ensures value { ids result.now ≡ self.now.successors }
        ensures few { length self.now.successors ≤ MAX_NEIGHBOURS }
    {
        self.successors.as_slice()
    }

    /// The peers that answer for the targets of the fingers, each where one is known.
    pub fn fingers(&self) -> &[Option<NodeId>]
        ensures value { map number result.now ≡ self.now.fingers }
        ensures all { length result.now ≡ FINGERS }
    {
        &self.fingers
    }

    /// Its friends, by rising ids.
    pub fn friends(&self) -> &[NodeId]
        ensures value { ids result.now ≡ self.now.friends }
        ensures rising { IsRising self.now.friends }
    {
        self.friends.as_slice()
    }

    /// Its users, by rising ids.
    pub fn users(&self) -> &[NodeId]
        ensures value { ids result.now ≡ self.now.users }
        ensures rising { IsRising self.now.users }
    {
        self.users.as_slice()
    }

    /// The nearest on a side, of the neighbours on both sides and of others.
    #[tactic(auto, using(crate::proofs::Merging::gathered_all))]
    fn nearest(&self, side: Side, others: &[NodeId]) -> Nearest
        ensures { result ≡ nearest side self.now.me
            (self.now.predecessors ++ self.now.successors ++ ids others.now) }
    {
        let mut nearest = Nearest::new();
        nearest.gather(side, self.me, others);
        nearest.gather(side, self.me, self.successors());
        nearest.gather(side, self.me, self.predecessors());
        nearest
    }

    /// Makes the nearest of the neighbours and of further nodes the neighbours. Their places are
    /// fixed, so that no memory is missing; after `NoMemory` all would be as before.
    #[tactic(auto, using(crate::proofs::Merging::nearest_sides), unfolding(crate::specs::Tables::merged))]
    pub fn merge(&mut self, nodes: &[NodeId]) -> Result<(), NoMemory>
        ensures ok { OnOk result (self.new ≡ merged (ids nodes.now) self.old) }
        ensures err { OnErr result (self.new ≡ self.old) }
    {
        let predecessors = self.nearest(Side::Before, nodes);
        let successors = self.nearest(Side::Behind, nodes);
        self.predecessors = predecessors;
        self.successors = successors;
        Ok(())
    }

    /// Takes a node out of all five tables.
    #[tactic(auto, unfolding(crate::specs::Tables::removed))]
    pub fn remove(&mut self, node: NodeId)
        ensures { self.new ≡ removed node.0 self.old }
    {
        self.predecessors.remove(node);
        self.successors.remove(node);
        clear(&mut self.fingers, node);
        self.friends.remove(node);
        self.users.remove(node);
    }

    /// The peer that answers for the target of a finger, counted from 0, where one is known.
    pub fn finger(&self, i: u8) -> Option<NodeId>
        requires { i < FINGERS }
        ensures { slice_get self.now.fingers i ≡ Some (number result) }
    {
        self.fingers()[usize::from(i)]
    }

    /// Sets a finger, counted from 0, or clears it.
    pub fn set_finger(&mut self, i: u8, node: Option<NodeId>)
        requires { i < FINGERS }
        ensures { self.new ≡ with_finger i (number node) self.old }
    {
        self.fingers[usize::from(i)] = node;
    }

    /// Makes a node a friend. After `NoMemory` all is as before.
    pub fn add_friend(&mut self, node: NodeId) -> Result<(), NoMemory>
        ensures ok { OnOk result (self.new ≡ with_friend node.0 self.old) }
        ensures err { OnErr result (self.new ≡ self.old) }
    {
        self.friends.put(node)
    }

    /// Makes a node a user. After `NoMemory` all is as before.
    pub fn add_user(&mut self, node: NodeId) -> Result<(), NoMemory>
        ensures ok { OnOk result (self.new ≡ with_user node.0 self.old) }
        ensures err { OnErr result (self.new ≡ self.old) }
    {
        self.users.put(node)
    }

    /// Whether one of the five tables names a node.
    #[tactic(auto, using(crate::proofs::Naming::names_any))]
    pub fn names(&self, node: NodeId) -> bool
        ensures { result ≡ names node.0 self.now }
    {
        has(self.predecessors(), node)
            || has(self.successors(), node)
            || has_finger(self.fingers(), node)
            || self.friends.contains(node)
            || self.users.contains(node)
    }
}

/// Whether a node is among others.
fn has(nodes: &[NodeId], node: NodeId) -> bool
    ensures { result ≡ list_any (λ x. x == node.0) (ids nodes.now) }
{
    nodes.contains(&node)
}

/// Whether a node is among fingers.
fn has_finger(fingers: &[Option<NodeId>], node: NodeId) -> bool
    ensures { result ≡ list_any (λ x. x == node.0)
        (filter_map (λ finger. finger) (map number fingers.now)) }
{
    fingers.contains(&Some(node))
}

/// A finger that isn't a node.
fn spared(finger: Option<NodeId>, node: NodeId) -> Option<NodeId>
    ensures { number result ≡ spared node.0 (number finger) }
{
    match finger {
        Some(there) if there == node => None,
        other => other,
    }
}

/// Clears each finger that is a node.
fn clear(fingers: &mut [Option<NodeId>], node: NodeId)
    ensures { map number fingers.new ≡ map (spared node.0) (map number fingers.old) }
{
    for finger in fingers {
        *finger = spared(*finger, node);
    }
}

impl TryCopy for Tables {
    fn copy(&self, alloc: Global) -> Result<Tables, NoMemory> {
        Ok(Tables {
            me: self.me,
            predecessors: self.predecessors.copy(),
            successors: self.successors.copy(),
            fingers: self.fingers,
            friends: self.friends.copy(alloc)?,
            users: self.users.copy(alloc)?,
        })
    }
}
