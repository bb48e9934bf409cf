//! Nodes in the order of their ids.

ghost use Rattle.std.specs.Prelude.{◌≡◌, ◌==◌, [], OnOk, OnErr};
ghost use Rattle.std.specs.List.{list_any};
ghost use Rattle.chord_tables.specs.Neighbours.{put_by, without};
ghost use Rattle.chord_tables.specs.Tables.{ids};
ghost use Rattle.chord_tables.specs.Rising.{IsRising};

use reload_base::{NoMemory, TryCopy};
use reload_ids::NodeId;
use std::alloc::Global;
use std::marker::Model;

/// Nodes by rising ids, each once. Contracts see the list of their ids.
#[derive(Debug, Drop)]
pub(crate) struct Rising {
    nodes: Vec<NodeId>,
}

impl Model for Rising {
    ghost use Rattle.std.specs.Prelude.{List, ℕ};
    ghost use Rattle.chord_tables.specs.Tables.{ids};
    ghost use Rattle.chord_tables.specs.Rising.{IsRising};

    ghost Value = { List ℕ };

    ghost view = { λ r. ids r.nodes.items };

    ghost invariant = { λ r. IsRising (ids r.nodes.items) };
}

impl Rising {
    /// No nodes.
    pub(crate) fn new(alloc: Global) -> Rising
        ensures { result ≡ [] }
    {
        Rising {
            nodes: Vec::new(alloc),
        }
    }

    /// The nodes as a slice.
    pub(crate) fn as_slice(&self) -> &[NodeId]
        ensures value { ids result.now ≡ self.now }
        ensures rising { IsRising self.now }
    {
        self.nodes.as_slice()
    }

    /// Whether a node is there.
    pub(crate) fn contains(&self, node: NodeId) -> bool
        ensures { result ≡ list_any (λ x. x == node.0) self.now }
    {
        self.nodes.binary_search(&node).is_ok()
    }

    /// Adds a node, if it isn't there yet. After `NoMemory` all is as before.
    pub(crate) fn put(&mut self, node: NodeId) -> Result<(), NoMemory>
        ensures ok { OnOk result (self.new ≡ put_by (λ x. x) node.0 self.old) }
        ensures err { OnErr result (self.new ≡ self.old) }
    {
        if let Err(place) = self.nodes.binary_search(&node) {
            self.nodes.insert(place, node)?;
        }
        Ok(())
    }

    /// Takes a node out.
    pub(crate) fn remove(&mut self, node: NodeId)
        ensures { self.new ≡ without node.0 self.old }
    {
        self.nodes.retain(|other| *other != node);
    }
}

impl TryCopy for Rising {
    fn copy(&self, alloc: Global) -> Result<Rising, NoMemory> {
        Ok(Rising {
            nodes: Vec::from_slice(alloc, self.nodes.as_slice())?,
        })
    }
}
