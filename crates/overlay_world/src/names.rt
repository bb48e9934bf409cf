//! The names of nodes.

ghost use Rattle.std.specs.Prelude.{◌≡◌, IfOk};
ghost use Rattle.run_model.specs.Worlds as model;
ghost use Rattle.overlay_world.specs.Indexes.{numbers_in, nodes_in};

use ordered_tables::SortedTable;
use reload_base::{List, NoMemory, TryCopy};
use reload_ids::NodeId;
use request_words::DeclaredNode;
use std::alloc::Global;
use std::marker::Model;

/// The names of nodes, found by Node-ID and by number in logarithmic time. Contracts see them in
/// their order.
#[derive(Debug, Drop)]
pub struct Names {
    names: List<DeclaredNode>,
    /// By Node-ID the numbers of nodes.
    numbers: SortedTable<u32>,
    /// By number the Node-IDs of nodes.
    nodes: SortedTable<NodeId>,
}

impl Model for Names {
    ghost use Rattle.std.specs.Prelude as words;
    ghost use Rattle.request_words.specs.declared.node.DeclaredNode as model;
    ghost use Rattle.overlay_world.specs.Codes.{names_code};
    ghost use Rattle.overlay_world.specs.Indexes.{IsIndexed};

    ghost Value = { words.List model.DeclaredNode };

    ghost coded = { names_code };

    ghost view = { λ n. n.names };

    ghost invariant = { λ n. IsIndexed n.names n.numbers n.nodes };
}

impl Names {
    /// These names.
    pub fn new(alloc: Global, names: &[DeclaredNode]) -> Result<Names, NoMemory>
        ensures { IfOk result (λ n. n ≡ names.now) }
    {
        Ok(Names {
            numbers: numbers_in(alloc, names)?,
            nodes: nodes_in(alloc, names)?,
            names: copies_of(alloc, names)?,
        })
    }

    /// The number of the node with a Node-ID, the first that has it, or 0 where no node has it.
    #[tactic(auto, using(crate::proofs::Indexes::number_found))]
    pub fn number_of(&self, id: NodeId) -> u32
        ensures { result ≡ model.number_of self.now id.0 }
    {
        self.numbers.get(id.0).copied().unwrap_or(0)
    }

    /// The Node-ID of the node with a number, the first that has it.
    #[tactic(auto, using(crate::proofs::Indexes::node_found))]
    pub fn node_of(&self, number: u32) -> Option<NodeId>
        ensures { result ≡ model.node_of self.now number }
    {
        self.nodes.get(u128::from(number)).copied()
    }

    /// The names in their order.
    pub fn as_slice(&self) -> &[DeclaredNode]
        ensures { result.now ≡ self.now }
    {
        self.names.as_slice()
    }
}

/// By Node-ID the numbers of nodes. Of two with one Node-ID the first counts.
fn numbers_in(alloc: Global, names: &[DeclaredNode]) -> Result<SortedTable<u32>, NoMemory>
    ensures { IfOk result (λ numbers. numbers ≡ numbers_in names.now) }
{
    let mut numbers = SortedTable::new(alloc);
    let mut left = names;
    while let Some((last, before)) = left.split_last() {
        numbers.insert(last.node.0, last.number)?;
        left = before;
    }
    Ok(numbers)
}

/// By number the Node-IDs of nodes. Of two with one number the first counts.
fn nodes_in(alloc: Global, names: &[DeclaredNode]) -> Result<SortedTable<NodeId>, NoMemory>
    ensures { IfOk result (λ nodes. nodes ≡ nodes_in names.now) }
{
    let mut nodes = SortedTable::new(alloc);
    let mut left = names;
    while let Some((last, before)) = left.split_last() {
        nodes.insert(u128::from(last.number), last.node)?;
        left = before;
    }
    Ok(nodes)
}

/// An equal name.
fn copy_of(alloc: Global, name: &DeclaredNode) -> Result<DeclaredNode, NoMemory>
    ensures { IfOk result (λ copy. copy ≡ name.now) }
{
    Ok(DeclaredNode {
        number: name.number,
        role: name.role,
        node: name.node,
        user: name.user.copy(alloc)?,
    })
}

/// Equal names, in memory that is as large as they need.
fn copies_of(alloc: Global, names: &[DeclaredNode]) -> Result<List<DeclaredNode>, NoMemory>
    ensures { IfOk result (λ copies. copies ≡ names.now) }
{
    let mut copies = List::new(alloc);
    copies.reserve(names.len())?;
    for name in names {
        copies.push(copy_of(alloc, name)?)?;
    }
    Ok(copies)
}
