//! Entries of a destination list that are the node's own.

ghost use Rattle.std.specs.Prelude.{◌≡◌};
ghost use Rattle.node_model.specs.Ways.{is_node};
ghost use Rattle.node_model.specs.Courses.{is_alone, without_own};

use forwarding_header::Destination;
use reload_ids::NodeId;

/// Whether a destination is the node with this id.
pub(crate) fn is_node(me: NodeId, destination: &Destination) -> bool
    ensures { result ≡ is_node me.0 destination.now }
{
    match destination {
        Destination::Node(node) => node.0 == me.0,
        _ => false,
    }
}

/// Whether a destination list is a node's own id and nothing more.
pub(crate) fn is_alone(me: NodeId, dest: &[Destination]) -> bool
    ensures { result ≡ is_alone me.0 dest.now }
{
    match dest {
        [first] => is_node(me, first),
        _ => false,
    }
}

/// A destination list without the leading entries of a node itself behind which more follow.
#[tactic(auto, using(crate::proofs::Own::without_steps))]
pub(crate) fn without_own<'a>(me: NodeId, dest: &'a [Destination]) -> &'a [Destination]
    ensures { result.now ≡ without_own me.0 dest.now }
{
    let mut left = dest;
    'own: while let Some((first, rest)) = left.split_first() {
        if rest.is_empty() {
            return left;
        }
        if !is_node(me, first) {
            return left;
        }
        left = rest;
    }
    left
}
