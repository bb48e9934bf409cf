//! What can be declared behind what was, and that events need a peer.

ghost use Rattle.std.specs.Prelude.{◌≡◌};
ghost use Rattle.std.specs.List.{list_all};
ghost use Rattle.scenario_text.specs.Declaring.{are_apart, has_peer, has_room, is_new_kind, is_new_node, peer_count};

use crate::scenario::{MAX_NODES, MAX_PEERS};
use data_models::{Config, KindDef, MAX_KINDS};
use request_words::{DeclaredNode, Role, is_role};

/// Whether some node is a peer.
#[tactic(auto, unfolding(crate::specs::Declaring::has_peer))]
pub fn has_peer(nodes: &[DeclaredNode]) -> bool
    ensures { result ≡ has_peer nodes.now }
{
    nodes.iter().any(|node| is_role(Role::Peer, node.role))
}

// How many nodes are peers.
#[tactic(auto, unfolding(crate::specs::Declaring::peer_count))]
fn peer_count(nodes: &[DeclaredNode]) -> usize
    ensures { result ≡ peer_count nodes.now }
{
    nodes
        .iter()
        .filter(|node| is_role(Role::Peer, node.role))
        .count()
}

// Whether a node of this role isn't a peer too many.
#[tactic(auto, unfolding(crate::specs::Declaring::has_room))]
fn has_room(nodes: &[DeclaredNode], role: Role) -> bool
    ensures { result ≡ has_room nodes.now role }
{
    !is_role(Role::Peer, role) || peer_count(nodes) < MAX_PEERS
}

// Whether two nodes have different numbers and Node-IDs.
#[tactic(auto, unfolding(crate::specs::Declaring::are_apart))]
fn are_apart(a: &DeclaredNode, b: &DeclaredNode) -> bool
    ensures { result ≡ are_apart a.now b.now }
{
    a.number != b.number && a.node.0 != b.node.0
}

/// Whether a kind can be declared too.
#[tactic(auto, unfolding(crate::specs::Declaring::is_new_kind))]
pub fn is_new_kind(config: &Config, kind: &KindDef) -> bool
    ensures { result ≡ is_new_kind config.now kind.now }
{
    config.kinds.len() < MAX_KINDS && config.kind(kind.id).is_none()
}

/// Whether a node can be declared too.
#[tactic(auto, unfolding(crate::specs::Declaring::is_new_node))]
pub fn is_new_node(nodes: &[DeclaredNode], node: &DeclaredNode) -> bool
    ensures { result ≡ is_new_node nodes.now node.now }
{
    nodes.len() < MAX_NODES && has_room(nodes, node.role) && are_all_apart(nodes, node)
}

fn are_all_apart(nodes: &[DeclaredNode], node: &DeclaredNode) -> bool
    ensures { result ≡ list_all (are_apart node.now) nodes.now }
{
    nodes.iter().all(|other| are_apart(node, other))
}
