//! Who may store where: the access control policies of kinds (RFC 6940, section 7.3).
#![tactic(auto)]

ghost use Rattle.std.specs.Prelude.{◌≡◌, ◌++◌};
ghost use Rattle.std.specs.Int.{w32, to_be_bytes};
ghost use Rattle.access_policy.specs.Policies.{node_bytes, user_match, node_match, numbered_match, some_from_one, permits};

use reload_ids::{NodeId, ResourceId, resource_of};

/// An access control policy.
#[derive(Clone, Copy, Debug, PartialEq, Eq)]
pub enum Policy {
    /// USER-MATCH (section 7.3.1): a user's values stand where the user's name hashes to.
    UserMatch,
    /// NODE-MATCH (section 7.3.2): a node's values stand where its Node-ID hashes to.
    NodeMatch,
    /// USER-NODE-MATCH (section 7.3.3): as USER-MATCH, under the node's own Node-ID as key.
    UserNodeMatch,
    /// NODE-MULTIPLE (section 7.3.4): a node's values stand where its Node-ID and a small number
    /// hash to.
    NodeMultiple,
}

/// Whether a policy permits a user's node to store a value under a key at a resource. A Node-ID is
/// hashed as its 16 bytes. NODE-MULTIPLE's numbers go from 1 to `multiple`, and are hashed as 4
/// bytes behind the Node-ID's.
#[tactic(auto, unfolding(crate::specs::Policies::permits))]
pub fn permits(
    policy: Policy,
    multiple: u32,
    resource: ResourceId,
    key: &[u8],
    user: &[u8],
    node: NodeId,
) -> bool
    ensures { result ≡ permits policy multiple resource.0 key.now user.now node.0 }
{
    match policy {
        Policy::UserMatch => is_user(resource, user),
        Policy::NodeMatch => is_node(resource, node),
        Policy::UserNodeMatch => is_user(resource, user) && key == bytes_of(node).as_slice(),
        Policy::NodeMultiple => is_numbered(resource, node, multiple),
    }
}

/// The bytes of a Node-ID.
#[tactic(auto, unfolding(crate::specs::Policies::node_bytes))]
fn bytes_of(node: NodeId) -> [u8; 16]
    ensures { result ≡ node_bytes node.0 }
{
    node.0.to_be_bytes()
}

/// The bytes of a Node-ID and of a number behind it.
fn numbered(node: NodeId, number: u32) -> [u8; 20]
    ensures { result ≡ node_bytes node.0 ++ to_be_bytes w32 number }
{
    let mut bytes = [0; 20];
    let (front, back) = bytes.split_at_mut(16);
    front.copy_from_slice(&bytes_of(node));
    back.copy_from_slice(&number.to_be_bytes());
    bytes
}

#[tactic(auto, unfolding(crate::specs::Policies::user_match))]
fn is_user(resource: ResourceId, user: &[u8]) -> bool
    ensures { result ≡ user_match resource.0 user.now }
{
    resource_of(user) == resource
}

#[tactic(auto, unfolding(crate::specs::Policies::node_match))]
fn is_node(resource: ResourceId, node: NodeId) -> bool
    ensures { result ≡ node_match resource.0 node.0 }
{
    resource_of(&bytes_of(node)) == resource
}

/// Whether a Node-ID with some number from 1 to `multiple` behind it hashes to a resource.
#[tactic(auto, using(crate::proofs::SomeFromOne::laws))]
fn is_numbered(resource: ResourceId, node: NodeId, multiple: u32) -> bool
    ensures { result ≡ some_from_one (numbered_match resource.0 node.0) multiple }
{
    for i in 0..multiple {
        if has_number(resource, node, i + 1) {
            return true;
        }
    }
    false
}

#[tactic(auto, unfolding(crate::specs::Policies::numbered_match))]
fn has_number(resource: ResourceId, node: NodeId, number: u32) -> bool
    ensures { result ≡ numbered_match resource.0 node.0 number }
{
    resource_of(&numbered(node, number)) == resource
}
