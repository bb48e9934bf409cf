//! The nodes that a scenario declares, by whose numbers texts name them.

ghost use Rattle.std.specs.Prelude.{◌≡◌};
ghost use Rattle.request_words.specs.Nodes.{is_role};

use reload_base::Bytes;
use reload_ids::NodeId;

/// The greatest number of a node (this profile).
pub const MAX_NUMBER: u32 = 9_999;

/// What a node is.
#[derive(Clone, Copy, Debug, PartialEq, Eq)]
pub enum Role {
    Peer,
    Client,
    /// A node that sends whatever it likes.
    Hostile,
}

/// A node that a scenario declares.
#[derive(Debug, Drop)]
pub struct DeclaredNode {
    /// The number by which a scenario names it, from 1 to [`MAX_NUMBER`](crate::MAX_NUMBER).
    pub number: u32,
    pub role: Role,
    pub node: NodeId,
    /// The user name, 1 to 64 bytes.
    pub user: Bytes,
}

/// Whether a role is this one.
pub fn is_role(role: Role, other: Role) -> bool
    ensures { result ≡ is_role role other }
{
    matches!(
        (role, other),
        (Role::Peer, Role::Peer) | (Role::Client, Role::Client) | (Role::Hostile, Role::Hostile)
    )
}
