//! Whom a certificate is about.

use reload_base::{Bytes, NoMemory, TryCopy};
use reload_ids::NodeId;
use std::alloc::Global;

/// The most bytes of a user's name (this profile).
pub const MAX_USER: usize = 64;

/// A node and its user, as a certificate names them.
#[derive(Debug, Drop)]
pub struct About {
    /// Whether the node is a peer, and not a client.
    pub peer: bool,
    pub node: NodeId,
    /// 1 to `MAX_USER` bytes in each certificate of this profile.
    pub user: Bytes,
}

impl TryCopy for About {
    fn copy(&self, alloc: Global) -> Result<About, NoMemory> {
        Ok(About {
            peer: self.peer,
            node: self.node,
            user: self.user.copy(alloc)?,
        })
    }
}
