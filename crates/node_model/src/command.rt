//! What a client is told to do.

use data_models::{Specifier, StoreKind};
use reload_base::List;
use reload_ids::{NodeId, ResourceId};

/// A client's Store (RFC 6940, section 7.4.1).
#[derive(Debug, Drop)]
pub struct StoreCommand {
    /// The peer that it is sent to.
    pub peer: NodeId,
    pub resource: ResourceId,
    /// The TTL of the request, or none for `MAX_TTL`.
    pub ttl: Option<u8>,
    /// The number of a configuration that the request names, or none for the client's own.
    pub sequence: Option<u16>,
    /// The values, which the client signs: the signatures that stand here aren't looked at.
    pub kinds: List<StoreKind>,
}

/// A client's Fetch (RFC 6940, section 7.4.2).
#[derive(Debug, Drop)]
pub struct FetchCommand {
    /// The peer that it is sent to.
    pub peer: NodeId,
    pub resource: ResourceId,
    /// The TTL of the request, or none for `MAX_TTL`.
    pub ttl: Option<u8>,
    /// The number of a configuration that the request names, or none for the client's own.
    pub sequence: Option<u16>,
    /// The most bytes of the answer's message contents, or 0 for no limit.
    pub max: u32,
    pub specifiers: List<Specifier>,
}

/// What a node is told to do.
#[derive(Debug, Drop)]
pub enum Command {
    Store(StoreCommand),
    Fetch(FetchCommand),
}
