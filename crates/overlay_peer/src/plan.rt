//! What a peer is about to do with a message.

use forwarding_header::Header;
use node_links::Sending;
use reload_ids::{NodeId, ResourceId};
use storage_model::Asked;

/// A request that the peer decides on.
#[derive(Debug, Drop)]
pub(crate) struct Question {
    /// A resource that the peer owns.
    pub resource: ResourceId,
    /// Who asks.
    pub origin: NodeId,
    /// The transaction id.
    pub id: u64,
    pub request: Asked,
    /// The header of the answer.
    pub reply: Header,
}

/// What a peer is about to do with a message.
///
/// ```text
/// not one of this overlay, or a long way ──▶ nothing
/// an answer   ──▶ passed on, or it ends the head of an outbox, or nothing
/// a request   ──▶ dropped │ refused │ passed on │ handled here
/// handled     ──▶ a critical option is refused
///                 a Store, Fetch or Join of a resource that the peer owns is decided
///                 all else is refused
/// ```
#[derive(Drop)]
pub(crate) enum Plan<'a> {
    /// It sends this, if anything.
    Send(Option<Sending<'a>>),
    Decide(Question),
    /// The message with this transaction id heads the outbox to the node that the answer came from,
    /// and has its answer.
    End(u64),
}
