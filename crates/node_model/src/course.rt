//! What becomes of a message that a node hears.

use forwarding_header::Header;
use reload_ids::{NodeId, ResourceId};
use storage_model::Refusal;

/// What becomes of an answer, by the first case (RFC 6940, section 6.2.2).
///
/// ```text
/// its first destination isn't the node ........ Ignored
/// there is no further one ..................... Mine
/// the next one is no node, or the TTL is 0, 1 .. Ignored
/// else ........................................ Passed, the TTL lowered, to the next one
/// ```
#[derive(Debug, Drop)]
pub enum AnswerCourse {
    /// Nothing.
    Ignored,
    /// It is passed on to the next node, with this header.
    Passed { next: NodeId, header: Header },
    /// It is for the node itself.
    Mine,
}

/// What becomes of a request at a peer, by the first case (RFC 6940, section 6.1).
///
/// ```text
/// Seeking: only the peer itself is named ............ Here, and Dropped where it isn't
/// Gone .............................................. Dropped
/// over MAX_REQUEST bytes, and not to the peer alone .. Refused, MessageTooLarge
/// (its own Node-ID leaves the front of the list as long as more stands behind it)
/// no destination, an opaque or a short one first .... Refused, InvalidMessage
/// the peer itself ................................... Here
/// a node in a range that it owns .................... Refused, NotFound
/// a resource that it owns, and more behind .......... Refused, InvalidMessage
/// a resource that it owns ........................... Owned
/// an option that is critical to who forwards ........ Refused, UnsupportedForwardingOption
/// a TTL of 0 or 1 ................................... Refused, TtlExceeded
/// no next hop ....................................... Dropped
/// else .............................................. Forwarded, the TTL lowered, the link's
///                                                     sender behind the via list
/// ```
///
/// At a request that is Here or Owned an option that is critical to its destination is refused
/// first, and then what the message asks for decides.
#[derive(Debug, Drop)]
pub enum Course {
    /// Nothing.
    Dropped,
    /// It is answered with an error.
    Refused(Refusal),
    /// It is for the peer itself.
    Here,
    /// It is for a resource that the peer owns.
    Owned(ResourceId),
    /// It goes on to a node, with this header.
    Forwarded { next: NodeId, header: Header },
}
