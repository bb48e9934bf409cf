//! What happens in a world.

use node_model::Notice;

/// What happens in a world (this profile).
#[derive(Debug, Drop)]
pub enum Happening {
    /// A node tells something.
    Tells {
        /// The number of the node.
        number: u32,
        notice: Notice,
    },
    /// The event at a line names a frame that wasn't sent.
    NoSuchFrame {
        line: u64,
    },
    /// The event at a line names a node that isn't there, or that doesn't ask or isn't asked.
    UnknownNode {
        line: u64,
    },
    /// As many requests of the client that the event at a line names wait as may.
    Busy {
        line: u64,
    },
}
