//! What a node handles, and what it puts out.

use crate::command::Command;
use crate::notice::Notice;
use reload_base::{Bytes, List};
use reload_ids::NodeId;

/// What a node is to handle.
#[derive(Debug, Drop)]
pub enum Input<'a> {
    /// Bytes that came over the link from a node.
    Frame { from: NodeId, bytes: &'a [u8] },
    /// The clock moved on.
    Clock,
    Command(Command),
}

/// What a node puts out while it handles an input.
#[derive(Debug, Drop)]
pub struct Outputs {
    /// The frames that it sends, each with the node that it is for, in their order.
    pub frames: List<(NodeId, Bytes)>,
    /// What there is to be told, in its order.
    pub notices: List<Notice>,
}
