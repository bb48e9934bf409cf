//! What a node sends.

ghost use Rattle.std.specs.Prelude.{◌≡◌};
ghost use Rattle.std.specs.Option.{option_map};
ghost use Rattle.node_links.specs.Sendings.{post_of, receiver_of};

use forwarding_header::Header;
use reload_base::Bytes;
use reload_ids::NodeId;

/// What a node sends to another one.
#[derive(Debug, Drop)]
pub enum Sending<'a> {
    /// A message of its own, of at most `MAX_MESSAGE` bytes. Where it has no spelling there is
    /// none, and nothing leaves, but its sequence is used.
    Made {
        to: NodeId,
        message: Option<Bytes>,
    },
    /// A message that is kept to be sent again, of at most `MAX_MESSAGE` bytes. One without a
    /// spelling has no bytes: then nothing leaves, but its sequence is used.
    Kept {
        to: NodeId,
        bytes: &'a [u8],
    },
    /// A message that is passed on: a header, whose length is filled in, and what follows it.
    Onward {
        to: NodeId,
        header: Header,
        behind: &'a [u8],
    },
}

/// The node that something is for.
pub(crate) fn receiver_of(sending: &Option<Sending<'_>>) -> Option<NodeId>
    ensures { result ≡ receiver_of (option_map post_of sending.now) }
{
    match sending {
        None => None,
        Some(Sending::Made { to, .. } | Sending::Kept { to, .. } | Sending::Onward { to, .. }) =>
            Some(*to),
    }
}
