//! What a peer is to its overlay.

ghost use Rattle.std.specs.Prelude.{◌≡◌};
ghost use Rattle.node_model.specs.Peers.{state_of, is_gone};
ghost use Rattle.overlay_peer.specs.Memberships.{membership_of};

use node_model::PeerState;
use reload_ids::NodeId;

/// What a peer is to its overlay.
///
/// ```text
/// Seeking ──admitted──▶ Member ──Join──▶ Admitting
///                         │ ▲               │
///                         │ └──handed over──┘
///                       leave
///                         ▼
///                      Leaving ──all acknowledged──▶ Gone
/// ```
///
/// None of these steps is made yet.
#[derive(Clone, Copy, Debug, PartialEq, Eq)]
pub(crate) enum Membership {
    /// It asked to join.
    Seeking,
    /// Since a clock in milliseconds.
    Member { since: u64 },
    /// It hands a joiner what will be its own.
    Admitting { since: u64, joiner: NodeId },
    /// It owns nothing any more.
    Leaving { since: u64 },
    /// It hears nothing any more.
    Gone,
}

impl Membership {
    /// The state of the peer.
    pub(crate) fn state(self) -> PeerState
        ensures { result ≡ state_of (membership_of self) }
    {
        match self {
            Membership::Seeking => PeerState::Seeking,
            Membership::Member { .. } => PeerState::Member,
            Membership::Admitting { .. } => PeerState::Admitting,
            Membership::Leaving { .. } => PeerState::Leaving,
            Membership::Gone => PeerState::Gone,
        }
    }

    /// Whether the peer is gone.
    pub(crate) fn is_gone(self) -> bool
        ensures { result ≡ is_gone (membership_of self) }
    {
        match self {
            Membership::Gone => true,
            Membership::Seeking
            | Membership::Member { .. }
            | Membership::Admitting { .. }
            | Membership::Leaving { .. } => false,
        }
    }
}
