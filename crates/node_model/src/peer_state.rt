//! What a peer is to its overlay.

/// The state of a peer (RFC 6940, section 10.5 and this profile).
///
/// ```text
///                        a first Join
///  Seeking ──────▶ Member ────────▶ Admitting
///          takes     │ ▲ ◀──────────
///          over      │   handed over
///                    │ leaves
///                    ▼
///                 Leaving ──────▶ Gone
///                         its outboxes are empty
/// ```
///
/// A peer owns ids while it is Member or Admitting. The first peers of an overlay are Members.
#[derive(Clone, Copy, Debug, PartialEq, Eq)]
pub enum PeerState {
    /// It asked to join, and owns nothing yet.
    Seeking,
    Member,
    /// A Member that hands a joiner what will be its own.
    Admitting,
    /// It goes, and owns nothing any more.
    Leaving,
    Gone,
}
