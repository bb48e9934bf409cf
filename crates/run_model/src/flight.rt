//! The frames that nodes sent.

use reload_base::List;

/// What became of a frame that was sent (this profile).
#[derive(Clone, Copy, Debug, PartialEq, Eq)]
pub enum Fate {
    Waiting,
    Delivered,
    Lost,
}

/// A frame that was sent (this profile).
#[derive(Debug, Drop)]
pub struct Flight {
    /// The number of the node that sent it.
    pub sender: u32,
    /// The number of the node that it goes to.
    pub hearer: u32,
    /// The frame as it was sent.
    pub bytes: List<u8>,
    pub fate: Fate,
}
