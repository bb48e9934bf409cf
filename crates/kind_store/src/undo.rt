//! How a decision is taken back.

use record_state::KindsUndo;
use reload_ids::ResourceId;
use storage_model::Kept;

/// What takes a change of a record back.
#[derive(Debug, Drop)]
pub enum RecordUndo {
    /// Nothing changed.
    Nothing,
    /// Slots were put, and an answer was kept, for which the oldest left where there were as many
    /// as are kept.
    Noted {
        kinds: KindsUndo,
        oldest: Option<Kept>,
    },
    /// It was noted that a peer joined.
    Joined,
}

/// What a decision changed.
#[derive(Debug, Drop)]
pub enum Change {
    /// The record that was there, if one was.
    There(RecordUndo),
    /// There was no record, and now there is one.
    Added,
}

/// What takes a decision on a resource back, without memory.
#[derive(Debug, Drop)]
pub struct Undo {
    pub(crate) resource: ResourceId,
    pub(crate) change: Change,
}
