//! How slots that were put are undone.

ghost use Rattle.std.specs.Prelude.{◌≡◌};
ghost use Rattle.record_state.specs.Log.{kinds_undone};
ghost use Rattle.storage_model.specs.Records.{Kinds};

use crate::slot::SlotState;
use reload_base::{Bytes, List};
use std::alloc::Global;

/// What there was before a slot was put.
#[derive(Debug, Drop)]
pub struct Undo {
    /// The Kind-ID.
    pub kind: u32,
    /// The generation counter and the append floor, where the kind was there.
    pub counters: Option<(u64, u64)>,
    pub key: Bytes,
    /// The slot at the key, where there was one.
    pub before: Option<SlotState>,
}

/// What undoes all that was put into the kinds of a record.
#[derive(Debug, Drop)]
pub struct KindsUndo {
    /// What was put, in its order.
    pub(crate) log: List<Undo>,
}

impl KindsUndo {
    /// What undoes nothing. It takes no memory.
    #[tactic(auto, unfolding(crate::specs::Log::all_undone))]
    pub fn nothing(alloc: Global) -> KindsUndo
        ensures { (kinds : Kinds) → kinds_undone result kinds ≡ kinds }
    {
        KindsUndo {
            log: List::new(alloc),
        }
    }
}
