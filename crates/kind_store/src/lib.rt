//! The records of one peer: what they hold, and every decision on them.
#![tactic(auto)]

mod causes;
mod decide;
mod fetch;
mod floors;
mod gathering;
mod given;
mod limits;
mod record;
mod shelf;
mod soundness;
mod undo;

pub use given::found;
pub use record::Record;
pub use shelf::Shelf;
pub use soundness::{sound, sound_fetch};
pub use storage_model::{
    Asked, AskedKind, AskedValues, FetchAsked, FetchVerdict, Held, JoinAsked, Kept, KindRecord,
    Refusal, Slot, StoreAsked, StoreVerdict, Value,
};
pub use undo::Undo;
