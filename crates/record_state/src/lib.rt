//! The kinds of a record, in a sorted list, with their slots in ordered maps: what they hold, how a
//! Store changes them, and how each change is undone.
#![tactic(auto)]

mod asked;
mod boxed_held;
mod counters;
mod draft;
mod expired;
mod kept_answers;
mod keys;
mod kind;
mod kinds;
mod lookup;
mod puts;
mod slot;
mod slots;
mod undo;
mod written;

pub use asked::{any_puts, is_end, values_in};
pub use counters::{counters_in, counters_told};
pub use draft::Draft;
pub use expired::sweep;
pub use kept_answers::KeptAnswers;
pub use keys::{index_of, key_bytes};
pub use kind::KindState;
pub use kinds::Kinds;
pub use puts::put_kinds;
pub use slot::SlotState;
pub use slots::Slots;
pub use undo::KindsUndo;
