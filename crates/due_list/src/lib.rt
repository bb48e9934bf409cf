//! Entries by the time at which they are due.
#![tactic(auto)]

mod due;
mod place;
mod timers;

pub use due::Due;
pub use place::Place;
