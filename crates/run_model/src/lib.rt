//! What a run of a scenario is: its worlds, what each event makes of them, and what is told.
#![tactic(auto)]

mod flight;
mod happening;
mod limits;
mod moves;

pub use flight::{Fate, Flight};
pub use happening::Happening;
pub use limits::MAX_AIR;
pub use moves::Move;
