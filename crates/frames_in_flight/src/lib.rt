//! The frames of a run: what became of each, the lowest that waits, and how they are read from
//! their air.
#![tactic(auto)]

mod fates;
mod reading;

pub use fates::Fates;
pub use reading::{FrameError, frame_at};
