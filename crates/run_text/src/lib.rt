//! The lines of a run: what happens in it, its frames, and its end, each ended by a line feed. Each
//! call appends the whole of its lines or nothing.
#![tactic(auto)]

mod end;
mod frames;
mod happening;

pub use end::put_end;
pub use frames::put_frames;
pub use happening::put_happening;
