//! The listing of a stream of frames: a line for each frame and for each part of its message, up to
//! the first fault.
#![tactic(auto)]

mod front;
mod label;
mod laws;
mod lines;
mod listing;
mod message;
mod parts;

pub use laws::one_listing;
pub use listing::{Listing, list_stream};
