//! Frames on a link, and their acks (RFC 6940, section 6.6.2).
#![tactic(auto)]

mod acks;
mod frame;
mod front;
mod laws;
mod layout;
mod only;
mod reader;

pub use acks::Acks;
pub use frame::{Frame, FrameFault, FrameView, encode_frame};
pub use front::first_frame;
pub use laws::{any_cutting, faults_stay, fed_is_taken_and_held, frames_are_layouts, one_reading};
pub use only::only_frame;
pub use reader::FrameReader;
