//! The notes by which peers keep their copies of a record alike, in an extension of a message (this
//! profile).
#![tactic(auto)]

mod codec;
mod kept_answer;
mod kind_note;
mod note;

pub use codec::{decode_note, encode_note};
pub use kept_answer::KeptAnswer;
pub use kind_note::{KindNote, SlotNote};
pub use note::{NoteForm, PeerNote, StoreNote};

/// Turns, and the generations of a note's kinds, are below this number (2^62, this profile).
pub const TURN_LIMIT: u64 = 0x4000_0000_0000_0000;
