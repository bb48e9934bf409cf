//! What peers and clients are and do: the types of what they are given and give out, and the
//! meaning of each step.
#![tactic(auto)]

mod command;
mod course;
mod input;
mod limits;
mod notice;
mod peer_state;
mod question;

pub use command::{Command, FetchCommand, StoreCommand};
pub use course::{AnswerCourse, Course};
pub use input::{Input, Outputs};
pub use limits::{MAX_LOAD, MAX_OUTSTANDING, MAX_REQUEST, MAX_SENDS, MAX_TTL, MAX_VIA};
pub use notice::{Notice, Told};
pub use peer_state::PeerState;
pub use question::Question;
