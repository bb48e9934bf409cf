//! What becomes of a message that a node hears: where it goes, and with which header (RFC 6940,
//! sections 6.1 and 6.2).
#![tactic(auto)]

mod answers;
mod destinations;
mod hearing;
mod onward;
mod options;
mod requests;

pub use answers::{answer_course, reply_header};
pub use hearing::{Envelope, code_in, heard_in, is_answer};
pub use options::any_has;
pub use requests::course;
