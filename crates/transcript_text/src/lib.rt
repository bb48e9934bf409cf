//! Transcripts: what is written of a run, line by line, each ended by a line feed. Each call
//! appends the whole of its lines or nothing.
#![tactic(auto)]

mod answer;
mod asked;
mod decision;
mod laws;
mod lines;
mod value;

pub use answer::{put_counters, put_found_kinds};
pub use decision::{DecisionLine, put_decide_line};
pub use laws::words_both_ways;
pub use lines::{put_air_full_line, put_bad_line, put_node_full_line};
