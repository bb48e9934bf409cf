//! Requests in words, made into signed messages, and an owner of resources that rules on them: for
//! tests.
#![tactic(auto)]

mod asker;
mod config;
mod message;
mod owner;
mod plan;
mod store;
mod table;
mod words;

pub use asker::Asker;
pub use config::{SEQUENCE, configuration};
pub use owner::Owner;
pub use plan::Mark;
pub use table::first_unmet_alone;
