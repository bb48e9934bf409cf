//! A client of an overlay: it asks peers to store and fetch values, and takes their answers (RFC
//! 6940, sections 6.2 and 7.4).
#![tactic(auto)]

mod answer;
mod asking;
mod client;
mod clock;
mod fetch;
mod hearing;
mod store;

pub use client::Client;
