//! Scenarios: what is declared and what happens, read from a text or refused at its first bad line.
#![tactic(auto)]

mod declaring;
mod echo;
mod fault;
mod form;
mod laws;
mod lines;
mod reading;
mod request;
mod saying;
mod scenario;

pub use echo::put_echo;
pub use fault::TextFault;
pub use laws::lines_both_ways;
pub use lines::clock::MAX_CLOCK;
pub use lines::drain::MAX_DRAIN;
pub use reading::read_scenario;
pub use scenario::{
    Event, EventKind, FIRST_SEQUENCE, FetchEvent, MAX_NODES, MAX_PEERS, REPLICAS, Scenario,
    StoreEvent,
};
