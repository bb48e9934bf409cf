//! Runs of scenarios: the worlds that their events make, and the transcripts that they write.
#![tactic(auto)]

mod fault;
mod piece;
mod run;

pub use fault::RunFault;
pub use run::run_scenario;
