//! The top call: words, a source, a sink, an air and a signer in, a status out.
#![tactic(auto)]

mod command;
mod form;
mod run;
mod status;
mod tell;

pub use command::overlay;
pub use status::Status;
