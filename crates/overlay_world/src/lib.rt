//! A world of peers and clients: their clock, the frames between them, and what each event of a run
//! makes of them.
#![tactic(auto)]

mod acting;
mod actor;
mod actors;
mod ask;
mod clock;
mod deliver;
mod drain;
mod fault;
mod give;
mod lose;
mod names;
mod refusing;
mod sending;
mod step;
mod world;

pub use actor::Actor;
pub use fault::StepFault;
pub use world::World;
