//! What the events of a scenario make a world do.
#![tactic(auto)]

mod fetch;
mod moves;
mod resource;
mod store;
mod stored;

pub use fetch::specifiers_of;
pub use moves::move_of;
pub use resource::id_of_resource;
pub use stored::stored_of;
