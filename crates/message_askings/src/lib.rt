//! What a message asks of the owner of its resource, what the owner decides, and what is answered.
#![tactic(auto)]

mod asked;
mod asker;
mod body;
mod decision;
mod reading;
mod store;

pub use asked::asked_in;
pub use asker::{is_decided, origin_of, refusal_of};
pub use body::{body_of, refusal_body};
pub use decision::{Ruling, rule_on, rule_on_with_undo};
pub use reading::read_request;
