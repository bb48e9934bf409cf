//! The words of requests, which scenarios and transcripts have in common: resources, keys, values,
//! kinds, and the nodes that a scenario declares.
#![tactic(auto)]

mod data;
mod groups;
mod key;
mod laws;
mod node;
mod resource;
mod room;
mod specifier;
mod value;

pub use data::{Data, MAX_BYTES, MAX_FILL};
pub use groups::{GroupWords, groups_of};
pub use laws::words_both_ways;
pub use node::{DeclaredNode, MAX_NUMBER, Role, is_role};
pub use resource::{ResourceName, resource_of};
pub use room::push_tight;
pub use specifier::{SpecifierWord, specifier_of};
pub use value::ValueWord;
