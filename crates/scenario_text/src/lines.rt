//! The forms of lines, each by the words behind its first one.

pub mod clock;
pub mod deliver;
pub mod drain;
pub mod fetch;
pub mod kind;
pub mod lose;
pub mod node;
pub mod overlay;
pub mod store;
