//! Transactions that wait for their answers (RFC 6940, sections 6.2 and 6.2.1), and the outboxes of
//! a node (this profile).
#![tactic(auto)]

mod again;
mod number_table;
mod outbox;
mod queue;
mod spot;
mod table;
mod timing;
mod txn;

pub use again::{Again, Taken, Ticked};
pub use outbox::{Message, Outbox, Request};
pub use queue::Queue;
pub use spot::Spot;
pub use table::Table;
pub use txn::{Answered, Left, Outstanding, Queued, TimedOut, Txn};

/// How long after a send a message is sent again, in milliseconds (RFC 6940, section 6.2.1).
pub const RESEND_AFTER: u64 = 3_000;
