//! What becomes of a transaction.

use crate::txn::{Answered, Outstanding, TimedOut, Txn};
use reload_ids::NodeId;

/// What becomes of a transaction whose time to be sent again has come.
#[derive(Debug)]
pub enum Again {
    /// It is sent again.
    Sent(Txn<Outstanding>),
    /// As many sends were made as are allowed.
    Over(Txn<TimedOut>),
}

/// What an answer ends.
#[derive(Debug)]
pub enum Taken {
    /// The transaction that it answers.
    Taken(Txn<Answered>),
    /// Nothing: no outstanding transaction has this peer and id.
    NotMine,
}

/// What a table does at a time.
#[derive(Debug)]
pub enum Ticked {
    /// Nothing: no transaction is due.
    Idle,
    /// It sends a message again.
    Sent { peer: NodeId, id: u64 },
    /// It ends a transaction that isn't sent any more.
    Over(Txn<TimedOut>),
}
