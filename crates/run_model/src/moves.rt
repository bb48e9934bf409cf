//! What moves a world.

use node_model::Command;

/// What moves a world (this profile).
#[derive(Debug, Drop)]
pub enum Move {
    /// The clock goes on by so many milliseconds, and each node is told of it, by rising number.
    Clock(u64),
    /// The frame with this number, counted from 1, is delivered, whatever became of it before.
    Deliver(u64),
    /// The frame with this number is lost, unless it was delivered.
    Lose(u64),
    /// The lowest frame that waits is delivered, so many times, or until none waits.
    Drain(u64),
    /// A client is told to ask something of a peer. The command is for the peer with this number,
    /// whatever node it names itself.
    Ask {
        client: u32,
        peer: u32,
        command: Command,
    },
}
