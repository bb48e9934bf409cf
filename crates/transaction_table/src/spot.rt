//! Where an outstanding transaction stands.

ghost use Rattle.std.specs.Prelude.{◌≡◌, map, IfOk};
ghost use Rattle.transaction_table.specs.Timed.{timer_at};

use reload_base::{List, NoMemory};
use std::alloc::Global;

/// Where an outstanding transaction stands.
#[derive(Clone, Copy, Debug)]
pub enum Spot {
    /// It is the head of the outbox to a node.
    Head(u128),
    /// It is outside the outboxes, and has an id.
    Issued(u64),
}

/// When the transaction at a spot is sent again, in milliseconds.
#[derive(Clone, Copy, Debug)]
pub struct Timer {
    pub due: u64,
    pub id: u64,
    pub spot: Spot,
}

/// The timer of what is due at a time under an id: of the head of the outbox to its owner, or,
/// where it has none, of a request outside the outboxes.
pub fn timer_of(due: u64, id: u64, owner: Option<u128>) -> Timer
    ensures { result ≡ timer_at (due, id, owner) }
{
    let spot = match owner {
        Some(peer) => Spot::Head(peer),
        None => Spot::Issued(id),
    };
    Timer { due, id, spot }
}

/// Where those stand that are due at times under ids, each with its owner, if it has one.
pub fn spots_of(alloc: Global, timers: &[(u64, u64, Option<u128>)]) -> Result<List<Spot>, NoMemory>
    ensures { IfOk result (λ spots. spots ≡ map (λ x. (timer_at x).spot) timers.now) }
{
    let mut spots = List::new(alloc);
    for (due, id, owner) in timers {
        spots.push(timer_of(*due, *id, *owner).spot)?;
    }
    Ok(spots)
}
