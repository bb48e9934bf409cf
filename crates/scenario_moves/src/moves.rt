//! An event of a scenario, as a move of a world.

ghost use Rattle.std.specs.Prelude.{◌≡◌, IfOk};
ghost use Rattle.scenario_moves.specs.Moves.{move_of};

use crate::fetch::move_of_fetch;
use crate::store::move_of_store;
use reload_base::NoMemory;
use run_model::Move;
use scenario_text::EventKind;
use std::alloc::Global;

/// What an event makes a world do. A request is asked of the peer whose number the event has: the
/// Node-ID in its command is 0.
pub fn move_of(alloc: Global, event: &EventKind) -> Result<Move, NoMemory>
    ensures { IfOk result (λ m. m ≡ move_of event.now) }
{
    match event {
        EventKind::Clock(ms) => Ok(Move::Clock(*ms)),
        EventKind::Deliver(k) => Ok(Move::Deliver(*k)),
        EventKind::Lose(k) => Ok(Move::Lose(*k)),
        EventKind::Drain(n) => Ok(Move::Drain(*n)),
        EventKind::Store(store) => move_of_store(alloc, store.get()),
        EventKind::Fetch(fetch) => move_of_fetch(alloc, fetch.get()),
    }
}
