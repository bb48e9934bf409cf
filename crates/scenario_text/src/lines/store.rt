//! `store C P RES [ttl=N] GROUP..`

ghost use Rattle.std.specs.Prelude.{◌≡◌, IfOk};
ghost use Rattle.scenario_text.specs.Lines.Store.{store_of};

use crate::request::{Address, take_address, take_ttl};
use crate::scenario::StoreEvent;
use reload_base::NoMemory;
use request_words::groups_of;
use std::alloc::Global;
use text_words::Pieces;

/// The Store that a client asks for.
#[tactic(auto, unfolding(crate::specs::Lines::Store::store_of))]
pub fn store_of(alloc: Global, mut words: Pieces<'_>) -> Result<Option<StoreEvent>, NoMemory>
    ensures { IfOk result (λ event. event ≡ store_of words.entry) }
{
    let Some(address) = take_address(alloc, &mut words)? else {
        return Ok(None);
    };
    let Some(ttl) = take_ttl(&mut words) else {
        return Ok(None);
    };
    let Some(groups) = groups_of(alloc, words)? else {
        return Ok(None);
    };
    let Address {
        client,
        peer,
        resource,
    } = address;
    Ok(Some(StoreEvent {
        client,
        peer,
        resource,
        ttl,
        seq: None,
        groups,
    }))
}
