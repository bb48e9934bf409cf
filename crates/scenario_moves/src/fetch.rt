//! A Fetch, as a client is told to ask for it (RFC 6940, section 7.4.2).

ghost use Rattle.std.specs.Prelude.{◌≡◌, map, IfOk};
ghost use Rattle.scenario_text.specs.declared.scenario.EventKind.TheVariants.{Fetch};
ghost use Rattle.scenario_moves.specs.Moves.{specifier_of, fetch_command, move_of};

use crate::resource::id_of_resource;
use data_models::Specifier;
use node_model::{Command, FetchCommand};
use reload_base::{List, NoMemory, TryCopy};
use reload_ids::NodeId;
use request_words::SpecifierWord;
use run_model::Move;
use scenario_text::FetchEvent;
use std::alloc::Global;

#[tactic(auto, unfolding(crate::specs::Moves::specifier_of))]
fn specifier_of(alloc: Global, word: &SpecifierWord) -> Result<Specifier, NoMemory>
    ensures { IfOk result (λ specifier. specifier ≡ specifier_of word.now) }
{
    Ok(Specifier {
        kind: word.kind,
        generation: word.generation.unwrap_or(0),
        selector: word.selector.copy(alloc)?,
    })
}

/// The kinds of a Fetch (RFC 6940, section 7.4.2.1).
pub fn specifiers_of(alloc: Global, words: &[SpecifierWord]) -> Result<List<Specifier>, NoMemory>
    ensures { IfOk result (λ specifiers. specifiers ≡ map specifier_of words.now) }
{
    let mut specifiers = List::new(alloc);
    specifiers.reserve(words.len())?;
    for word in words {
        specifiers.push(specifier_of(alloc, word)?)?;
    }
    Ok(specifiers)
}

// The command. Nobody looks at the Node-ID in it.
#[tactic(auto, unfolding(crate::specs::Moves::fetch_command))]
fn fetch_command(alloc: Global, event: &FetchEvent) -> Result<FetchCommand, NoMemory>
    ensures { IfOk result (λ command. command ≡ fetch_command event.now) }
{
    Ok(FetchCommand {
        peer: NodeId(0),
        resource: id_of_resource(&event.resource),
        ttl: event.ttl,
        sequence: event.seq,
        max: event.max.unwrap_or(0),
        specifiers: specifiers_of(alloc, event.specifiers.as_slice())?,
    })
}

/// What a Fetch of a scenario makes a world do.
pub fn move_of_fetch(alloc: Global, event: &FetchEvent) -> Result<Move, NoMemory>
    ensures { IfOk result (λ m. m ≡ move_of (Fetch event.now)) }
{
    Ok(Move::Ask {
        client: event.client,
        peer: event.peer,
        command: Command::Fetch(fetch_command(alloc, event)?),
    })
}
