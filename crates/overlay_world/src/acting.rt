//! Nodes that are given something to handle.

ghost use Rattle.std.specs.Prelude.{◌≡◌, ◌<◌, ◌≤◌, ◌^◌, Some, Option, IfOk, IfErr, OnOk};
ghost use Rattle.std.specs.Option.{option_map, option_map_or, option_and_then};
ghost use Rattle.std.specs.FinMap as map;
ghost use Rattle.node_messages.specs.Signed.{words_of};
ghost use Rattle.node_model.specs.Nodes.{cause_of};
ghost use Rattle.run_model.specs.Worlds.{acts};
ghost use Rattle.run_model.specs.Moves as moves;
ghost use Rattle.run_model.specs.Stops.{load_of};
ghost use Rattle.overlay_world.specs.Sendings.{IsUnheard};
ghost use Rattle.overlay_world.specs.Steps.{busy_in};

use crate::actors::Actors;
use crate::fault::StepFault;
use node_model::{Input, Outputs, PeerState};
use security_block::Signer;
use std::alloc::Global;

/// Whether the node with a number hears what comes to it: a client, and a peer that isn't gone.
pub(crate) fn is_hearing(actors: &Actors, number: u32) -> bool
    ensures { result ≡ moves.is_hearing (map.get actors.now number) }
{
    let Some(actor) = actors.get(number) else {
        return false;
    };
    match actor.peer() {
        Some(peer) => !matches!(peer.state(), PeerState::Gone),
        None => true,
    }
}

/// Whether the node with a number is a peer that takes requests of clients.
pub(crate) fn is_asked(actors: &Actors, number: u32) -> bool
    ensures { result ≡ moves.is_asked (map.get actors.now number) }
{
    let Some(actor) = actors.get(number) else {
        return false;
    };
    match actor.peer() {
        Some(peer) => matches!(
            peer.state(),
            PeerState::Member | PeerState::Admitting | PeerState::Leaving
        ),
        None => false,
    }
}

/// Whether the client with a number is busy, or none where there is no such client.
pub(crate) fn is_busy(actors: &Actors, number: u32) -> Option<bool>
    ensures { result ≡ busy_in (map.get actors.now number) }
{
    let client = actors.get(number)?.client()?;
    Some(client.busy())
}

/// The node with a number handles an input, where there is one: what it puts out.
pub(crate) fn act<G: Signer>(
    alloc: Global,
    actors: &mut Actors,
    number: u32,
    now: u64,
    input: Input<'_>,
    signer: &G,
) -> Result<Option<Outputs>, StepFault>
    requires clock { now < 2 ^ 62 }
    ensures outputs { let words = words_of G.certificate_of G.signature_of G.about_of G.verifies
        signer.now
        in IfOk result (λ o. o
        ≡ option_map (λ a. (acts words now (cause_of input.entry) a).outputs)
        (map.get actors.old number)) }
    ensures actors { let words = words_of G.certificate_of G.signature_of G.about_of G.verifies
        signer.now
        in OnOk result (actors.new
        ≡ option_map_or (λ a. map.insert actors.old number
        (acts words now (cause_of input.entry) a).node)
        (map.get actors.old number) actors.old) }
    ensures unheard { IfErr result (IsUnheard number (load_of (map.get actors.old number))) }
{
    actors.handle(alloc, number, now, input, signer)
}
