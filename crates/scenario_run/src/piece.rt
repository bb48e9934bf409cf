//! The pieces of a transcript: its declarations, the lines of an event, and its end.

ghost use Rattle.std.specs.Prelude.{◌≡◌, ◌≤◌, ◌++◌, IfOk, IfErr, OnOk};
ghost use Rattle.reload_base.specs.Outside.{size_of};
ghost use Rattle.reload_base.specs.Whole.{WritesAll};
ghost use Rattle.node_messages.specs.Signed.{words_of};
ghost use Rattle.run_model.specs.declared.limits.TheConstants.{MAX_AIR};
ghost use Rattle.run_model.specs.Worlds.{bytes_in};
ghost use Rattle.run_model.specs.Moves.{moved};
ghost use Rattle.overlay_world.specs.Standings.{world_in, IsHeld};
ghost use Rattle.overlay_world.specs.Steps.{IsInTime};
ghost use Rattle.scenario_moves.specs.Moves.{move_of};
ghost use Rattle.scenario_text.specs.Echo.{echo};
ghost use Rattle.scenario_run.specs.Runs.{event_of};
ghost use Rattle.scenario_run.specs.Texts.{traced_text, event_text, end_text};
ghost use Rattle.scenario_run.specs.Outcomes.{Sends};
ghost use Rattle.scenario_run.specs.Broken.{EventStops, IsUntold};

use overlay_world::{StepFault, World};
use reload_base::{Air, Bytes, Sink, WriteError, write_all};
use run_text::{put_end, put_frames};
use scenario_moves::move_of;
use scenario_text::{Event, Scenario, put_echo};
use security_block::Signer;
use std::alloc::Global;

/// Writes the declarations.
pub(crate) fn write_echo<K: Sink>(
    alloc: Global,
    scenario: &Scenario,
    sink: &mut K,
) -> Result<(), WriteError>
    ensures { WritesAll (K.view sink.old) (K.view sink.new) (echo scenario.now) result }
{
    let mut piece = Bytes::new(alloc);
    put_echo(&mut piece, scenario)?;
    write_all(sink, piece.as_slice())
}

/// Appends the lines of the frames behind the first `from`, if frames are traced.
fn put_traced<A: Air>(
    alloc: Global,
    out: &mut Bytes,
    traced: bool,
    air: &mut A,
    from: usize,
) -> Result<(), StepFault>
    ensures text { OnOk result (out.new
        ≡ out.old ++ traced_text traced from (A.view air.old).sent) }
    ensures same { OnOk result (A.view air.new ≡ A.view air.old) }
    ensures untold { IfErr result (IsUntold (A.view air.old) (A.view air.new)) }
{
    if traced {
        put_frames(alloc, out, air, from)?;
    }
    Ok(())
}

/// Moves the world by an event: the lines of what happens, and of the frames that are sent, if
/// frames are traced.
#[tactic(auto, unfolding(crate::specs::Texts::event_text))]
pub(crate) fn event_piece<A: Air, G: Signer>(
    alloc: Global,
    traced: bool,
    world: &mut World,
    event: &Event,
    air: &mut A,
    signer: &G,
) -> Result<Bytes, StepFault>
    requires clock { IsInTime (move_of event.now.what) (world_in world.old (A.view air.old)) }
    requires air { IsHeld world.old (A.view air.old) }
    requires room { size_of (A.view air.old).sent ≤ MAX_AIR }
    ensures piece { let words = words_of G.certificate_of G.signature_of G.about_of G.verifies
        signer.now in let w = world_in world.old (A.view air.old)
        in IfOk result (λ piece. piece ≡ event_text traced w
        (moved words event.now.line (move_of event.now.what) w)) }
    ensures world { let words = words_of G.certificate_of G.signature_of G.about_of G.verifies
        signer.now in let w = world_in world.old (A.view air.old)
        in OnOk result (world_in world.new (A.view air.new)
        ≡ (moved words event.now.line (move_of event.now.what) w).world) }
    ensures air { let words = words_of G.certificate_of G.signature_of G.about_of G.verifies
        signer.now in let w = world_in world.old (A.view air.old)
        in OnOk result (Sends (A.view air.old) (A.view air.new)
        (moved words event.now.line (move_of event.now.what) w).world) }
    ensures room { OnOk result (size_of (A.view air.new).sent ≤ MAX_AIR) }
    ensures stopped { let words = words_of G.certificate_of G.signature_of G.about_of G.verifies
        signer.now in let w = world_in world.old (A.view air.old)
        in IfErr result (EventStops words w (event_of event.now)
        (A.view air.old) (A.view air.new)) }
{
    let what = move_of(alloc, &event.what)?;
    let sent = world.sent();
    let mut piece = Bytes::new(alloc);
    world.step(alloc, event.line, what, air, signer, &mut piece)?;
    put_traced(alloc, &mut piece, traced, air, sent)?;
    Ok(piece)
}

/// How many bytes the frames of a world have together, which an air has.
fn bytes_sent<A: Air>(world: &World, air: &A) -> u64
    requires { IsHeld world.now (A.view air.now) }
    ensures { result ≡ bytes_in (world_in world.now (A.view air.now)).flights }
{
    let _world = world;
    air.size()
}

/// Writes the last line.
#[tactic(auto, using(crate::proofs::Ends::counts_are), unfolding(crate::specs::Texts::end_text))]
pub(crate) fn write_end<K: Sink, A: Air>(
    alloc: Global,
    world: &World,
    air: &A,
    sink: &mut K,
) -> Result<(), WriteError>
    requires { IsHeld world.now (A.view air.now) }
    ensures { WritesAll (K.view sink.old) (K.view sink.new)
        (end_text (world_in world.now (A.view air.now))) result }
{
    let frames = world.sent() as u64;
    let bytes = bytes_sent(world, air);
    let mut piece = Bytes::new(alloc);
    put_end(&mut piece, frames, bytes, world.now(), world.settled())?;
    write_all(sink, piece.as_slice())
}
