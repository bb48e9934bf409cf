//! What nodes put out: frames that they send, and what they tell.

ghost use Rattle.std.specs.Prelude.{◌≡◌, ◌<◌, ◌≤◌, ◌++◌, All, length, map, IfOk, IfErr, OnOk};
ghost use Rattle.reload_base.specs.Outside.{size_of};
ghost use Rattle.run_model.specs.declared.happening.Happening.TheVariants.{Tells};
ghost use Rattle.run_model.specs.declared.limits.TheConstants.{MAX_AIR};
ghost use Rattle.run_model.specs.Worlds.{flight_of};
ghost use Rattle.run_model.specs.Stops.{air_frame};
ghost use Rattle.run_text.specs.Lines.{happened_text};
ghost use Rattle.overlay_world.specs.Sendings.{sent_by, waiting_for, HasBytes, with_frame, with_frames, IsUnsent, Halts, IsNone};

use crate::fault::StepFault;
use crate::names::Names;
use frames_in_flight::Fates;
use node_model::{Notice, Outputs};
use reload_base::{Air, Bytes, List, NoMemory, Sent};
use reload_ids::NodeId;
use run_model::{Happening, MAX_AIR};
use run_text::put_happening;
use std::alloc::Global;

/// Sends bytes as one frame, where they fit the air.
#[tactic(auto, using(reload_base::proofs::Frames::size_of_push))]
fn send_bytes<A: Air>(
    alloc: Global,
    air: &mut A,
    from: u32,
    to: u32,
    bytes: &[u8],
) -> Result<(), StepFault>
    requires some { 0 < length bytes.now }
    requires room { size_of (A.view air.old).sent ≤ MAX_AIR }
    ensures sent { OnOk result (A.view air.new ≡ with_frame (A.view air.old)
        (record { from = from; to = to; bytes = bytes.now })) }
    ensures room { OnOk result (size_of (A.view air.new).sent ≤ MAX_AIR) }
    ensures unsent { IfErr result (IsUnsent (record { from = from; to = to; bytes = bytes.now })
        (A.view air.old) (A.view air.new)) }
{
    let before = air.size();
    if MAX_AIR - before < bytes.len() as u64 {
        return Err(StepFault::AirFull(before));
    }
    match air.send(alloc, from, to, bytes) {
        Sent::Ok => Ok(()),
        Sent::Failed => Err(StepFault::LinkFault),
        Sent::NoMemory => Err(StepFault::NoMemory),
    }
}

/// Sends a frame of the node with a number.
fn send<A: Air>(
    alloc: Global,
    air: &mut A,
    names: &Names,
    from: u32,
    frame: (NodeId, Bytes),
) -> Result<(), StepFault>
    requires some { HasBytes frame }
    requires room { size_of (A.view air.old).sent ≤ MAX_AIR }
    ensures sent { OnOk result (A.view air.new
        ≡ with_frame (A.view air.old) (air_frame (flight_of names.now from frame))) }
    ensures room { OnOk result (size_of (A.view air.new).sent ≤ MAX_AIR) }
    ensures unsent { IfErr result (IsUnsent (air_frame (flight_of names.now from frame))
        (A.view air.old) (A.view air.new)) }
{
    let (to, bytes) = frame;
    let hearer = names.number_of(to);
    send_bytes(alloc, air, from, hearer, bytes.as_slice())
}

/// Sends the frames of the node with a number in their order. Each of them waits then.
fn send_all<A: Air>(
    alloc: Global,
    air: &mut A,
    names: &Names,
    fates: &mut Fates,
    from: u32,
    frames: List<(NodeId, Bytes)>,
) -> Result<(), StepFault>
    requires some { All HasBytes frames }
    requires room { size_of (A.view air.old).sent ≤ MAX_AIR }
    ensures fates { OnOk result (fates.new ≡ fates.old ++ waiting_for frames) }
    ensures sent { OnOk result (A.view air.new
        ≡ with_frames (A.view air.old) (sent_by names.now from frames)) }
    ensures room { OnOk result (size_of (A.view air.new).sent ≤ MAX_AIR) }
    ensures stopped { IfErr result (
        Halts ((A.view air.old).sent ++ sent_by names.now from frames) IsNone
        (A.view air.old) (A.view air.new)) }
{
    for frame in frames.into_vec() {
        send(alloc, air, names, from, frame)?;
        fates.add()?;
    }
    Ok(())
}

/// Appends the lines of what the node with a number tells.
#[tactic(auto, unfolding(run_text::specs::Lines::happened_text))]
fn tell(out: &mut Bytes, names: &Names, number: u32, notices: List<Notice>) -> Result<(), NoMemory>
    ensures { OnOk result (out.new
        ≡ out.old ++ happened_text names.now (map (Tells number) notices)) }
{
    for notice in notices.into_vec() {
        put_happening(out, names.as_slice(), &Happening::Tells { number, notice })?;
    }
    Ok(())
}

/// What the node with a number puts out: its frames are sent and wait, and the lines of what it
/// tells are appended.
pub(crate) fn put_out<A: Air>(
    alloc: Global,
    air: &mut A,
    names: &Names,
    fates: &mut Fates,
    number: u32,
    outputs: Outputs,
    out: &mut Bytes,
) -> Result<(), StepFault>
    requires some { All HasBytes outputs.frames }
    requires room { size_of (A.view air.old).sent ≤ MAX_AIR }
    ensures fates { OnOk result (fates.new ≡ fates.old ++ waiting_for outputs.frames) }
    ensures told { OnOk result (out.new
        ≡ out.old ++ happened_text names.now (map (Tells number) outputs.notices)) }
    ensures sent { OnOk result (A.view air.new
        ≡ with_frames (A.view air.old) (sent_by names.now number outputs.frames)) }
    ensures room { OnOk result (size_of (A.view air.new).sent ≤ MAX_AIR) }
    ensures stopped { IfErr result (
        Halts ((A.view air.old).sent ++ sent_by names.now number outputs.frames) IsNone
        (A.view air.old) (A.view air.new)) }
{
    let Outputs { frames, notices } = outputs;
    send_all(alloc, air, names, fates, number, frames)?;
    tell(out, names, number, notices)?;
    Ok(())
}
