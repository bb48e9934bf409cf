//! The last texts of a call, and the statuses that they tell.

ghost use Rattle.std.specs.Prelude.{◌≡◌};
ghost use Rattle.text_words.specs.Lines.{ended};
ghost use Rattle.transcript_text.specs.Transcript.{bad_line, air_full_line, node_full_line};
ghost use Rattle.overlay_command.specs.Top.{usage_line, too_long_line};
ghost use Rattle.overlay_command.specs.Answers.{TellsStatus, TellsFault};

use crate::status::Status;
use reload_base::{Bytes, Sink, WriteError, write_all};
use scenario_run::RunFault;
use std::alloc::Global;
use transcript_text::{put_air_full_line, put_bad_line, put_node_full_line};

/// Writes a last text, and answers the status that it tells.
pub fn tell<K: Sink>(last: &[u8], status: Status, sink: &mut K) -> Result<Status, WriteError>
    ensures { TellsStatus (K.view sink.old) (K.view sink.new) last.now status result }
{
    write_all(sink, last)?;
    Ok(status)
}

/// The line that says which words a call has.
#[tactic(auto, unfolding(crate::specs::Top::usage_line))]
pub fn usage_line() -> &'static [u8]
    ensures { result.now ≡ ended usage_line }
{
    b"usage: overlay run|trace|show\n"
}

/// The line for an input that is too long.
#[tactic(auto, unfolding(crate::specs::Top::too_long_line))]
pub fn too_long_line() -> &'static [u8]
    ensures { result.now ≡ ended too_long_line }
{
    b"too long\n"
}

/// Tells the first bad line.
pub fn tell_bad_line<K: Sink>(alloc: Global, n: u64, sink: &mut K) -> Result<Status, WriteError>
    ensures { TellsStatus (K.view sink.old) (K.view sink.new) (ended (bad_line n)) Status.BadLine
        result }
{
    let mut line = Bytes::new(alloc);
    put_bad_line(&mut line, n)?;
    tell(line.as_slice(), Status::BadLine, sink)
}

// Tells how many bytes an air holds that has no room for the next frame.
fn tell_air_full<K: Sink>(alloc: Global, bytes: u64, sink: &mut K) -> Result<Status, WriteError>
    ensures { TellsStatus (K.view sink.old) (K.view sink.new) (ended (air_full_line bytes))
        Status.AirFull result }
{
    let mut line = Bytes::new(alloc);
    put_air_full_line(&mut line, bytes)?;
    tell(line.as_slice(), Status::AirFull, sink)
}

// Tells the number of a node whose load is full.
fn tell_node_full<K: Sink>(alloc: Global, number: u32, sink: &mut K) -> Result<Status, WriteError>
    ensures { TellsStatus (K.view sink.old) (K.view sink.new) (ended (node_full_line number))
        Status.NodeFull result }
{
    let mut line = Bytes::new(alloc);
    put_node_full_line(&mut line, number)?;
    tell(line.as_slice(), Status::NodeFull, sink)
}

/// Tells what stopped a run.
pub fn tell_fault<K: Sink>(
    alloc: Global,
    fault: RunFault,
    sink: &mut K,
) -> Result<Status, WriteError>
    ensures { TellsFault fault (K.view sink.old) (K.view sink.new) result }
{
    match fault {
        RunFault::LinkFault => Ok(Status::LinkFault),
        RunFault::AirFull(bytes) => tell_air_full(alloc, bytes, sink),
        RunFault::NodeFull(number) => tell_node_full(alloc, number, sink),
        RunFault::WriteFault => Err(WriteError::Failed),
        RunFault::NoMemory => Err(WriteError::NoMemory),
    }
}
