//! The frames of a run.

ghost use Rattle.std.specs.Prelude.{◌≡◌, ◌<◌, length, take, IfErr, OnOk, OnErr};
ghost use Rattle.text_words.specs.Codec.{Appended, AppendedSome};
ghost use Rattle.text_words.specs.Lines.{ended};
ghost use Rattle.frames_in_flight.specs.Reading.{IsUnread};
ghost use Rattle.run_text.specs.Lines.{flown_text, frame_at, frame_line, frames_text};

use frames_in_flight::{FrameError, frame_at};
use reload_base::{Air, AirFrame, Bytes, NoMemory};
use std::alloc::Global;
use text_words::{put_decimal, put_hex};

// Appends frame K FROM TO.
#[tactic(auto, unfolding(crate::specs::Lines::flown_text))]
fn put_flown(out: &mut Bytes, number: u64, frame: &AirFrame) -> Result<(), NoMemory>
    ensures { AppendedSome out.old out.new (flown_text number frame.now) result }
{
    out.extend(b"frame ")?;
    put_decimal(out, number)?;
    out.extend(b" ")?;
    put_decimal(out, u64::from(frame.from))?;
    out.extend(b" ")?;
    put_decimal(out, u64::from(frame.to))
}

// Appends frame K FROM TO HEX.
#[tactic(auto, unfolding(crate::specs::Lines::frame_line))]
fn put_frame(out: &mut Bytes, number: u64, frame: &AirFrame) -> Result<(), NoMemory>
    ensures { AppendedSome out.old out.new (ended (frame_line number frame.now)) result }
{
    put_flown(out, number, frame)?;
    out.extend(b" ")?;
    put_hex(out, frame.bytes.as_slice())?;
    out.extend(b"\n")
}

// Appends the line of the frame at a place.
#[tactic(auto, unfolding(crate::specs::Lines::frame_at))]
fn put_frame_at<A: Air>(
    alloc: Global,
    out: &mut Bytes,
    air: &mut A,
    at: usize,
) -> Result<(), FrameError>
    requires { at < length (A.view air.old).sent }
    ensures line { AppendedSome out.old out.new (frame_at at (A.view air.old).sent) result }
    ensures same { OnOk result (A.view air.new ≡ A.view air.old) }
    ensures unread { IfErr result (IsUnread (A.view air.old) (A.view air.new)) }
{
    let _count = air.frames();
    let frame = frame_at(alloc, air, at)?;
    put_frame(out, at as u64 + 1, &frame)?;
    Ok(())
}

// Appends the lines of the frames behind the first ones, and after an error some of them.
fn put_all_frames<A: Air>(
    alloc: Global,
    out: &mut Bytes,
    air: &mut A,
    from: usize,
) -> Result<(), FrameError>
    ensures lines { AppendedSome out.old out.new (frames_text from (A.view air.old).sent) result }
    ensures same { OnOk result (A.view air.new ≡ A.view air.old) }
    ensures unread { IfErr result (IsUnread (A.view air.old) (A.view air.new)) }
{
    let mut at = from;
    'frames: while (at as u64) < air.frames() {
        put_frame_at(alloc, out, air, at)?;
        at += 1;
    }
    Ok(())
}

// Cuts off what stands behind a length, where a call that appended in parts stopped.
fn cut_back(out: &mut Bytes, before: usize, appended: &Result<(), FrameError>)
    ensures ok { OnOk appended.now (out.new ≡ out.old) }
    ensures err { OnErr appended.now (out.new ≡ take before out.old) }
{
    if appended.is_err() {
        out.truncate(before);
    }
}

/// Appends `frame K FROM TO HEX` for each of the frames behind the first `from`. K counts all
/// frames from 1, FROM and TO are the numbers of the nodes, and HEX is the frame.
pub fn put_frames<A: Air>(
    alloc: Global,
    out: &mut Bytes,
    air: &mut A,
    from: usize,
) -> Result<(), FrameError>
    ensures lines { Appended out.old out.new (frames_text from (A.view air.old).sent) result }
    ensures same { OnOk result (A.view air.new ≡ A.view air.old) }
    ensures unread { IfErr result (IsUnread (A.view air.old) (A.view air.new)) }
{
    let before = out.len();
    let appended = put_all_frames(alloc, out, air, from);
    cut_back(out, before, &appended);
    appended
}
