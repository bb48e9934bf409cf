//! Frames that are read from an air.

ghost use Rattle.std.specs.Prelude.{◌≡◌, ◌<◌, length, slice_get, Some, IfOk, IfErr, OnOk};
ghost use Rattle.frames_in_flight.specs.Reading.{IsUnread};

use reload_base::{Air, AirFrame, Got, NoMemory};
use std::alloc::Global;

/// Why a frame wasn't read from an air (this profile).
#[derive(Clone, Copy, Debug, PartialEq, Eq)]
pub enum FrameError {
    /// The air failed to give it.
    Failed,
    /// Memory is missing.
    NoMemory,
}

impl From<NoMemory> for FrameError {
    ghost use Rattle.std.specs.Prelude.{◌≡◌};
    ghost use Rattle.frames_in_flight.specs.declared.reading.FrameError.TheVariants as errors;

    ghost from_gives = { λ _ error. error ≡ errors.NoMemory };

    fn from(_: NoMemory) -> FrameError {
        FrameError::NoMemory
    }
}

/// A copy of the frame at a place of an air, counted from 0.
pub fn frame_at<A: Air>(alloc: Global, air: &mut A, at: usize) -> Result<AirFrame, FrameError>
    requires { at < length (A.view air.old).sent }
    ensures frame { IfOk result (λ f. slice_get (A.view air.old).sent at ≡ Some f) }
    ensures same { OnOk result (A.view air.new ≡ A.view air.old) }
    ensures unread { IfErr result (IsUnread (A.view air.old) (A.view air.new)) }
{
    let _count = air.frames();
    match air.frame(alloc, at as u64 + 1) {
        Got::Frame(frame) => Ok(frame),
        Got::Failed => Err(FrameError::Failed),
        Got::NoMemory => Err(FrameError::NoMemory),
    }
}
