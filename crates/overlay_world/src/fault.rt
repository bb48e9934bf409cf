//! What stops a step of a world.

use frames_in_flight::FrameError;
use reload_base::NoMemory;
use thiserror::Error;

/// What stops a step of a world (this profile). Behind it the world is only dropped.
#[derive(Clone, Copy, Debug, Error, PartialEq, Eq)]
pub enum StepFault {
    /// The air failed to send a frame, or to give one.
    #[error("link fault")]
    LinkFault,
    /// The next frame would bring the air over `MAX_AIR` bytes: so many bytes were sent before.
    #[error("air full {0}")]
    AirFull(u64),
    /// The node with this number is to handle something, and has a load of `MAX_LOAD` or more.
    #[error("node full {0}")]
    NodeFull(u32),
    /// Memory is missing.
    #[error("out of memory")]
    NoMemory,
}

impl From<NoMemory> for StepFault {
    ghost use Rattle.std.specs.Prelude.{◌≡◌};
    ghost use Rattle.overlay_world.specs.declared.fault.StepFault.TheVariants as faults;

    ghost from_gives = { λ _ fault. fault ≡ faults.NoMemory };

    fn from(_: NoMemory) -> StepFault {
        StepFault::NoMemory
    }
}

impl From<FrameError> for StepFault {
    ghost use Rattle.std.specs.Prelude.{◌≡◌};
    ghost use Rattle.overlay_world.specs.Unread.{of_frame};

    ghost from_gives = { λ error fault. fault ≡ of_frame error };

    fn from(error: FrameError) -> StepFault {
        match error {
            FrameError::Failed => StepFault::LinkFault,
            FrameError::NoMemory => StepFault::NoMemory,
        }
    }
}
