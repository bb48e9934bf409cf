//! What stops a run.

use overlay_world::StepFault;
use reload_base::{NoMemory, WriteError};

/// What stops a run (this profile).
#[derive(Clone, Copy, Debug, PartialEq, Eq)]
pub enum RunFault {
    /// The air failed to send a frame, or to give one. The lines of the events before stand.
    LinkFault,
    /// The next frame would bring the air over `MAX_AIR` bytes: so many bytes were sent before. The
    /// lines of the events before stand.
    AirFull(u64),
    /// The node with this number is to handle something, and has a load of `MAX_LOAD` or more. The
    /// lines of the events before stand.
    NodeFull(u32),
    /// The sink failed. A front of the transcript stands.
    WriteFault,
    /// Memory is missing. A front of the transcript stands.
    NoMemory,
}

impl From<NoMemory> for RunFault {
    ghost use Rattle.std.specs.Prelude.{◌≡◌};
    ghost use Rattle.scenario_run.specs.declared.fault.RunFault.TheVariants as faults;

    ghost from_gives = { λ _ fault. fault ≡ faults.NoMemory };

    fn from(_: NoMemory) -> RunFault {
        RunFault::NoMemory
    }
}

impl From<StepFault> for RunFault {
    ghost use Rattle.std.specs.Prelude.{◌≡◌};
    ghost use Rattle.scenario_run.specs.Broken.{of_step};

    ghost from_gives = { λ step fault. fault ≡ of_step step };

    fn from(step: StepFault) -> RunFault {
        match step {
            StepFault::LinkFault => RunFault::LinkFault,
            StepFault::AirFull(bytes) => RunFault::AirFull(bytes),
            StepFault::NodeFull(number) => RunFault::NodeFull(number),
            StepFault::NoMemory => RunFault::NoMemory,
        }
    }
}

impl From<WriteError> for RunFault {
    ghost use Rattle.std.specs.Prelude.{◌≡◌};
    ghost use Rattle.scenario_run.specs.Broken.{of_write};

    ghost from_gives = { λ error fault. fault ≡ of_write error };

    fn from(error: WriteError) -> RunFault {
        match error {
            WriteError::Failed => RunFault::WriteFault,
            WriteError::NoMemory => RunFault::NoMemory,
        }
    }
}
