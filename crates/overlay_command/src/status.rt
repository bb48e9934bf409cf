//! How a call ends.

use reload_base::WriteError;

/// How `overlay` ends.
#[derive(Clone, Copy, Debug, PartialEq, Eq)]
pub enum Status {
    /// The input was read to its end, and the whole output was written.
    Done,
    /// The words are no form of a call.
    Usage,
    /// The source failed.
    ReadFault,
    /// The sink failed. A prefix of the output stands.
    WriteFault,
    /// Memory was missing. A prefix of the output stands.
    NoMemory,
    /// Some line is outside the grammar, and no event was run.
    BadLine,
    /// More than `MAX_INPUT` bytes were read.
    TooLong,
    /// The air failed to send a frame. The lines of the events before stand.
    LinkFault,
    /// The next frame would bring the air over `MAX_AIR` bytes. The lines of the events before
    /// stand.
    AirFull,
    /// The stream isn't whole frames of whole messages.
    BadBytes,
    /// A node that is to handle something has a load of `MAX_LOAD` or more. The lines of the events
    /// before stand.
    NodeFull,
}

impl Status {
    ghost use Rattle.std.specs.Prelude.{◌≡◌};
    ghost use Rattle.overlay_command.specs.Answers.{status_of};
    ghost use Rattle.overlay_command.specs.Top.{exit_status};

    /// The status of a call: that which its last text tells, or that of the write that stopped.
    pub(crate) fn of(told: Result<Status, WriteError>) -> Status
        ensures { result ≡ status_of told }
    {
        match told {
            Ok(status) => status,
            Err(WriteError::Failed) => Status::WriteFault,
            Err(WriteError::NoMemory) => Status::NoMemory,
        }
    }

    /// The exit status of a program that ends so.
    pub fn code(self) -> u8
        ensures { result ≡ exit_status self }
    {
        match self {
            Status::Done => 0,
            Status::Usage => 2,
            Status::ReadFault => 3,
            Status::WriteFault => 4,
            Status::NoMemory => 5,
            Status::BadLine => 6,
            Status::TooLong => 7,
            Status::LinkFault => 8,
            Status::AirFull => 9,
            Status::BadBytes => 10,
            Status::NodeFull => 12,
        }
    }
}
