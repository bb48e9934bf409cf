//! Writing a whole piece to a sink.

ghost use Rattle.reload_base.specs.Whole.{WritesAll};

use crate::no_memory::NoMemory;
use crate::sink::{Sink, Wrote};

/// Why a piece wasn't written whole.
#[derive(Clone, Copy, Debug, PartialEq, Eq)]
pub enum WriteError {
    /// A write failed.
    Failed,
    /// Memory is missing.
    NoMemory,
}

impl From<NoMemory> for WriteError {
    ghost use Rattle.std.specs.Prelude.{◌≡◌};
    ghost use Rattle.reload_base.specs.declared.writing.WriteError.TheVariants as write_error;

    ghost from_gives = { λ _ e. e ≡ write_error.NoMemory };

    fn from(_error: NoMemory) -> WriteError {
        WriteError::NoMemory
    }
}

/// Writes a piece on until the sink has taken it whole. An empty piece writes nothing. After an
/// error a front of the piece stands in the sink.
pub fn write_all<K: Sink>(sink: &mut K, piece: &[u8]) -> Result<(), WriteError>
    ensures { WritesAll (K.view sink.old) (K.view sink.new) piece.now result }
{
    let mut rest = piece;
    'pieces: while !rest.is_empty() {
        match sink.write(rest) {
            Wrote::Some(n) => rest = rest.split_at(n).1,
            Wrote::Failed => return Err(WriteError::Failed),
            Wrote::NoMemory => return Err(WriteError::NoMemory),
        }
    }
    Ok(())
}
