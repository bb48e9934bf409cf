//! Reading a source to its end.

ghost use Rattle.reload_base.specs.Whole.{ReadsAll};

use crate::list::Bytes;
use crate::no_memory::NoMemory;
use crate::source::{Source, Took};
use std::alloc::Global;

/// The most bytes of the input of a program (this profile).
pub const MAX_INPUT: usize = 16_777_216;

/// The most bytes that are read at once (this profile).
pub const MAX_READ: usize = 4_096;

/// Why a source wasn't read to its end.
#[derive(Clone, Copy, Debug, PartialEq, Eq)]
pub enum ReadError {
    /// A read failed.
    Failed,
    /// There were more bytes than are allowed.
    TooLong,
    /// Memory is missing for the bytes.
    NoMemory,
}

impl From<NoMemory> for ReadError {
    ghost use Rattle.std.specs.Prelude.{◌≡◌};
    ghost use Rattle.reload_base.specs.declared.reading.ReadError.TheVariants as read_error;

    ghost from_gives = { λ _ e. e ≡ read_error.NoMemory };

    fn from(_error: NoMemory) -> ReadError {
        ReadError::NoMemory
    }
}

/// Reads a source to its end, at most `most` bytes. `TooLong` comes with the read that brings more.
/// After an error what was read is dropped.
pub fn read_all<S: Source>(alloc: Global, source: &mut S, most: usize) -> Result<Bytes, ReadError>
    ensures { ReadsAll most (S.view source.old) (S.view source.new) result }
{
    let mut text = Bytes::new(alloc);
    let mut buffer = [0; MAX_READ];
    'pieces: loop {
        match source.read(&mut buffer) {
            Took::Failed => return Err(ReadError::Failed),
            Took::Some(0) => return Ok(text),
            Took::Some(n) => {
                if n > most - text.len() {
                    return Err(ReadError::TooLong);
                }
                text.extend(buffer.split_at(n).0)?;
            }
        }
    }
}
