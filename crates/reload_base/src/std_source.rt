//! A source over a reader of std.

ghost use Rattle.std.specs.Prelude.{◌≡◌};

use crate::source::{Source, Took};
use std::io::Read;

/// A reader as a source, which tells of the bytes that are left what the reader tells. Each `Err`
/// of the reader is a fault, an interrupted read too, and an `Ok(0)` is the end. The count of
/// faults ends at 2^64 - 1.
#[derive(Debug, Drop)]
pub struct StdSource<R> {
    reader: R,
    faults: u64,
}

impl<R: Read + Drop> StdSource<R> {
    /// The source over a reader, without a fault.
    pub fn new(reader: R) -> StdSource<R>
        ensures { ⟦<StdSource<R> as Source>⟧.view result
            ≡ record { left = R.remaining reader; faults = 0 } }
    {
        StdSource { reader, faults: 0 }
    }
}

impl<R: Read + Drop> Source for StdSource<R> {
    ghost view = { λ s. record { left = R.remaining s.reader; faults = s.faults } };

    fn read(&mut self, buf: &mut [u8]) -> Took {
        match self.reader.read(buf) {
            Ok(n) => Took::Some(n),
            Err(_) => {
                self.faults = self.faults.saturating_add(1);
                Took::Failed
            }
        }
    }
}
