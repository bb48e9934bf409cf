//! A sink over a writer of std.

ghost use Rattle.std.specs.Prelude.{◌≡◌, ◌≢◌, ℕ, ◌<◌, length};
ghost use Rattle.reload_base.specs.Outside.{Writes};

use crate::sink::{Sink, Wrote};
use std::io::Write;

/// A writer as a sink, which tells of the bytes that were written what the writer tells. Each `Err`
/// of the writer is a fault, and so is each write that takes no byte. The count of faults ends at
/// 2^64 - 1.
#[derive(Debug, Drop)]
pub struct StdSink<W> {
    writer: W,
    faults: u64,
}

impl<W: Write + Drop> StdSink<W> {
    /// The sink over a writer, without a fault.
    pub fn new(writer: W) -> StdSink<W>
        ensures { ⟦<StdSink<W> as Sink>⟧.view result
            ≡ record { written = W.contents writer; faults = 0 } }
    {
        StdSink { writer, faults: 0 }
    }
}

impl<W: Write + Drop> Sink for StdSink<W> {
    ghost view = { λ s. record { written = W.contents s.writer; faults = s.faults } };

    fn write(&mut self, piece: &[u8]) -> Wrote
        requires { 0 < length piece.now }
        ensures written { Writes (⟦<StdSink<W> as Sink>⟧.view self.old)
            (⟦<StdSink<W> as Sink>⟧.view self.new) result piece.now }
        ensures memory { result ≢ Wrote.NoMemory }
    {
        match self.writer.write(piece) {
            Ok(n) if n > 0 => Wrote::Some(n),
            _ => {
                self.faults = self.faults.saturating_add(1);
                Wrote::Failed
            }
        }
    }
}
