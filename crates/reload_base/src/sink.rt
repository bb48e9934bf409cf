//! Where bytes go.

ghost use Rattle.std.specs.Prelude.{ℕ, ◌<◌, length};
ghost use Rattle.reload_base.specs.Outside.{SinkView, Writes};

/// What a write appended.
#[derive(Clone, Copy, Debug, PartialEq, Eq)]
pub enum Wrote {
    /// The number of bytes, at least 1, from the front of the piece.
    Some(usize),
    /// Nothing was appended, and the sink's count of faults rose.
    Failed,
    /// Nothing was appended for want of memory.
    NoMemory,
}

/// Bytes that are written one piece after the other.
pub trait Sink {
    /// The bytes that were written, where the sink tells, and how many writes failed.
    ghost view: { Self → SinkView };

    /// Appends bytes from the front of a piece, which isn't empty.
    fn write(&mut self, piece: &[u8]) -> Wrote
        requires { 0 < length piece.now }
        ensures { Writes (view self.old) (view self.new) result piece.now };
}
