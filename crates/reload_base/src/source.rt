//! Where bytes come from.

ghost use Rattle.std.specs.Prelude.{ℕ, ◌<◌, length};
ghost use Rattle.reload_base.specs.Outside.{SourceView, Reads};

/// What a read took.
#[derive(Clone, Copy, Debug, PartialEq, Eq)]
pub enum Took {
    /// The number of bytes that were moved, 0 exactly at the end.
    Some(usize),
    /// Nothing was taken, and the source's count of faults rose.
    Failed,
}

/// Bytes that are read from the front to the end.
pub trait Source {
    /// The bytes that are left, where the source tells, and how many reads failed.
    ghost view: { Self → SourceView };

    /// Moves bytes that are left to the front of a buffer, which isn't empty.
    fn read(&mut self, buf: &mut [u8]) -> Took
        requires { 0 < length buf.old }
        ensures { Reads (view self.old) (view self.new) result buf.new };
}
