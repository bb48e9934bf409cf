//! What carries frames from node to node.

ghost use Rattle.std.specs.Prelude.{◌≡◌, ℕ, ◌+◌, ◌^◌, ◌<◌, ◌≤◌, length};
ghost use Rattle.reload_base.specs.Outside.{AirView, Sends, Gets, HoldBytes, size_of};

use crate::list::Bytes;
use std::alloc::Global;

/// A frame, with the numbers of the node that sent it and of the one that it goes to.
#[derive(Debug, Drop)]
pub struct AirFrame {
    pub from: u32,
    pub to: u32,
    pub bytes: Bytes,
}

/// What became of a send.
#[derive(Clone, Copy, Debug, PartialEq, Eq)]
pub enum Sent {
    /// The frame is behind those that were sent before.
    Ok,
    /// Nothing was sent, and the air's count of faults rose.
    Failed,
    /// Nothing was sent for want of memory.
    NoMemory,
}

/// What is given of a frame.
#[derive(Debug, Drop)]
pub enum Got {
    /// The frame.
    Frame(AirFrame),
    /// Nothing is given, and the air's count of faults rose.
    Failed,
    /// Nothing is given for want of memory.
    NoMemory,
}

/// Frames that go from node to node, numbered from 1 in the order in which they were sent.
pub trait Air {
    /// The frames that were sent, and how many calls failed.
    ghost view: { Self → AirView };

    /// Sends bytes, which aren't empty, as one frame.
    fn send(&mut self, alloc: Global, from: u32, to: u32, bytes: &[u8]) -> Sent
        requires some { 0 < length bytes.now }
        requires room { size_of (view self.old).sent + length bytes.now < 2 ^ 63 }
        ensures { Sends (view self.old) (view self.new) result
            (record { from = from; to = to; bytes = bytes.now }) };

    /// The k-th frame, counted from 1. All frames stay as they are.
    fn frame(&mut self, alloc: Global, k: u64) -> Got
        requires first { 1 ≤ k }
        requires last { k ≤ length (view self.old).sent }
        ensures { Gets (view self.old) (view self.new) k result };

    /// The number of frames.
    fn frames(&self) -> u64
        ensures value { result ≡ length (view self.now).sent }
        ensures few { result ≤ size_of (view self.now).sent }
        ensures bytes { HoldBytes (view self.now).sent };

    /// How many bytes the frames have together.
    fn size(&self) -> u64
        ensures { result ≡ size_of (view self.now).sent };
}
