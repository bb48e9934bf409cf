//! A reader of the frames of a stream that comes in pieces.

ghost use Rattle.std.specs.Prelude.{◌≡◌, ◌⊎◌, ◌+◌, ◌^◌, ◌<◌, ◌≤◌, ◌↔◌, ℕ, List, ◌++◌, length, drop, OnOk, OnErr, MatchResult, IfOk, MatchOption, Ok, Err, Some, None};
ghost use Rattle.std.specs.Option.{IfSome};
ghost use Rattle.wire_core.specs.Part.{end_of, behind};
ghost use Rattle.link_framing.specs.declared.frame.Frame.{Frame};
ghost use Rattle.link_framing.specs.Framing.{frame, IsFrame};
ghost use Rattle.link_framing.specs.Held.{IsLean};
ghost use Rattle.link_framing.specs.Finds.{Gives};
ghost use Rattle.link_framing.specs.Streams.{IsPartial, IsBadType, IsTooLarge, IsMissing, Takes, fed, nothing, wanted};

use crate::frame::{Frame, FrameFault};
use crate::front::{first_frame, lasting, wanted_by};
use reload_base::NoMemory;
use std::alloc::Global;
use std::marker::Model;

/// The bytes of a stream that were fed and not yet taken. Contracts see them as a part of the
/// stream: the place of the first of them, which is the number of bytes taken, and the bytes.
/// Beside them they see how many bytes the reader keeps, which are at most twice as many.
#[derive(Debug, Drop)]
pub struct FrameReader {
    alloc: Global,
    buffer: Vec<u8>,
    /// Where the held bytes begin. What stands before was taken, and leaves the buffer once it is
    /// more than half of it, so that over a whole stream at most two bytes are moved for each byte
    /// taken.
    start: usize,
    place: u64,
}

impl Model for FrameReader {
    ghost use Rattle.std.specs.Prelude.{◌+◌, ◌-◌, ◌*◌, ◌≤◌, ◌<◌, ◌^◌, length, drop};
    ghost use Rattle.link_framing.specs.Held.{Held};

    ghost Value = { Held };

    ghost view = { λ r. record {
      left = record { place = r.place; bytes = drop r.start r.buffer.items };
      kept = length r.buffer.items;
    } };

    ghost invariant = { λ r. (2 * r.start ≤ length r.buffer.items)
        × (r.place + (length r.buffer.items - r.start) < 2 ^ 63) };
}

impl FrameReader {
    /// A reader at the front of a stream.
    pub fn new(alloc: Global) -> FrameReader
        ensures { result ≡ record { left = nothing; kept = 0 } }
    {
        FrameReader {
            alloc,
            buffer: Vec::new(alloc),
            start: 0,
            place: 0,
        }
    }

    /// The number of bytes fed so far.
    pub fn fed(&self) -> u64
        ensures count { result ≡ end_of self.now.left }
        ensures small { result < 2 ^ 63 }
    {
        self.place + (self.buffer.len() - self.start) as u64
    }

    /// The number of bytes that it keeps in memory for those that were fed and not taken.
    pub fn kept(&self) -> usize
        ensures count { result ≡ self.now.kept }
        ensures lean { IsLean self.now }
    {
        self.buffer.len()
    }

    /// The next piece of the stream, which may be cut anywhere. After `NoMemory` the reader is as
    /// before.
    pub fn feed(&mut self, piece: &[u8]) -> Result<(), NoMemory>
        requires { end_of self.old.left + length piece.now < 2 ^ 63 }
        ensures ok { OnOk result (self.new.left ≡ fed piece.now self.old.left) }
        ensures err { OnErr result (self.new ≡ self.old) }
    {
        self.buffer.extend_from_slice(piece)?;
        Ok(())
    }

    /// Takes the next frame, if it is whole. A fault stays for good: each later call answers it
    /// again, whatever is fed.
    pub fn take(&mut self) -> Result<Option<Frame>, FrameFault>
        // A frame is taken from the front, or the reader is as before.
        ensures frame { IfOk result (λ taken.
            IfSome taken (λ first. Takes first self.old.left self.new.left)) }
        ensures kept { MatchResult result
            (λ taken. MatchOption taken (self.new ≡ self.old) (λ _. Unit {0}))
            (λ _. self.new ≡ self.old) }

        // What begins with a frame's spelling is taken as that frame, whatever follows, unless
        // memory runs out.
        ensures only { (first : Frame) (rest : List ℕ) → IsFrame first
            → self.old.left.bytes ≡ frame first ++ rest
            → (result ≡ Ok (Some first)) ⊎ (result ≡ Err FrameFault.NoMemory) }
        // When each other answer comes.
        ensures none { (result ≡ Ok None) ↔ IsPartial self.old.left.bytes }
        ensures bad_type { (place : ℕ) → (result ≡ Err (FrameFault.BadType place))
            ↔ (IsBadType self.old.left.bytes × (place ≡ self.old.left.place)) }
        ensures too_large { (place : ℕ) → (result ≡ Err (FrameFault.TooLarge place))
            ↔ (IsTooLarge self.old.left.bytes × (place ≡ self.old.left.place + 5)) }
    {
        self.take_front()
    }

    // The same by cases.
    fn take_front(&mut self) -> Result<Option<Frame>, FrameFault>
        ensures { Gives result self.old self.new }
    {
        match first_frame(self.held(), self.place()) {
            Ok(Some((view, len))) => {
                let frame = view.to_frame(self.allocator())?;
                self.pass(len);
                Ok(Some(frame))
            }
            Ok(None) => Ok(None),
            Err(bad) => Err(lasting(bad)),
        }
    }

    /// The number of bytes that surely are missing to the next frame or, where none can come any
    /// more, to the fault. It is 0 where a frame or a fault is ready.
    pub fn wanted(&self) -> u64
        ensures value { result ≡ wanted self.now.left.bytes }
        ensures missing { IsMissing self.now.left.bytes result }
    {
        wanted_by(self.held())
    }

    fn allocator(&self) -> Global {
        self.alloc
    }

    /// The bytes that were fed and not taken.
    fn held(&self) -> &[u8]
        ensures { result.now ≡ self.now.left.bytes }
    {
        self.buffer.as_slice().split_at(self.start).1
    }

    /// The place of the first of them.
    fn place(&self) -> u64
        ensures value { result ≡ self.now.left.place }
        ensures small { result + length self.now.left.bytes < 2 ^ 63 }
    {
        self.place
    }

    /// Takes `n` bytes away in front.
    fn pass(&mut self, n: usize)
        requires { n ≤ length self.old.left.bytes }
        ensures { self.new.left ≡ behind n self.old.left }
    {
        self.start += n;
        self.place += n as u64;
        if self.start > self.buffer.len() / 2 {
            drop_front(&mut self.buffer, self.start);
            self.start = 0;
        }
    }
}

/// Moves what stands behind the first `n` bytes to the front.
fn drop_front(bytes: &mut Vec<u8>, n: usize)
    requires { n ≤ length bytes.old.items }
    ensures { bytes.new.items ≡ drop n bytes.old.items }
{
    let left = bytes.len() - n;
    bytes.rotate_left(n);
    bytes.truncate(left);
}
