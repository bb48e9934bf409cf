//! The frames of a link.

ghost use Rattle.std.specs.Prelude.{◌≡◌, ◌++◌, length, IfOk, OnOk};
ghost use Rattle.link_framing.specs.Framing.{frame, IsWithin};
ghost use Rattle.link_framing.specs.Views.{seen};

use reload_base::{Bytes, NoMemory};
use std::alloc::Global;
use wire_core::{put_bytes, put_u8, put_u32};

/// What one node sends to another over their link (RFC 6940, section 6.6.2).
#[derive(Debug, Drop)]
pub enum Frame {
    /// A message of at most `MAX_MESSAGE` bytes.
    Payload { sequence: u32, message: Bytes },
    /// Says that the payload of this sequence was heard. `received` marks those of the 31 before it
    /// that were (this profile): bit k the one k before, counted from the lowest bit as 0, which is
    /// clear.
    Ack { sequence: u32, received: u32 },
}

/// A frame as it lies in bytes, which lend its message.
#[derive(Clone, Copy, Debug)]
pub enum FrameView<'a> {
    /// A message of at most `MAX_MESSAGE` bytes.
    Payload { sequence: u32, message: &'a [u8] },
    /// Says which payloads were heard, as `Frame::Ack` does.
    Ack { sequence: u32, received: u32 },
}

impl<'a> FrameView<'a> {
    /// The frame, with a copy of its message.
    pub fn to_frame(&self, alloc: Global) -> Result<Frame, NoMemory>
        ensures { IfOk result (λ f. f ≡ seen self.now) }
    {
        match self {
            FrameView::Payload { sequence, message } => Ok(Frame::Payload {
                sequence: *sequence,
                message: Bytes::from_slice(alloc, message)?,
            }),
            FrameView::Ack { sequence, received } => Ok(Frame::Ack {
                sequence: *sequence,
                received: *received,
            }),
        }
    }
}

/// Why a stream gives no frame.
#[derive(Clone, Copy, Debug, PartialEq, Eq)]
pub enum FrameFault {
    /// A frame's first byte is neither 128 nor 129. The place is that byte's, counted from the
    /// stream's front.
    BadType(u64),
    /// A message's length is over `MAX_MESSAGE`. The place is the first byte of that length.
    TooLarge(u64),
    /// There is no memory for the message.
    NoMemory,
}

impl From<NoMemory> for FrameFault {
    ghost use Rattle.std.specs.Prelude.{◌≡◌};
    ghost use Rattle.link_framing.specs.declared.frame.FrameFault.TheVariants as faults;

    ghost from_gives = { λ _ fault. fault ≡ faults.NoMemory };

    fn from(_error: NoMemory) -> FrameFault {
        FrameFault::NoMemory
    }
}

/// The bytes of a frame.
pub fn encode_frame(alloc: Global, f: &Frame) -> Result<Bytes, NoMemory>
    requires { IsWithin f.now }
    ensures { IfOk result (λ bytes. bytes ≡ frame f.now) }
{
    let mut out = Bytes::new(alloc);
    out.reserve(len(f))?;
    put_frame(&mut out, f)?;
    Ok(out)
}

/// The number of bytes of a frame.
#[tactic(auto, using(wire_core::proofs::Puts::lengths), unfolding(crate::specs::Framing::frame))]
fn len(f: &Frame) -> usize
    requires { IsWithin f.now }
    ensures { result ≡ length (frame f.now) }
{
    match f {
        Frame::Payload { message, .. } => 8 + message.len(),
        Frame::Ack { .. } => 9,
    }
}

/// Adds the bytes of a frame. After `NoMemory` a front of them may stand there.
#[tactic(auto, unfolding(crate::specs::Framing::frame))]
fn put_frame(out: &mut Bytes, f: &Frame) -> Result<(), NoMemory>
    requires { IsWithin f.now }
    ensures { OnOk result (out.new ≡ out.old ++ frame f.now) }
{
    match f {
        Frame::Payload { sequence, message } => {
            put_u8(out, 128)?;
            put_u32(out, *sequence)?;
            put_bytes(out, 3, message.as_slice())
        }
        Frame::Ack { sequence, received } => {
            put_u8(out, 129)?;
            put_u32(out, *sequence)?;
            put_u32(out, *received)
        }
    }
}
