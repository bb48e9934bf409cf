//! What stands at the front of a stream.

ghost use Rattle.std.specs.Prelude.{Err, ◌≡◌, ◌+◌, ◌^◌, ◌<◌, ℕ, List, ◌++◌, length, slice_index};
ghost use Rattle.wire_core.specs.Part.{part};
ghost use Rattle.link_framing.specs.declared.frame.Frame.{Frame};
ghost use Rattle.link_framing.specs.Framing.{frame, IsFrame};
ghost use Rattle.link_framing.specs.Finds.{Finds, IsFound, IsWhy, Says};
ghost use Rattle.link_framing.specs.Streams.{IsMissing, wanted, least_whole, length_in, least_message};

use crate::frame::{FrameFault, FrameView};
use crate::layout::take_frame;
use wire_core::{Bad, Cursor, MAX_MESSAGE, Reason};

/// The frame at the front of bytes, the first of which stands at a place of the stream, and how
/// many bytes it has. None where they are less than a frame. The fault is `BadValue` at a first
/// byte that begins no frame, or `TooLarge` at a length over `MAX_MESSAGE`. No memory is taken.
pub fn first_frame(bytes: &[u8], place: u64) -> Result<Option<(FrameView<'_>, usize)>, Bad>
    requires { place + length bytes.now < 2 ^ 63 }
    // What each answer says.
    ensures found { Finds result place bytes.now }
    // What begins with a frame's spelling is found as that frame, whatever follows.
    ensures only { (first : Frame) (rest : List ℕ) → IsFrame first → bytes.now ≡ frame first ++ rest
        → IsFound result first }
{
    frame_in(bytes, place)
}

fn frame_in(bytes: &[u8], place: u64) -> Result<Option<(FrameView<'_>, usize)>, Bad>
    requires { place + length bytes.now < 2 ^ 63 }
    ensures { Finds result place bytes.now }
{
    let mut from = Cursor::new(bytes, place);
    match take_frame(&mut from) {
        Ok(frame) => Ok(Some((frame, bytes.len() - from.len()))),
        Err(bad) => told(bad),
    }
}

/// What a fault of the reading means: bytes are missing, or the stream's next frame can't come.
fn told<'a>(bad: Bad) -> Result<Option<(FrameView<'a>, usize)>, Bad>
    ensures { (place : ℕ) (bytes : List ℕ) → Says place bytes bad.place bad.reason
        → Finds result place bytes }
{
    match bad.reason {
        Reason::Short | Reason::LengthPast => Ok(None),
        Reason::TooLarge | Reason::BadValue | Reason::Trailing => Err(bad),
    }
}

/// The same fault as a reader of frames answers it.
pub(crate) fn lasting(bad: Bad) -> FrameFault
    ensures { (place : ℕ) (bytes : List ℕ) → Finds (Err bad) place bytes
        → IsWhy result (part place bytes) }
{
    match bad.reason {
        Reason::TooLarge => FrameFault::TooLarge(bad.place),
        _ => FrameFault::BadType(bad.place),
    }
}

/// How many bytes are missing to the next frame at the least or, where none can come, to the fault.
pub fn wanted_by(held: &[u8]) -> u64
    ensures value { result ≡ wanted held.now }
    ensures missing { IsMissing held.now result }
{
    least_whole(held).saturating_sub(held.len() as u64)
}

/// How many bytes a frame that begins so has at the least or, where its length is too large, the
/// fault.
#[tactic(auto, unfolding(crate::specs::Streams::least_whole))]
fn least_whole(held: &[u8]) -> u64
    ensures { result ≡ least_whole held.now }
{
    match held.first() {
        None => 8,
        Some(128) => 8 + u64::from(least_length(held)),
        Some(129) => 9,
        Some(_) => 0,
    }
}

/// The least length that a payload's message can have, as far as it is there; 0 where that is too
/// large.
fn least_length(held: &[u8]) -> u32
    ensures { result ≡ least_message held.now }
{
    let len = length_so_far(held);
    if len <= MAX_MESSAGE { len } else { 0 }
}

/// The length of a payload's message, where each byte of it that hasn't come is 0.
fn length_so_far(held: &[u8]) -> u32
    ensures { result ≡ length_in held.now }
{
    65_536 * byte_or_zero(held, 5) + 256 * byte_or_zero(held, 6) + byte_or_zero(held, 7)
}

/// A byte, or 0 past the end.
fn byte_or_zero(bytes: &[u8], at: usize) -> u32
    ensures value { result ≡ slice_index bytes.now at }
    ensures byte { result < 256 }
{
    match bytes.get(at) {
        Some(byte) => u32::from(*byte),
        None => 0,
    }
}
