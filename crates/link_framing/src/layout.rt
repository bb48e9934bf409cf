//! Reading a frame as its layout orders it.

ghost use Rattle.wire_core.specs.Reading.{Reads};
ghost use Rattle.link_framing.specs.Reading.{payload_at, ack_at, frame_at};
ghost use Rattle.link_framing.specs.Views.{Sees};

use crate::frame::FrameView;
use wire_core::{Bad, Cursor, MAX_MESSAGE, Reason};

/// Takes a frame. Where more bytes are wanted, the fault is `Short` or `LengthPast`.
#[tactic(auto, unfolding(crate::specs::Reading::frame_at))]
pub fn take_frame<'a>(from: &mut Cursor<'a>) -> Result<FrameView<'a>, Bad>
    ensures { Sees result from.new (frame_at from.old) }
{
    let place = from.place();
    match from.take_u8()? {
        128 => take_payload(from),
        129 => take_ack(from),
        _ => Err(Bad {
            place,
            reason: Reason::BadValue,
        }),
    }
}

/// What is behind a payload's first byte.
#[tactic(auto, unfolding(crate::specs::Reading::payload_at, crate::specs::Reading::carried_at, wire_core::specs::Reading::pair_at, wire_core::specs::Reading::filled_at, wire_core::specs::Reading::allowed))]
fn take_payload<'a>(from: &mut Cursor<'a>) -> Result<FrameView<'a>, Bad>
    ensures { Sees result from.new (payload_at from.old) }
{
    let sequence = from.take_u32()?;
    let place = from.place();
    let len = from.take_limited(3, MAX_MESSAGE)?;
    let mut part = from.take_stretch(place, len)?;
    let message = part.rest();
    Ok(FrameView::Payload { sequence, message })
}

/// What is behind an ack's first byte.
#[tactic(auto, unfolding(crate::specs::Reading::ack_at, wire_core::specs::Reading::pair_at))]
fn take_ack<'a>(from: &mut Cursor<'a>) -> Result<FrameView<'a>, Bad>
    ensures { Sees result from.new (ack_at from.old) }
{
    let sequence = from.take_u32()?;
    let received = from.take_u32()?;
    Ok(FrameView::Ack { sequence, received })
}
