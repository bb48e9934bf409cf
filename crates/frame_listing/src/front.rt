//! The frame in front of what is left of a stream.

ghost use Rattle.std.specs.Prelude.{◌≡◌, ◌≢◌, ◌+◌, ◌<◌, ◌^◌, ◌++◌, [], length};
ghost use Rattle.link_framing.specs.Framing.{frame};
ghost use Rattle.link_framing.specs.Views.{seen};
ghost use Rattle.link_framing.specs.declared.frame.Frame.TheVariants.{Payload};
ghost use Rattle.frame_listing.specs.Messages.{no_kinds, frame_listing};
ghost use Rattle.frame_listing.specs.Fronts.{IsNext, Lists, AddsFront};

use crate::lines::{put_ack_line, put_payload_line};
use crate::message::put_message;
use data_models::Config;
use link_framing::{FrameView, first_frame};
use reload_base::Bytes;
use std::alloc::Global;
use wire_core::{Bad, DecodeFault, Reason};

// The frame in front, which stands at a place, and the number of its bytes. Less than a frame is
// short at the end.
fn next_frame(rest: &[u8], place: u64) -> Result<(FrameView<'_>, usize), Bad>
    requires small { place + length rest.now < 2 ^ 63 }
    requires some { rest.now ≢ [] }
    ensures { IsNext result place rest.now }
{
    match first_frame(rest, place) {
        Ok(Some(found)) => Ok(found),
        Ok(None) => Err(Bad {
            place: place + rest.len() as u64,
            reason: Reason::Short,
        }),
        Err(bad) => Err(bad),
    }
}

// Adds the lines of a payload that stands at a place: its own, and those of its message.
fn put_payload(
    alloc: Global,
    config: &Config,
    out: &mut Bytes,
    place: u64,
    sequence: u32,
    message: &[u8],
) -> Result<(), DecodeFault>
    requires small { place + (8 + length message.now) < 2 ^ 63 }
    requires kinds { config.now ≡ no_kinds }
    ensures { Lists result (frame_listing place (Payload sequence message.now)) out.old out.new }
{
    put_payload_line(out, place, sequence, message.len() as u64)?;
    match put_message(alloc, config, out, message) {
        Err(DecodeFault::Bad(bad)) => Err(DecodeFault::Bad(Bad {
            place: place + 8 + bad.place,
            reason: bad.reason,
        })),
        listed => listed,
    }
}

// Adds the lines of a frame that stands at a place.
fn put_frame(
    alloc: Global,
    config: &Config,
    out: &mut Bytes,
    place: u64,
    first: &FrameView<'_>,
) -> Result<(), DecodeFault>
    requires small { place + length (frame (seen first.now)) < 2 ^ 63 }
    requires kinds { config.now ≡ no_kinds }
    ensures { Lists result (frame_listing place (seen first.now)) out.old out.new }
{
    match first {
        FrameView::Payload { sequence, message } => {
            put_payload(alloc, config, out, place, *sequence, message)
        }
        FrameView::Ack { sequence, received } => Ok(put_ack_line(
            out, place, *sequence, *received,
        )?),
    }
}

/// Adds the lines of the frame in front of what is left of a stream, which stands at a place, and
/// answers how many bytes it has; or those before the first fault, and answers that. All kinds are
/// unknown to `config`.
pub(crate) fn put_front(
    alloc: Global,
    config: &Config,
    out: &mut Bytes,
    rest: &[u8],
    place: u64,
) -> Result<usize, DecodeFault>
    requires small { place + length rest.now < 2 ^ 63 }
    requires some { rest.now ≢ [] }
    requires kinds { config.now ≡ no_kinds }
    ensures { AddsFront result place rest.now out.old out.new }
{
    let (first, len) = next_frame(rest, place)?;
    put_frame(alloc, config, out, place, &first)?;
    Ok(len)
}
