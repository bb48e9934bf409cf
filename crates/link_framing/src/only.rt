//! Bytes that are exactly one frame.

ghost use Rattle.std.specs.Prelude.{◌≡◌, ◌+◌, ◌<◌, ◌^◌, length, Ok, Err, MatchResult, IfOk, IfSome};
ghost use Rattle.std.specs.Option.{option_map};
ghost use Rattle.std.specs.Result.{result_ok};
ghost use Rattle.wire_core.specs.Reading.{whole_of};
ghost use Rattle.link_framing.specs.Framing.{IsFrame};
ghost use Rattle.link_framing.specs.Reading.{frame_at, only_frame};
ghost use Rattle.link_framing.specs.Views.{seen, Sees};

use crate::frame::FrameView;
use crate::layout::take_frame;
use wire_core::{Bad, Cursor};

/// The frame that bytes are, where they are exactly one frame. No memory is taken.
pub fn only_frame(bytes: &[u8]) -> Option<FrameView<'_>>
    ensures exact { option_map seen result ≡ only_frame bytes.now }
    ensures fits { IfSome result (λ view. IsFrame (seen view)) }
{
    frame_alone(bytes).ok()
}

/// The same, or the first fault. The first byte is at place 0.
fn frame_alone(bytes: &[u8]) -> Result<FrameView<'_>, Bad>
    ensures exact { MatchResult result (λ view. whole_of frame_at bytes.now ≡ Ok (seen view))
        (λ bad. whole_of frame_at bytes.now ≡ Err bad) }
    ensures fits { IfOk result (λ view. IsFrame (seen view)) }
{
    let mut from = Cursor::new(bytes, 0);
    let frame = take_frame(&mut from)?;
    from.finish()?;
    Ok(frame)
}
