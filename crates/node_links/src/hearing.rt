//! What comes over a link.

ghost use Rattle.std.specs.Prelude.{◌≡◌, ◌≤◌, length, IfSome};
ghost use Rattle.std.specs.Option.{option_map};
ghost use Rattle.wire_core.specs.declared.limits.TheConstants.{MAX_MESSAGE};
ghost use Rattle.node_model.specs.Heard.{payload_in};

use link_framing::{FrameView, only_frame};

/// The sequence and the message of the payload that bytes are, where they are exactly one frame and
/// no ack. No memory is taken.
pub fn payload_in(bytes: &[u8]) -> Option<(u32, &[u8])>
    ensures exact { option_map (λ p. (p.0, p.1.now)) result ≡ payload_in bytes.now }
    ensures within { IfSome result (λ p. length p.1.now ≤ MAX_MESSAGE) }
{
    match only_frame(bytes) {
        Some(FrameView::Payload { sequence, message }) => Some((sequence, message)),
        Some(FrameView::Ack { .. }) => None,
        None => None,
    }
}
