//! Bodies about a peer itself, by their message codes.

ghost use Rattle.wire_core.specs.Reading.{Decodes};
ghost use Rattle.message_bodies.specs.Bodies.{peer_body_at};

use crate::body::Body;
use crate::code;
use crate::error::take_error;
use crate::overlay_body::take_overlay_body;
use crate::path_track::{take_path_track, take_path_track_ans};
use crate::ping::take_ping;
use crate::ping_ans::take_ping_ans;
use crate::probe::take_probe;
use crate::probe_ans::take_probe_ans;
use std::alloc::Global;
use wire_core::{Cursor, DecodeFault};

/// Takes the body of a message with this code, which isn't about kinds.
#[tactic(auto, unfolding(crate::specs::Bodies::peer_body_at))]
pub(crate) fn take_peer_body(
    alloc: Global,
    code: u16,
    from: &mut Cursor<'_>,
) -> Result<Body, DecodeFault>
    ensures { Decodes result from.new (peer_body_at code from.old) }
{
    match code {
        code::PROBE => take_probe(alloc, from),
        code::PROBE_ANS => take_probe_ans(alloc, from),
        code::PING => take_ping(alloc, from),
        code::PING_ANS => Ok(take_ping_ans(from)?),
        code::PATH_TRACK => take_path_track(alloc, from),
        code::PATH_TRACK_ANS => take_path_track_ans(alloc, from),
        code::ERROR => take_error(alloc, from),
        _ => take_overlay_body(alloc, code, from),
    }
}
