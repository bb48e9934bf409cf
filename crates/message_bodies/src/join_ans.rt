//! The answer to a Join (RFC 6940, section 6.4.2.1).

ghost use Rattle.wire_core.specs.Reading.{Decodes};
ghost use Rattle.message_bodies.specs.JoinAns.{join_ans_at};

use crate::body::Body;
use std::alloc::Global;
use wire_core::{Cursor, DecodeFault, take_bytes};

#[tactic(auto, unfolding(crate::specs::JoinAns::join_ans_at))]
pub(crate) fn take_join_ans(alloc: Global, from: &mut Cursor<'_>) -> Result<Body, DecodeFault>
    ensures { Decodes result from.new (join_ans_at from.old) }
{
    let overlay_specific_data = take_bytes(alloc, from, 2)?;
    Ok(Body::JoinAns {
        overlay_specific_data,
    })
}
