//! Bodies by which peers keep the overlay, by their message codes, and bodies of unknown codes.

ghost use Rattle.wire_core.specs.Reading.{Decodes};
ghost use Rattle.message_bodies.specs.Bodies.{overlay_body_at, other_at};

use crate::body::Body;
use crate::code;
use crate::join::take_join;
use crate::join_ans::take_join_ans;
use crate::leave::take_leave;
use crate::update::take_update;
use std::alloc::Global;
use wire_core::{Cursor, DecodeFault, take_rest};

/// Takes the body of a message with this code, which is about the overlay or has no layout here.
#[tactic(auto, unfolding(crate::specs::Bodies::overlay_body_at))]
pub(crate) fn take_overlay_body(
    alloc: Global,
    code: u16,
    from: &mut Cursor<'_>,
) -> Result<Body, DecodeFault>
    ensures { Decodes result from.new (overlay_body_at code from.old) }
{
    match code {
        code::JOIN => take_join(alloc, from),
        code::JOIN_ANS => take_join_ans(alloc, from),
        code::LEAVE => take_leave(alloc, from),
        code::LEAVE_ANS => Ok(Body::LeaveAns),
        code::UPDATE => take_update(alloc, from),
        code::UPDATE_ANS => Ok(Body::UpdateAns),
        _ => take_other(alloc, code, from),
    }
}

/// All bytes that are left of a part, as they stand.
#[tactic(auto, unfolding(crate::specs::Bodies::other_at))]
fn take_other(alloc: Global, code: u16, from: &mut Cursor<'_>) -> Result<Body, DecodeFault>
    ensures { Decodes result from.new (other_at code from.old) }
{
    let bytes = take_rest(alloc, from)?;
    Ok(Body::Other { code, bytes })
}
