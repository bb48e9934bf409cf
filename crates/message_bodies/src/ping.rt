//! Ping: is anybody there (RFC 6940, section 6.5.3).

ghost use Rattle.wire_core.specs.Reading.{Decodes};
ghost use Rattle.message_bodies.specs.Ping.{ping_at};

use crate::body::Body;
use std::alloc::Global;
use wire_core::{Cursor, DecodeFault, take_bytes};

#[tactic(auto, unfolding(crate::specs::Ping::ping_at))]
pub(crate) fn take_ping(alloc: Global, from: &mut Cursor<'_>) -> Result<Body, DecodeFault>
    ensures { Decodes result from.new (ping_at from.old) }
{
    let padding = take_bytes(alloc, from, 2)?;
    Ok(Body::Ping { padding })
}
