//! Join: a peer asks to be admitted (RFC 6940, section 6.4.2.1).

ghost use Rattle.std.specs.Prelude.{◌≡◌, ◌++◌, ◌<◌, ◌^◌, OnOk, OnErr, length, take};
ghost use Rattle.wire_core.specs.Reading.{Decodes};
ghost use Rattle.message_bodies.specs.Join.{join, join_at};

use crate::body::Body;
use reload_base::{Bytes, NoMemory};
use reload_ids::NodeId;
use std::alloc::Global;
use wire_core::{Cursor, DecodeFault, Layout, Spell, put_bytes, take_bytes};

#[tactic(auto, unfolding(crate::specs::Join::join_at))]
pub(crate) fn take_join(alloc: Global, from: &mut Cursor<'_>) -> Result<Body, DecodeFault>
    ensures { Decodes result from.new (join_at from.old) }
{
    let joining_peer_id = NodeId::take(alloc, from)?;
    let overlay_specific_data = take_bytes(alloc, from, 2)?;
    Ok(Body::Join {
        joining_peer_id,
        overlay_specific_data,
    })
}

#[tactic(auto, using(wire_core::proofs::Puts::fronts), unfolding(crate::specs::Join::join))]
pub(crate) fn put_join(
    out: &mut Bytes,
    joining_peer_id: NodeId,
    overlay_specific_data: &[u8],
) -> Result<(), NoMemory>
    requires { length overlay_specific_data.now < 2 ^ 16 }
    ensures ok { OnOk result (out.new ≡ out.old ++ join joining_peer_id overlay_specific_data.now) }
    ensures err { OnErr result (take (length out.old) out.new ≡ out.old) }
{
    joining_peer_id.put(out)?;
    put_bytes(out, 2, overlay_specific_data)
}
