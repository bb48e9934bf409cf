//! The answer to a Ping: an id and a time (RFC 6940, section 6.5.3).

ghost use Rattle.std.specs.Prelude.{◌≡◌, ◌++◌, OnOk, OnErr, length, take};
ghost use Rattle.wire_core.specs.Reading.{Reads};
ghost use Rattle.message_bodies.specs.PingAns.{ping_ans, ping_ans_at};

use crate::body::Body;
use reload_base::{Bytes, NoMemory};
use wire_core::{Bad, Cursor, put_u64};

#[tactic(auto, unfolding(crate::specs::PingAns::ping_ans_at))]
pub(crate) fn take_ping_ans(from: &mut Cursor<'_>) -> Result<Body, Bad>
    ensures { Reads result from.new (ping_ans_at from.old) }
{
    let response_id = from.take_u64()?;
    let time = from.take_u64()?;
    Ok(Body::PingAns { response_id, time })
}

#[tactic(auto, using(wire_core::proofs::Puts::fronts), unfolding(crate::specs::PingAns::ping_ans))]
pub(crate) fn put_ping_ans(out: &mut Bytes, response_id: u64, time: u64) -> Result<(), NoMemory>
    ensures ok { OnOk result (out.new ≡ out.old ++ ping_ans response_id time) }
    ensures err { OnErr result (take (length out.old) out.new ≡ out.old) }
{
    put_u64(out, response_id)?;
    put_u64(out, time)
}
