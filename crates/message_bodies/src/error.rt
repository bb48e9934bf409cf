//! An error: its code, and what is said of it (RFC 6940, section 6.3.3.1).

ghost use Rattle.std.specs.Prelude.{◌≡◌, ◌++◌, ◌<◌, ◌^◌, OnOk, OnErr, length, take};
ghost use Rattle.wire_core.specs.Reading.{Decodes};
ghost use Rattle.message_bodies.specs.Error.{error, error_at};

use crate::body::Body;
use reload_base::{Bytes, NoMemory};
use std::alloc::Global;
use wire_core::{Cursor, DecodeFault, put_bytes, put_u16, take_bytes};

#[tactic(auto, unfolding(crate::specs::Error::error_at))]
pub(crate) fn take_error(alloc: Global, from: &mut Cursor<'_>) -> Result<Body, DecodeFault>
    ensures { Decodes result from.new (error_at from.old) }
{
    let error_code = from.take_u16()?;
    let error_info = take_bytes(alloc, from, 2)?;
    Ok(Body::Error {
        error_code,
        error_info,
    })
}

#[tactic(auto, using(wire_core::proofs::Puts::fronts), unfolding(crate::specs::Error::error))]
pub(crate) fn put_error(out: &mut Bytes, error_code: u16, error_info: &[u8]) -> Result<(), NoMemory>
    requires { length error_info.now < 2 ^ 16 }
    ensures ok { OnOk result (out.new ≡ out.old ++ error error_code error_info.now) }
    ensures err { OnErr result (take (length out.old) out.new ≡ out.old) }
{
    put_u16(out, error_code)?;
    put_bytes(out, 2, error_info)
}
