//! Fetch: which values of which kinds are wanted of a resource (RFC 6940, section 7.4.2.1).

ghost use Rattle.std.specs.Prelude.{◌≡◌, ◌++◌, OnOk, OnErr, length, take};
ghost use Rattle.wire_core.specs.Reading.{Decodes};
ghost use Rattle.message_bodies.specs.Fetch.{fetch, fetch_at, IsSpelledFetch};

use crate::body::Body;
use data_models::{Config, Specifier};
use reload_base::{Bytes, List, NoMemory};
use reload_ids::ResourceId;
use std::alloc::Global;
use wire_core::{Cursor, DecodeFault, Layout, Spell, put_vector, take_vector_by};

#[tactic(auto, unfolding(crate::specs::Fetch::fetch_at))]
pub(crate) fn take_fetch(
    alloc: Global,
    config: &Config,
    from: &mut Cursor<'_>,
) -> Result<Body, DecodeFault>
    ensures { Decodes result from.new (fetch_at config.now from.old) }
{
    let resource = ResourceId::take(alloc, from)?;
    let specifiers = take_vector_by(alloc, config, from, 2)?;
    Ok(Body::Fetch {
        resource,
        specifiers,
    })
}

#[tactic(auto, using(wire_core::proofs::Puts::fronts), unfolding(crate::specs::Fetch::fetch))]
pub(crate) fn put_fetch(
    out: &mut Bytes,
    resource: ResourceId,
    specifiers: &List<Specifier>,
) -> Result<(), NoMemory>
    requires { IsSpelledFetch specifiers.now }
    ensures ok { OnOk result (out.new ≡ out.old ++ fetch resource specifiers.now) }
    ensures err { OnErr result (take (length out.old) out.new ≡ out.old) }
{
    resource.put(out)?;
    put_vector(out, 2, specifiers)
}
