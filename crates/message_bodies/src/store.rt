//! Store: values of some kinds, for a resource or for one of its replicas (RFC 6940, section
//! 7.4.1.1).

ghost use Rattle.std.specs.Prelude.{◌≡◌, ◌++◌, OnOk, OnErr, length, take};
ghost use Rattle.wire_core.specs.Reading.{Decodes};
ghost use Rattle.message_bodies.specs.Store.{store, store_at, IsSpelledKinds};

use crate::body::Body;
use data_models::{Config, StoreKind};
use reload_base::{Bytes, List, NoMemory};
use reload_ids::ResourceId;
use std::alloc::Global;
use wire_core::{Cursor, DecodeFault, Layout, Spell, put_u8, put_vector, take_vector_by};

#[tactic(auto, unfolding(crate::specs::Store::store_at))]
pub(crate) fn take_store(
    alloc: Global,
    config: &Config,
    from: &mut Cursor<'_>,
) -> Result<Body, DecodeFault>
    ensures { Decodes result from.new (store_at config.now from.old) }
{
    let resource = ResourceId::take(alloc, from)?;
    let replica_number = from.take_u8()?;
    let kind_data = take_vector_by(alloc, config, from, 4)?;
    Ok(Body::Store {
        resource,
        replica_number,
        kind_data,
    })
}

#[tactic(auto, using(wire_core::proofs::Puts::fronts), unfolding(crate::specs::Store::store))]
pub(crate) fn put_store(
    out: &mut Bytes,
    resource: ResourceId,
    replica_number: u8,
    kind_data: &List<StoreKind>,
) -> Result<(), NoMemory>
    requires { IsSpelledKinds kind_data.now }
    ensures ok { OnOk result (out.new ≡ out.old ++ store resource replica_number kind_data.now) }
    ensures err { OnErr result (take (length out.old) out.new ≡ out.old) }
{
    resource.put(out)?;
    put_u8(out, replica_number)?;
    put_vector(out, 4, kind_data)
}
