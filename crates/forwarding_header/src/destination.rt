//! Where a message goes, or has been.

ghost use Rattle.std.specs.Prelude.{◌≡◌, ◌↔◌, ◌+◌, ◌-◌, ◌^◌, ◌<◌, ◌≤◌, ◌++◌, IsTrue, OnOk, OnErr, length, min, take};
ghost use Rattle.wire_core.specs.Spelling.{number, vector};
ghost use Rattle.wire_core.specs.Reading.{Reads, Decodes};
ghost use Rattle.forwarding_header.specs.Destinations.{destination, IsSpelledDestination, IsDestinationInRange, opaque_bytes_at, node_at, resource_at, opaque_at, short_at, destination_of, destination_at};
ghost use Rattle.forwarding_header.specs.Laws.Destinations.{destination_laid, destination-some};

use reload_base::{Bytes, NoMemory, TryCopy};
use reload_ids::{ID_LENGTH, NodeId, ResourceId};
use std::alloc::Global;
use wire_core::{
    Bad, Cursor, DecodeFault, Layout, RESOURCE_ID_LENGTH, Reason, Spell, allowed, put_bytes,
    put_inner, put_u8, put_u16, take_sized,
};

/// The most opaque bytes of a destination, whose length has room within a length.
pub const MAX_OPAQUE: usize = 254;

/// The least number of a short destination: its top bit is set.
pub const SHORT: u16 = 0x8000;

/// An entry of a via list or a destination list (RFC 6940, section 6.3.2.2).
#[derive(Debug, Drop)]
pub enum Destination {
    Node(NodeId),
    Resource(ResourceId),
    /// Bytes that only the node which made them understands, at most `MAX_OPAQUE`.
    Opaque(Bytes),
    /// The same in two bytes, whose top bit is set.
    Short(u16),
}

impl TryCopy for Destination {
    fn copy(&self, alloc: Global) -> Result<Destination, NoMemory> {
        match self {
            Destination::Node(node) => Ok(Destination::Node(*node)),
            Destination::Resource(resource) => Ok(Destination::Resource(*resource)),
            Destination::Opaque(bytes) => Ok(Destination::Opaque(bytes.copy(alloc)?)),
            Destination::Short(n) => Ok(Destination::Short(*n)),
        }
    }
}

impl Spell for Destination {
    ghost spelling = { destination };

    ghost is_spelled = { IsSpelledDestination };

    fn fits(&self) -> bool {
        match self {
            Destination::Node(_) | Destination::Resource(_) => true,
            Destination::Opaque(bytes) => bytes.len() <= MAX_OPAQUE,
            Destination::Short(n) => SHORT <= *n,
        }
    }

    #[tactic(auto, using(wire_core::proofs::Puts::lengths), unfolding(crate::specs::Destinations::destination))]
    fn len(&self) -> u64 {
        match self {
            Destination::Node(_) => 2 + u64::from(ID_LENGTH),
            Destination::Resource(_) => 2 + u64::from(RESOURCE_ID_LENGTH),
            Destination::Opaque(bytes) => (bytes.len() as u64).saturating_add(3),
            Destination::Short(_) => 2,
        }
    }

    #[tactic(auto, using(wire_core::proofs::Puts::lengths, wire_core::proofs::Puts::fronts), unfolding(crate::specs::Destinations::destination))]
    fn put(&self, out: &mut Bytes) -> Result<(), NoMemory> {
        match self {
            Destination::Node(node) => put_coded(out, 1, node),
            Destination::Resource(resource) => put_coded(out, 2, resource),
            Destination::Opaque(bytes) => put_opaque(out, bytes.as_slice()),
            Destination::Short(n) => put_u16(out, *n),
        }
    }

    ghost has_a_byte = { λ d _. destination-some d };
}

impl Layout for Destination {
    ghost in_range = { IsDestinationInRange };

    ghost reading = { destination_at };

    #[tactic(auto, unfolding(crate::specs::Destinations::destination_at, crate::specs::Destinations::destination_of))]
    fn take(alloc: Global, from: &mut Cursor<'_>) -> Result<Destination, DecodeFault> {
        let place = from.place();
        let code = from.take_u8()?;
        match code {
            128..=255 => Ok(take_short(code, from)?),
            1 => take_node(alloc, from),
            2 => take_resource(alloc, from),
            3 => take_opaque(alloc, from),
            _ => Err(DecodeFault::Bad(Bad {
                place,
                reason: Reason::BadValue,
            })),
        }
    }

    ghost is_layout = { destination_laid };
}

/// What is behind a node's code: its length, and its id.
#[tactic(auto, unfolding(crate::specs::Destinations::node_at))]
fn take_node(alloc: Global, from: &mut Cursor<'_>) -> Result<Destination, DecodeFault>
    ensures { Decodes result from.new (node_at from.old) }
{
    let node = take_sized(alloc, from, 1, u32::from(ID_LENGTH))?;
    Ok(Destination::Node(node))
}

/// The same for a resource.
#[tactic(auto, unfolding(crate::specs::Destinations::resource_at))]
fn take_resource(alloc: Global, from: &mut Cursor<'_>) -> Result<Destination, DecodeFault>
    ensures { Decodes result from.new (resource_at from.old) }
{
    let resource = take_sized(alloc, from, 1, u32::from(RESOURCE_ID_LENGTH))?;
    Ok(Destination::Resource(resource))
}

/// What is behind the code of opaque bytes: a length, and within it the bytes behind their own.
#[tactic(auto, unfolding(crate::specs::Destinations::opaque_at, crate::specs::Destinations::opaque_bytes_at, wire_core::specs::Reading::vector_at))]
fn take_opaque(alloc: Global, from: &mut Cursor<'_>) -> Result<Destination, DecodeFault>
    ensures { Decodes result from.new (opaque_at from.old) }
{
    let mut part = from.take_part(1)?;
    let place = part.place();
    let len = part.take_u8()?;
    allowed(usize::from(len) == part.len(), place, Reason::BadValue)?;
    let bytes = Bytes::from_slice(alloc, part.rest())?;
    part.finish()?;
    Ok(Destination::Opaque(bytes))
}

/// What is behind the first byte of a short destination: its second.
#[tactic(auto, unfolding(crate::specs::Destinations::short_at))]
fn take_short(high: u8, from: &mut Cursor<'_>) -> Result<Destination, Bad>
    ensures { Reads result from.new (short_at high from.old) }
{
    let low = from.take_u8()?;
    Ok(Destination::Short(u16::from(high) * 256 + u16::from(low)))
}

/// A code, and an id behind its length.
#[tactic(auto, using(wire_core::proofs::Puts::fronts))]
fn put_coded<T: Spell>(out: &mut Bytes, code: u8, id: &T) -> Result<(), NoMemory>
    requires each { T.is_spelled id.now }
    requires fits { length (T.spelling id.now) < 256 }
    ensures ok { OnOk result
        (out.new ≡ out.old ++ (number 1 code ++ vector 1 (T.spelling id.now))) }
    ensures err { OnErr result (take (length out.old) out.new ≡ out.old) }
{
    put_u8(out, code)?;
    put_inner(out, 1, id)
}

#[tactic(auto, using(wire_core::proofs::Puts::lengths, wire_core::proofs::Puts::fronts), unfolding(crate::specs::Destinations::destination))]
fn put_opaque(out: &mut Bytes, bytes: &[u8]) -> Result<(), NoMemory>
    requires { length bytes.now ≤ MAX_OPAQUE }
    ensures ok { OnOk result (out.new ≡ out.old ++ destination (Destination.Opaque bytes.now)) }
    ensures err { OnErr result (take (length out.old) out.new ≡ out.old) }
{
    put_u8(out, 3)?;
    put_u8(out, (bytes.len() + 1) as u8)?;
    put_bytes(out, 1, bytes)
}
