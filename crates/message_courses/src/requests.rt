//! What becomes of a request that a peer hears.

ghost use Rattle.std.specs.Prelude.{◌≡◌, ◌<◌, ◌≤◌, ◌^◌, ◌++◌, [], ◌∷◌, length, IfOk};
ghost use Rattle.forwarding_header.specs.Destinations.{destinations};
ghost use Rattle.forwarding_header.specs.Header.{IsSpelledHeader, IsHeaderInRange};
ghost use Rattle.node_model.specs.Heard.{ttl_of};
ghost use Rattle.node_model.specs.Courses.{onward, forwarded, course_to, course_in_ring, course};
ghost use Rattle.message_courses.specs.Fits.{IsForwardedOn};
ghost use Rattle.message_courses.specs.Owned.{owned_with};

use crate::destinations::{is_alone, without_own};
use crate::onward::{hop_on, ttl_of};
use crate::options::any_has;
use chord_tables::Tables;
use forwarding_header::{Destination, FORWARD_CRITICAL, Header};
use node_model::{Course, MAX_REQUEST, MAX_VIA, PeerState};
use peer_routing::{Hop, next_hop};
use reload_base::{List, NoMemory, TryCopy};
use reload_ids::{NodeId, ResourceId};
use std::alloc::Global;
use storage_model::Refusal;

/// A via list with a node more, in memory that is found once.
fn with_node(
    alloc: Global,
    before: &List<Destination>,
    from: NodeId,
) -> Result<List<Destination>, NoMemory>
    ensures { IfOk result (λ via. via ≡ before.now ++ Destination.Node from ∷ []) }
{
    let mut via = List::new(alloc);
    via.reserve(before.len().saturating_add(1))?;
    for entry in before.as_slice() {
        via.push(entry.copy(alloc)?)?;
    }
    via.push(Destination::Node(from))?;
    Ok(via)
}

/// The header with which a request that came from a node goes on to this destination list.
#[tactic(auto, unfolding(node_model::specs::Courses::onward))]
fn onward(
    alloc: Global,
    from: NodeId,
    header: &Header,
    dest: &[Destination],
) -> Result<Header, NoMemory>
    requires { 0 < ttl_of header.now }
    ensures { IfOk result (λ h. h ≡ onward from header.now dest.now) }
{
    let via = with_node(alloc, &header.via, from)?;
    hop_on(alloc, header, via, dest)
}

/// A request for an id that this peer doesn't own goes on, unless an option or its TTL forbids it.
#[tactic(auto, unfolding(node_model::specs::Courses::forwarded))]
fn forwarded(
    alloc: Global,
    from: NodeId,
    tables: &Tables,
    owning: bool,
    header: &Header,
    dest: &[Destination],
    id: u128,
) -> Result<Course, NoMemory>
    ensures { IfOk result (λ c. c ≡ forwarded from tables.now owning header.now dest.now id) }
{
    if any_has(FORWARD_CRITICAL, header) {
        return Ok(Course::Refused(Refusal::UnsupportedForwardingOption));
    }
    if ttl_of(header) <= 1 {
        return Ok(Course::Refused(Refusal::TtlExceeded));
    }
    match next_hop(tables, owning, id) {
        Hop::To(next) => {
            let header = onward(alloc, from, header, dest)?;
            Ok(Course::Forwarded { next, header })
        }
        Hop::Here | Hop::NoRoute => Ok(Course::Dropped),
    }
}

/// The course of a request by its destination list without the peer's own leading entries.
fn course_to(
    alloc: Global,
    from: NodeId,
    tables: &Tables,
    owning: bool,
    header: &Header,
    dest: &[Destination],
) -> Result<Course, NoMemory>
    ensures { IfOk result (λ c. c ≡ course_to from tables.now owning header.now dest.now) }
{
    let Some((first, rest)) = dest.split_first() else {
        return Ok(Course::Refused(Refusal::InvalidMessage));
    };
    match first {
        Destination::Node(node) => {
            if node.0 == tables.me().0 {
                return Ok(Course::Here);
            }
            if owning && tables.owns(node.0) {
                return Ok(Course::Refused(Refusal::NotFound));
            }
            forwarded(alloc, from, tables, owning, header, dest, node.0)
        }
        Destination::Resource(resource) => {
            if owning && tables.owns(resource.0) {
                return Ok(owned(*resource, rest));
            }
            forwarded(alloc, from, tables, owning, header, dest, resource.0)
        }
        Destination::Opaque(_) | Destination::Short(_) => {
            Ok(Course::Refused(Refusal::InvalidMessage))
        }
    }
}

/// The course of a request for a resource that the peer owns, with these entries behind it.
fn owned(resource: ResourceId, rest: &[Destination]) -> Course
    ensures { result ≡ owned_with resource rest.now }
{
    match rest {
        [] => Course::Owned(resource),
        _ => Course::Refused(Refusal::InvalidMessage),
    }
}

/// The course of a request of so many bytes at a peer that is part of the overlay.
#[tactic(auto, unfolding(node_model::specs::Courses::course_in_ring))]
fn course_in_ring(
    alloc: Global,
    from: NodeId,
    tables: &Tables,
    owning: bool,
    size: u64,
    header: &Header,
) -> Result<Course, NoMemory>
    ensures { IfOk result (λ c. c ≡ course_in_ring from tables.now owning size header.now) }
{
    let me = tables.me();
    let dest = header.dest.as_slice();
    if u64::from(MAX_REQUEST) < size && !is_alone(me, dest) {
        return Ok(Course::Refused(Refusal::MessageTooLarge));
    }
    course_to(alloc, from, tables, owning, header, without_own(me, dest))
}

/// The course of a request by the state of the peer.
fn course_of(
    alloc: Global,
    from: NodeId,
    tables: &Tables,
    state: PeerState,
    size: u64,
    header: &Header,
) -> Result<Course, NoMemory>
    ensures { IfOk result (λ c. c ≡ course from tables.now state size header.now) }
{
    match state {
        PeerState::Seeking => {
            if is_alone(tables.me(), header.dest.as_slice()) {
                Ok(Course::Here)
            } else {
                Ok(Course::Dropped)
            }
        }
        PeerState::Gone => Ok(Course::Dropped),
        PeerState::Member | PeerState::Admitting => {
            course_in_ring(alloc, from, tables, true, size, header)
        }
        PeerState::Leaving => course_in_ring(alloc, from, tables, false, size, header),
    }
}

/// Does nothing, and tells contracts that an id has 128 bits.
fn is_an_id(node: NodeId)
    ensures { node.0 < 2 ^ 128 }
{
    let _id = node.0;
}

/// What becomes of a request of `size` bytes that a peer hears from a node (RFC 6940, sections
/// 6.1.1 and 6.1.2).
pub fn course(
    alloc: Global,
    from: NodeId,
    tables: &Tables,
    state: PeerState,
    size: u64,
    header: &Header,
) -> Result<Course, NoMemory>
    requires is_spelled { IsSpelledHeader header.now }
    requires in_range { IsHeaderInRange header.now }
    requires via { length (destinations header.now.via) ≤ MAX_VIA }
    // Which course it is.
    ensures value { IfOk result (λ c. c ≡ course from tables.now state size header.now) }
    // The header with which it goes on fits, and is at most 18 bytes longer, and so is the message.
    ensures fits { IfOk result (IsForwardedOn size header.now) }
{
    is_an_id(from);
    course_of(alloc, from, tables, state, size, header)
}
