//! The way of requests to a node or a resource, asked hop by hop.

ghost use Rattle.std.specs.Prelude.{◌≡◌, ◌++◌, OnOk, OnErr, length, take};
ghost use Rattle.wire_core.specs.Reading.{Decodes};
ghost use Rattle.path_diagnostics.specs.Tracks.{target, target_node_at, target_resource_at, target_of, target_at, IsTargetInRange, track_request, track_request_at, IsTrackRequestInRange, track_answer, track_answer_at, IsSpelledTrackAnswer, IsTrackAnswerInRange};
ghost use Rattle.path_diagnostics.specs.Laws.Tracks.{target_laid, target-some, track_request_laid, track_request-some, track_answer_laid, track_answer-some};

use crate::diag_request::DiagRequest;
use crate::diag_response::DiagResponse;
use reload_base::{Bytes, NoMemory};
use reload_ids::{ID_LENGTH, NodeId, ResourceId};
use std::alloc::Global;
use wire_core::{
    Bad, Cursor, DecodeFault, Layout, RESOURCE_ID_LENGTH, Reason, Spell, put_inner, put_u8,
    take_sized,
};

/// The type of a destination that is a node.
const NODE: u8 = 1;

/// The type of a destination that is a resource.
const RESOURCE: u8 = 2;

/// What a path leads to: a Destination that is a node or a resource (RFC 6940, section 6.3.2.2).
#[derive(Clone, Copy, Debug, PartialEq, Eq)]
pub enum Target {
    Node(NodeId),
    Resource(ResourceId),
}

/// The body of a PathTrack (RFC 7851, section 5.1).
#[derive(Clone, Copy, Debug, PartialEq, Eq)]
pub struct TrackRequest {
    pub target: Target,
    pub diag: DiagRequest,
}

/// The body of a PathTrack's answer.
#[derive(Debug, Drop)]
pub struct TrackAnswer {
    /// The next hop from the answering peer, which is that peer itself where it owns the target.
    pub next: NodeId,
    pub diag: DiagResponse,
}

impl Spell for Target {
    ghost spelling = { target };

    ghost is_spelled = { λ _. Unit {0} };

    fn fits(&self) -> bool {
        true
    }

    #[tactic(auto, using(wire_core::proofs::Puts::lengths), unfolding(crate::specs::Tracks::target))]
    fn len(&self) -> u64 {
        match self {
            Target::Node(_) => 18,
            Target::Resource(_) => 19,
        }
    }

    #[tactic(auto, using(wire_core::proofs::Puts::fronts), unfolding(crate::specs::Tracks::target))]
    fn put(&self, out: &mut Bytes) -> Result<(), NoMemory> {
        match self {
            Target::Node(node) => put_node(out, *node),
            Target::Resource(resource) => put_resource(out, *resource),
        }
    }

    ghost has_a_byte = { λ t _. target-some t };
}

impl Layout for Target {
    ghost in_range = { IsTargetInRange };

    ghost reading = { target_at };

    #[tactic(auto, unfolding(crate::specs::Tracks::target_at, crate::specs::Tracks::target_of))]
    fn take(alloc: Global, from: &mut Cursor<'_>) -> Result<Target, DecodeFault> {
        let place = from.place();
        let code = from.take_u8()?;
        match code {
            NODE => take_node(alloc, from),
            RESOURCE => take_resource(alloc, from),
            _ => Err(DecodeFault::Bad(Bad {
                place,
                reason: Reason::BadValue,
            })),
        }
    }

    ghost is_layout = { target_laid };
}

#[tactic(auto, unfolding(crate::specs::Tracks::target_node_at))]
fn take_node(alloc: Global, from: &mut Cursor<'_>) -> Result<Target, DecodeFault>
    ensures { Decodes result from.new (target_node_at from.old) }
{
    Ok(Target::Node(take_sized(alloc, from, 1, u32::from(ID_LENGTH))?))
}

#[tactic(auto, unfolding(crate::specs::Tracks::target_resource_at))]
fn take_resource(alloc: Global, from: &mut Cursor<'_>) -> Result<Target, DecodeFault>
    ensures { Decodes result from.new (target_resource_at from.old) }
{
    Ok(Target::Resource(take_sized(alloc, from, 1, u32::from(RESOURCE_ID_LENGTH))?))
}

#[tactic(auto, using(wire_core::proofs::Puts::fronts, wire_core::proofs::Puts::lengths), unfolding(crate::specs::Tracks::target))]
fn put_node(out: &mut Bytes, node: NodeId) -> Result<(), NoMemory>
    ensures ok { OnOk result (out.new ≡ out.old ++ target (Target.Node node)) }
    ensures err { OnErr result (take (length out.old) out.new ≡ out.old) }
{
    put_u8(out, NODE)?;
    put_inner(out, 1, &node)
}

#[tactic(auto, using(wire_core::proofs::Puts::fronts, wire_core::proofs::Puts::lengths), unfolding(crate::specs::Tracks::target))]
fn put_resource(out: &mut Bytes, resource: ResourceId) -> Result<(), NoMemory>
    ensures ok { OnOk result (out.new ≡ out.old ++ target (Target.Resource resource)) }
    ensures err { OnErr result (take (length out.old) out.new ≡ out.old) }
{
    put_u8(out, RESOURCE)?;
    put_inner(out, 1, &resource)
}

impl Spell for TrackRequest {
    ghost spelling = { track_request };

    ghost is_spelled = { λ _. Unit {0} };

    fn fits(&self) -> bool {
        true
    }

    #[tactic(auto, using(wire_core::proofs::Puts::lengths), unfolding(crate::specs::Tracks::track_request))]
    fn len(&self) -> u64 {
        self.target.len().saturating_add(self.diag.len())
    }

    #[tactic(auto, using(wire_core::proofs::Puts::fronts), unfolding(crate::specs::Tracks::track_request))]
    fn put(&self, out: &mut Bytes) -> Result<(), NoMemory> {
        self.target.put(out)?;
        self.diag.put(out)
    }

    ghost has_a_byte = { λ t _. track_request-some t };
}

impl Layout for TrackRequest {
    ghost in_range = { IsTrackRequestInRange };

    ghost reading = { track_request_at };

    #[tactic(auto, unfolding(crate::specs::Tracks::track_request_at))]
    fn take(alloc: Global, from: &mut Cursor<'_>) -> Result<TrackRequest, DecodeFault> {
        let target = Target::take(alloc, from)?;
        let diag = DiagRequest::take(alloc, from)?;
        Ok(TrackRequest { target, diag })
    }

    ghost is_layout = { track_request_laid };
}

impl Spell for TrackAnswer {
    ghost spelling = { track_answer };

    ghost is_spelled = { IsSpelledTrackAnswer };

    fn fits(&self) -> bool {
        self.diag.fits()
    }

    #[tactic(auto, using(wire_core::proofs::Puts::lengths), unfolding(crate::specs::Tracks::track_answer))]
    fn len(&self) -> u64 {
        self.diag.len().saturating_add(18)
    }

    #[tactic(auto, using(wire_core::proofs::Puts::fronts, wire_core::proofs::Puts::lengths), unfolding(crate::specs::Tracks::track_answer))]
    fn put(&self, out: &mut Bytes) -> Result<(), NoMemory> {
        put_u8(out, NODE)?;
        put_inner(out, 1, &self.next)?;
        self.diag.put(out)
    }

    ghost has_a_byte = { λ t _. track_answer-some t };
}

impl Layout for TrackAnswer {
    ghost in_range = { IsTrackAnswerInRange };

    ghost reading = { track_answer_at };

    #[tactic(auto, unfolding(crate::specs::Tracks::track_answer_at))]
    fn take(alloc: Global, from: &mut Cursor<'_>) -> Result<TrackAnswer, DecodeFault> {
        from.expect(1, u32::from(NODE))?;
        let next = take_sized(alloc, from, 1, u32::from(ID_LENGTH))?;
        let diag = DiagResponse::take(alloc, from)?;
        Ok(TrackAnswer { next, diag })
    }

    ghost is_layout = { track_answer_laid };
}
