//! Update: what a peer tells of itself and of whom it knows (RFC 6940, sections 6.4.2.3 and
//! 10.7).

ghost use Rattle.std.specs.Prelude.{◌≡◌, ◌↔◌, ◌++◌, IsTrue, OnOk, OnErr, length, take};
ghost use Rattle.wire_core.specs.Reading.{Decodes};
ghost use Rattle.message_bodies.specs.Update.{chord_update, FitNodes, IsSpelledChordUpdate, IsChordUpdateInRange, neighbors_at, full_at, chord_update_of, chord_update_at, update, update_at};
ghost use Rattle.message_bodies.specs.Laws.Update.{chord_update_laid, chord_update-some};

use crate::body::Body;
use reload_base::{Bytes, List, NoMemory};
use reload_ids::NodeId;
use std::alloc::Global;
use wire_core::{
    Bad, Cursor, DecodeFault, Layout, Reason, Spell, list_len, put_u8, put_u32, put_vector,
    take_vector,
};

/// Whom a peer tells of, nearest first. Each list spells at most 65,535 bytes.
#[derive(Debug, Drop)]
pub enum ChordUpdate {
    /// Nobody: the peer is ready.
    PeerReady,
    /// Its neighbors.
    Neighbors {
        predecessors: List<NodeId>,
        successors: List<NodeId>,
    },
    /// All that it knows.
    Full {
        predecessors: List<NodeId>,
        successors: List<NodeId>,
        fingers: List<NodeId>,
    },
}

fn nodes_fit(nodes: &List<NodeId>) -> bool
    ensures { IsTrue result ↔ FitNodes nodes.now }
{
    list_len(nodes) < 0x1_0000
}

impl Spell for ChordUpdate {
    ghost spelling = { chord_update };

    ghost is_spelled = { IsSpelledChordUpdate };

    fn fits(&self) -> bool {
        match self {
            ChordUpdate::PeerReady => true,
            ChordUpdate::Neighbors {
                predecessors,
                successors,
            } => nodes_fit(predecessors) && nodes_fit(successors),
            ChordUpdate::Full {
                predecessors,
                successors,
                fingers,
            } => nodes_fit(predecessors) && nodes_fit(successors) && nodes_fit(fingers),
        }
    }

    #[tactic(auto, using(wire_core::proofs::Puts::lengths), unfolding(crate::specs::Update::chord_update))]
    fn len(&self) -> u64 {
        match self {
            ChordUpdate::PeerReady => 1,
            ChordUpdate::Neighbors {
                predecessors,
                successors,
            } => list_len(predecessors)
                .saturating_add(list_len(successors))
                .saturating_add(5),
            ChordUpdate::Full {
                predecessors,
                successors,
                fingers,
            } => list_len(predecessors)
                .saturating_add(list_len(successors))
                .saturating_add(list_len(fingers))
                .saturating_add(7),
        }
    }

    #[tactic(auto, using(wire_core::proofs::Puts::fronts), unfolding(crate::specs::Update::chord_update))]
    fn put(&self, out: &mut Bytes) -> Result<(), NoMemory> {
        match self {
            ChordUpdate::PeerReady => put_u8(out, 1),
            ChordUpdate::Neighbors {
                predecessors,
                successors,
            } => put_neighbors(out, predecessors, successors),
            ChordUpdate::Full {
                predecessors,
                successors,
                fingers,
            } => put_full(out, predecessors, successors, fingers),
        }
    }

    ghost has_a_byte = { λ told _. chord_update-some told };
}

impl Layout for ChordUpdate {
    ghost in_range = { IsChordUpdateInRange };

    ghost reading = { chord_update_at };

    #[tactic(auto, unfolding(crate::specs::Update::chord_update_at, crate::specs::Update::chord_update_of))]
    fn take(alloc: Global, from: &mut Cursor<'_>) -> Result<ChordUpdate, DecodeFault> {
        let place = from.place();
        let code = from.take_u8()?;
        match code {
            1 => Ok(ChordUpdate::PeerReady),
            2 => take_neighbors(alloc, from),
            3 => take_full(alloc, from),
            _ => Err(DecodeFault::Bad(Bad {
                place,
                reason: Reason::BadValue,
            })),
        }
    }

    ghost is_layout = { chord_update_laid };
}

#[tactic(auto, unfolding(crate::specs::Update::neighbors_at))]
fn take_neighbors(alloc: Global, from: &mut Cursor<'_>) -> Result<ChordUpdate, DecodeFault>
    ensures { Decodes result from.new (neighbors_at from.old) }
{
    let predecessors = take_vector(alloc, from, 2)?;
    let successors = take_vector(alloc, from, 2)?;
    Ok(ChordUpdate::Neighbors {
        predecessors,
        successors,
    })
}

#[tactic(auto, unfolding(crate::specs::Update::full_at))]
fn take_full(alloc: Global, from: &mut Cursor<'_>) -> Result<ChordUpdate, DecodeFault>
    ensures { Decodes result from.new (full_at from.old) }
{
    let predecessors = take_vector(alloc, from, 2)?;
    let successors = take_vector(alloc, from, 2)?;
    let fingers = take_vector(alloc, from, 2)?;
    Ok(ChordUpdate::Full {
        predecessors,
        successors,
        fingers,
    })
}

#[tactic(auto, using(wire_core::proofs::Puts::fronts), unfolding(crate::specs::Update::chord_update))]
fn put_neighbors(
    out: &mut Bytes,
    predecessors: &List<NodeId>,
    successors: &List<NodeId>,
) -> Result<(), NoMemory>
    requires before { FitNodes predecessors.now }
    requires behind { FitNodes successors.now }
    ensures ok { OnOk result (out.new
        ≡ out.old ++ chord_update (ChordUpdate.Neighbors predecessors.now successors.now)) }
    ensures err { OnErr result (take (length out.old) out.new ≡ out.old) }
{
    put_u8(out, 2)?;
    put_vector(out, 2, predecessors)?;
    put_vector(out, 2, successors)
}

#[tactic(auto, using(wire_core::proofs::Puts::fronts), unfolding(crate::specs::Update::chord_update))]
fn put_full(
    out: &mut Bytes,
    predecessors: &List<NodeId>,
    successors: &List<NodeId>,
    fingers: &List<NodeId>,
) -> Result<(), NoMemory>
    requires before { FitNodes predecessors.now }
    requires behind { FitNodes successors.now }
    requires far { FitNodes fingers.now }
    ensures ok { OnOk result (out.new
        ≡ out.old ++ chord_update (ChordUpdate.Full predecessors.now successors.now fingers.now)) }
    ensures err { OnErr result (take (length out.old) out.new ≡ out.old) }
{
    put_u8(out, 3)?;
    put_vector(out, 2, predecessors)?;
    put_vector(out, 2, successors)?;
    put_vector(out, 2, fingers)
}

#[tactic(auto, unfolding(crate::specs::Update::update_at))]
pub(crate) fn take_update(alloc: Global, from: &mut Cursor<'_>) -> Result<Body, DecodeFault>
    ensures { Decodes result from.new (update_at from.old) }
{
    let uptime = from.take_u32()?;
    let update = ChordUpdate::take(alloc, from)?;
    Ok(Body::Update { uptime, update })
}

#[tactic(auto, using(wire_core::proofs::Puts::fronts), unfolding(crate::specs::Update::update))]
pub(crate) fn put_update(out: &mut Bytes, uptime: u32, told: &ChordUpdate) -> Result<(), NoMemory>
    requires { IsSpelledChordUpdate told.now }
    ensures ok { OnOk result (out.new ≡ out.old ++ update uptime told.now) }
    ensures err { OnErr result (take (length out.old) out.new ≡ out.old) }
{
    put_u32(out, uptime)?;
    told.put(out)
}
