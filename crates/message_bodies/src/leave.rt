//! Leave: a peer goes, and tells its neighbors of its own (RFC 6940, sections 6.4.2.2 and 10.9).

ghost use Rattle.std.specs.Prelude.{◌≡◌, ◌++◌, ◌<◌, ◌^◌, OnOk, OnErr, length, take};
ghost use Rattle.wire_core.specs.Reading.{Decodes};
ghost use Rattle.wire_core.specs.Spelling.{number, vector};
ghost use Rattle.message_bodies.specs.NodeIds.{node_ids};
ghost use Rattle.message_bodies.specs.Leave.{chord_leave, IsSpelledChordLeave, IsChordLeaveInRange, from_succ_at, from_pred_at, chord_leave_of, chord_leave_at, leave, leave_at, IsSpelledLeave};
ghost use Rattle.message_bodies.specs.Laws.Leave.{chord_leave_laid, chord_leave-some};

use crate::body::Body;
use reload_base::{Bytes, List, NoMemory};
use reload_ids::NodeId;
use std::alloc::Global;
use wire_core::{
    Bad, Cursor, DecodeFault, Layout, Reason, Spell, list_len, put_inner, put_u8, put_vector,
    take_inner, take_vector,
};

/// The neighbors that a leaving peer tells of. Each list spells at most 65,535 bytes.
#[derive(Debug, Drop)]
pub enum ChordLeave {
    /// The leaver is the successor of whom it tells: those behind it.
    FromSucc { successors: List<NodeId> },
    /// The leaver is the predecessor of whom it tells: those before it.
    FromPred { predecessors: List<NodeId> },
}

impl Spell for ChordLeave {
    ghost spelling = { chord_leave };

    ghost is_spelled = { IsSpelledChordLeave };

    fn fits(&self) -> bool {
        match self {
            ChordLeave::FromSucc { successors } => list_len(successors) < 0x1_0000,
            ChordLeave::FromPred { predecessors } => list_len(predecessors) < 0x1_0000,
        }
    }

    #[tactic(auto, using(wire_core::proofs::Puts::lengths), unfolding(crate::specs::Leave::chord_leave))]
    fn len(&self) -> u64 {
        match self {
            ChordLeave::FromSucc { successors } => list_len(successors).saturating_add(3),
            ChordLeave::FromPred { predecessors } => list_len(predecessors).saturating_add(3),
        }
    }

    #[tactic(auto, using(wire_core::proofs::Puts::fronts), unfolding(crate::specs::Leave::chord_leave))]
    fn put(&self, out: &mut Bytes) -> Result<(), NoMemory> {
        match self {
            ChordLeave::FromSucc { successors } => put_neighbors(out, 1, successors),
            ChordLeave::FromPred { predecessors } => put_neighbors(out, 2, predecessors),
        }
    }

    ghost has_a_byte = { λ told _. chord_leave-some told };
}

impl Layout for ChordLeave {
    ghost in_range = { IsChordLeaveInRange };

    ghost reading = { chord_leave_at };

    #[tactic(auto, unfolding(crate::specs::Leave::chord_leave_at, crate::specs::Leave::chord_leave_of))]
    fn take(alloc: Global, from: &mut Cursor<'_>) -> Result<ChordLeave, DecodeFault> {
        let place = from.place();
        let code = from.take_u8()?;
        match code {
            1 => take_from_succ(alloc, from),
            2 => take_from_pred(alloc, from),
            _ => Err(DecodeFault::Bad(Bad {
                place,
                reason: Reason::BadValue,
            })),
        }
    }

    ghost is_layout = { chord_leave_laid };
}

#[tactic(auto, unfolding(crate::specs::Leave::from_succ_at))]
fn take_from_succ(alloc: Global, from: &mut Cursor<'_>) -> Result<ChordLeave, DecodeFault>
    ensures { Decodes result from.new (from_succ_at from.old) }
{
    let successors = take_vector(alloc, from, 2)?;
    Ok(ChordLeave::FromSucc { successors })
}

#[tactic(auto, unfolding(crate::specs::Leave::from_pred_at))]
fn take_from_pred(alloc: Global, from: &mut Cursor<'_>) -> Result<ChordLeave, DecodeFault>
    ensures { Decodes result from.new (from_pred_at from.old) }
{
    let predecessors = take_vector(alloc, from, 2)?;
    Ok(ChordLeave::FromPred { predecessors })
}

/// A type, and a vector of nodes.
#[tactic(auto, using(wire_core::proofs::Puts::fronts))]
fn put_neighbors(out: &mut Bytes, code: u8, nodes: &List<NodeId>) -> Result<(), NoMemory>
    requires { length (node_ids nodes.now) < 2 ^ 16 }
    ensures ok { OnOk result (out.new ≡ out.old ++ (number 1 code ++ vector 2
        (node_ids nodes.now))) }
    ensures err { OnErr result (take (length out.old) out.new ≡ out.old) }
{
    put_u8(out, code)?;
    put_vector(out, 2, nodes)
}

#[tactic(auto, unfolding(crate::specs::Leave::leave_at))]
pub(crate) fn take_leave(alloc: Global, from: &mut Cursor<'_>) -> Result<Body, DecodeFault>
    ensures { Decodes result from.new (leave_at from.old) }
{
    let leaving_peer_id = NodeId::take(alloc, from)?;
    let overlay_specific_data = take_inner(alloc, from, 2)?;
    Ok(Body::Leave {
        leaving_peer_id,
        overlay_specific_data,
    })
}

#[tactic(auto, using(wire_core::proofs::Puts::fronts), unfolding(crate::specs::Leave::leave))]
pub(crate) fn put_leave(
    out: &mut Bytes,
    leaving_peer_id: NodeId,
    told: &ChordLeave,
) -> Result<(), NoMemory>
    requires { IsSpelledLeave told.now }
    ensures ok { OnOk result (out.new ≡ out.old ++ leave leaving_peer_id told.now) }
    ensures err { OnErr result (take (length out.old) out.new ≡ out.old) }
{
    leaving_peer_id.put(out)?;
    put_inner(out, 2, told)
}
