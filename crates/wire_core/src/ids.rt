//! Node-IDs and Resource-IDs (RFC 6940, section 6.3.1.1).

ghost use Rattle.wire_core.specs.Ids.{node_id, resource_id, IsNodeIdInRange, IsResourceIdInRange, node_id_at, resource_id_at};
ghost use Rattle.wire_core.specs.Laws.Ids.{node_id_laid, node_id-some, resource_id_laid, resource_id-some};

use crate::bad::DecodeFault;
use crate::cursor::Cursor;
use crate::layout::{Layout, Spell};
use crate::limits::RESOURCE_ID_LENGTH;
use crate::put::{put_u8, put_u128};
use reload_base::{Bytes, NoMemory};
use reload_ids::{ID_LENGTH, NodeId, ResourceId};
use std::alloc::Global;

impl Spell for NodeId {
    ghost spelling = { node_id };

    ghost is_spelled = { λ _. Unit {0} };

    fn fits(&self) -> bool {
        true
    }

    #[tactic(auto, using(crate::proofs::Puts::lengths))]
    fn len(&self) -> u64 {
        u64::from(ID_LENGTH)
    }

    #[tactic(auto, using(crate::proofs::Puts::fronts))]
    fn put(&self, out: &mut Bytes) -> Result<(), NoMemory> {
        put_u128(out, self.0)
    }

    ghost has_a_byte = { λ node _. node_id-some node };
}

impl Layout for NodeId {
    ghost in_range = { IsNodeIdInRange };

    ghost reading = { node_id_at };

    #[tactic(auto, unfolding(crate::specs::Ids::node_id_at))]
    fn take(_alloc: Global, from: &mut Cursor<'_>) -> Result<NodeId, DecodeFault> {
        Ok(NodeId(from.take_u128()?))
    }

    ghost is_layout = { node_id_laid };
}

impl Spell for ResourceId {
    ghost spelling = { resource_id };

    ghost is_spelled = { λ _. Unit {0} };

    fn fits(&self) -> bool {
        true
    }

    #[tactic(auto, using(crate::proofs::Puts::lengths))]
    fn len(&self) -> u64 {
        u64::from(RESOURCE_ID_LENGTH)
    }

    #[tactic(auto, using(crate::proofs::Puts::fronts))]
    fn put(&self, out: &mut Bytes) -> Result<(), NoMemory> {
        put_u8(out, ID_LENGTH)?;
        put_u128(out, self.0)
    }

    ghost has_a_byte = { λ resource _. resource_id-some resource };
}

impl Layout for ResourceId {
    ghost in_range = { IsResourceIdInRange };

    ghost reading = { resource_id_at };

    #[tactic(auto, unfolding(crate::specs::Ids::resource_id_at))]
    fn take(_alloc: Global, from: &mut Cursor<'_>) -> Result<ResourceId, DecodeFault> {
        from.expect(1, u32::from(ID_LENGTH))?;
        Ok(ResourceId(from.take_u128()?))
    }

    ghost is_layout = { resource_id_laid };
}
