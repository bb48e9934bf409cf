//! The answer to a Store: a generation for each kind, and where its replicas are (RFC 6940, section
//! 7.4.1.2).

ghost use Rattle.wire_core.specs.Reading.{Decodes};
ghost use Rattle.message_bodies.specs.StoreAns.{store_response, store_response_at, IsSpelledStoreResponse, IsStoreResponseInRange, store_ans_at};
ghost use Rattle.message_bodies.specs.Laws.StoreAns.{store_response_laid, store_response-some};

use crate::body::Body;
use reload_base::{Bytes, List, NoMemory};
use reload_ids::NodeId;
use std::alloc::Global;
use wire_core::{
    Cursor, DecodeFault, Layout, Spell, list_len, put_u32, put_u64, put_vector, take_vector,
};

/// What became of one kind.
#[derive(Debug, Drop)]
pub struct StoreKindResponse {
    /// Its Kind-ID.
    pub kind: u32,
    pub generation: u64,
    /// The peers that hold copies. They spell at most 65,535 bytes.
    pub replicas: List<NodeId>,
}

impl Spell for StoreKindResponse {
    ghost spelling = { store_response };

    ghost is_spelled = { IsSpelledStoreResponse };

    fn fits(&self) -> bool {
        list_len(&self.replicas) < 0x1_0000
    }

    #[tactic(auto, using(wire_core::proofs::Puts::lengths), unfolding(crate::specs::StoreAns::store_response))]
    fn len(&self) -> u64 {
        list_len(&self.replicas).saturating_add(14)
    }

    #[tactic(auto, using(wire_core::proofs::Puts::fronts), unfolding(crate::specs::StoreAns::store_response))]
    fn put(&self, out: &mut Bytes) -> Result<(), NoMemory> {
        put_u32(out, self.kind)?;
        put_u64(out, self.generation)?;
        put_vector(out, 2, &self.replicas)
    }

    ghost has_a_byte = { λ r _. store_response-some r };
}

impl Layout for StoreKindResponse {
    ghost in_range = { IsStoreResponseInRange };

    ghost reading = { store_response_at };

    #[tactic(auto, unfolding(crate::specs::StoreAns::store_response_at))]
    fn take(alloc: Global, from: &mut Cursor<'_>) -> Result<StoreKindResponse, DecodeFault> {
        let kind = from.take_u32()?;
        let generation = from.take_u64()?;
        let replicas = take_vector(alloc, from, 2)?;
        Ok(StoreKindResponse {
            kind,
            generation,
            replicas,
        })
    }

    ghost is_layout = { store_response_laid };
}

#[tactic(auto, unfolding(crate::specs::StoreAns::store_ans_at))]
pub(crate) fn take_store_ans(alloc: Global, from: &mut Cursor<'_>) -> Result<Body, DecodeFault>
    ensures { Decodes result from.new (store_ans_at from.old) }
{
    let kind_responses = take_vector(alloc, from, 2)?;
    Ok(Body::StoreAns { kind_responses })
}
