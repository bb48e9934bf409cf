//! Answers that are kept, so that a request which comes again is answered as before.

ghost use Rattle.peer_note.specs.Kept.{kept_answer, kept_answer_at, IsSpelledKeptAnswer, IsKeptAnswerInRange};
ghost use Rattle.peer_note.specs.Laws.Kept.{kept_answer_laid, kept_answer-some};

use reload_base::{Bytes, List, NoMemory};
use reload_ids::NodeId;
use std::alloc::Global;
use wire_core::{
    Cursor, DecodeFault, Layout, Spell, list_len, put_u16, put_u64, put_vector, take_vector,
};

/// An answer that is kept.
#[derive(Debug, Drop)]
pub struct KeptAnswer {
    /// Who asked.
    pub origin: NodeId,
    /// The transaction id of the request.
    pub id: u64,
    /// The error code, or 0 for ok.
    pub code: u16,
    /// The generation of each kind, behind its Kind-ID. They spell at most 65,535 bytes.
    pub counters: List<(u32, u64)>,
}

impl Spell for KeptAnswer {
    ghost spelling = { kept_answer };

    ghost is_spelled = { IsSpelledKeptAnswer };

    fn fits(&self) -> bool {
        list_len(&self.counters) < 0x1_0000
    }

    #[tactic(auto, using(wire_core::proofs::Puts::lengths), unfolding(crate::specs::Kept::kept_answer))]
    fn len(&self) -> u64 {
        list_len(&self.counters).saturating_add(28)
    }

    #[tactic(auto, using(wire_core::proofs::Puts::fronts), unfolding(crate::specs::Kept::kept_answer))]
    fn put(&self, out: &mut Bytes) -> Result<(), NoMemory> {
        self.origin.put(out)?;
        put_u64(out, self.id)?;
        put_u16(out, self.code)?;
        put_vector(out, 2, &self.counters)
    }

    ghost has_a_byte = { λ k _. kept_answer-some k };
}

impl Layout for KeptAnswer {
    ghost in_range = { IsKeptAnswerInRange };

    ghost reading = { kept_answer_at };

    #[tactic(auto, unfolding(crate::specs::Kept::kept_answer_at))]
    fn take(alloc: Global, from: &mut Cursor<'_>) -> Result<KeptAnswer, DecodeFault> {
        let origin = NodeId::take(alloc, from)?;
        let id = from.take_u64()?;
        let code = from.take_u16()?;
        let counters = take_vector(alloc, from, 2)?;
        Ok(KeptAnswer {
            origin,
            id,
            code,
            counters,
        })
    }

    ghost is_layout = { kept_answer_laid };
}
