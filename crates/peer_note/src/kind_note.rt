//! What a note says of the kinds of a record.

ghost use Rattle.wire_core.specs.Reading.{Reads};
ghost use Rattle.peer_note.specs.Kinds.{turn_at, slot_note, slot_note_at, IsSpelledSlotNote, IsSlotNoteInRange, kind_note, kind_note_at, IsSpelledKindNote, IsKindNoteInRange};
ghost use Rattle.peer_note.specs.Laws.Kinds.{slot_note_laid, slot_note-some, kind_note_laid, kind_note-some};

use crate::TURN_LIMIT;
use reload_base::{Bytes, List, NoMemory};
use std::alloc::Global;
use wire_core::{
    Bad, Cursor, DecodeFault, Layout, Reason, Spell, allowed, list_fits, list_len, put_boolean,
    put_bytes, put_u32, put_u64, put_vector, take_bytes, take_vector,
};

/// A slot of a kind. Slots come by rising key.
#[derive(Debug, Drop)]
pub struct SlotNote {
    /// Empty for a single value, the index in four bytes for an array, the name for a dictionary;
    /// at most 65,535 bytes.
    pub key: Bytes,
    /// The greatest storage time that was put there, in ms.
    pub floor: u64,
    /// Whether the Store beside the note has a value for it.
    pub held: bool,
    /// The clock, in ms, at which the value expires; 0 where none is held.
    pub expiry: u64,
}

/// A kind of a record. Kinds come by rising Kind-ID.
#[derive(Debug, Drop)]
pub struct KindNote {
    /// Its Kind-ID.
    pub kind: u32,
    /// Below `TURN_LIMIT`.
    pub generation: u64,
    /// The greatest storage time that was appended, in ms.
    pub append_floor: u64,
    /// They spell fewer than 2^32 bytes.
    pub slots: List<SlotNote>,
}

/// A turn or a generation, which is below `TURN_LIMIT`.
#[tactic(auto, unfolding(crate::specs::Kinds::turn_at))]
pub(crate) fn take_turn(from: &mut Cursor<'_>) -> Result<u64, Bad>
    ensures { Reads result from.new (turn_at from.old) }
{
    let place = from.place();
    let turn = from.take_u64()?;
    allowed(turn < TURN_LIMIT, place, Reason::BadValue)?;
    Ok(turn)
}

impl Spell for SlotNote {
    ghost spelling = { slot_note };

    ghost is_spelled = { IsSpelledSlotNote };

    fn fits(&self) -> bool {
        self.key.len() < 0x1_0000
    }

    #[tactic(auto, using(wire_core::proofs::Puts::lengths), unfolding(crate::specs::Kinds::slot_note))]
    fn len(&self) -> u64 {
        (self.key.len() as u64).saturating_add(19)
    }

    #[tactic(auto, using(wire_core::proofs::Puts::fronts), unfolding(crate::specs::Kinds::slot_note))]
    fn put(&self, out: &mut Bytes) -> Result<(), NoMemory> {
        put_bytes(out, 2, self.key.as_slice())?;
        put_u64(out, self.floor)?;
        put_boolean(out, self.held)?;
        put_u64(out, self.expiry)
    }

    ghost has_a_byte = { λ s _. slot_note-some s };
}

impl Layout for SlotNote {
    ghost in_range = { IsSlotNoteInRange };

    ghost reading = { slot_note_at };

    #[tactic(auto, unfolding(crate::specs::Kinds::slot_note_at))]
    fn take(alloc: Global, from: &mut Cursor<'_>) -> Result<SlotNote, DecodeFault> {
        let key = take_bytes(alloc, from, 2)?;
        let floor = from.take_u64()?;
        let held = from.take_boolean()?;
        let expiry = from.take_u64()?;
        Ok(SlotNote {
            key,
            floor,
            held,
            expiry,
        })
    }

    ghost is_layout = { slot_note_laid };
}

impl Spell for KindNote {
    ghost spelling = { kind_note };

    ghost is_spelled = { IsSpelledKindNote };

    fn fits(&self) -> bool {
        self.generation < TURN_LIMIT
            && list_fits(&self.slots)
            && list_len(&self.slots) < 0x1_0000_0000
    }

    #[tactic(auto, using(wire_core::proofs::Puts::lengths), unfolding(crate::specs::Kinds::kind_note))]
    fn len(&self) -> u64 {
        list_len(&self.slots).saturating_add(24)
    }

    #[tactic(auto, using(wire_core::proofs::Puts::fronts), unfolding(crate::specs::Kinds::kind_note))]
    fn put(&self, out: &mut Bytes) -> Result<(), NoMemory> {
        put_u32(out, self.kind)?;
        put_u64(out, self.generation)?;
        put_u64(out, self.append_floor)?;
        put_vector(out, 4, &self.slots)
    }

    ghost has_a_byte = { λ k _. kind_note-some k };
}

impl Layout for KindNote {
    ghost in_range = { IsKindNoteInRange };

    ghost reading = { kind_note_at };

    #[tactic(auto, unfolding(crate::specs::Kinds::kind_note_at))]
    fn take(alloc: Global, from: &mut Cursor<'_>) -> Result<KindNote, DecodeFault> {
        let kind = from.take_u32()?;
        let generation = take_turn(from)?;
        let append_floor = from.take_u64()?;
        let slots = take_vector(alloc, from, 4)?;
        Ok(KindNote {
            kind,
            generation,
            append_floor,
            slots,
        })
    }

    ghost is_layout = { kind_note_laid };
}
