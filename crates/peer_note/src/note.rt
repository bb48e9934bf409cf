//! A note as it lies in an extension.

ghost use Rattle.std.specs.Prelude.{◌≡◌, ◌++◌, OnOk, OnErr, length, take};
ghost use Rattle.wire_core.specs.Reading.{Decodes};
ghost use Rattle.peer_note.specs.Notes.{store_note, store_note_at, IsSpelledStoreNote, form, store_form_at, form_of, form_at, IsSpelledForm, note, note_at, IsSpelledNote, IsStoreNoteInRange, IsFormInRange, IsNoteInRange};
ghost use Rattle.peer_note.specs.Laws.Notes.{store_note_laid, store_note-some, form_laid, form-some, note_laid, note-some};

use crate::TURN_LIMIT;
use crate::kept_answer::KeptAnswer;
use crate::kind_note::{KindNote, take_turn};
use reload_base::{Bytes, List, NoMemory};
use std::alloc::Global;
use wire_core::{
    Bad, Cursor, DecodeFault, Layout, Reason, Spell, list_fits, list_len, put_boolean, put_u8,
    put_u64, put_vector, take_vector,
};

/// The form of a Store's note.
const STORE: u8 = 1;

/// The form of the note of an Update or a Leave.
const PLAIN: u8 = 2;

/// What the note of a Store says of the record that the Store copies.
#[derive(Debug, Drop)]
pub struct StoreNote {
    /// The record's turn, below `TURN_LIMIT`.
    pub turn: u64,
    /// Whether a peer joined at this resource.
    pub joined: bool,
    /// By rising Kind-ID. They spell fewer than 2^32 bytes.
    pub kinds: List<KindNote>,
    /// Oldest first. They spell fewer than 2^32 bytes.
    pub kept: List<KeptAnswer>,
}

/// What a note says beside its channel.
#[derive(Debug, Drop)]
pub enum NoteForm {
    /// In a Store.
    Store(StoreNote),
    /// In an Update or a Leave.
    Plain,
}

/// A note.
#[derive(Debug, Drop)]
pub struct PeerNote {
    /// The number of the message on its channel.
    pub channel: u64,
    pub form: NoteForm,
}

impl Spell for StoreNote {
    ghost spelling = { store_note };

    ghost is_spelled = { IsSpelledStoreNote };

    fn fits(&self) -> bool {
        self.turn < TURN_LIMIT
            && list_fits(&self.kinds)
            && list_fits(&self.kept)
            && list_len(&self.kinds) < 0x1_0000_0000
            && list_len(&self.kept) < 0x1_0000_0000
    }

    #[tactic(auto, using(wire_core::proofs::Puts::lengths), unfolding(crate::specs::Notes::store_note))]
    fn len(&self) -> u64 {
        list_len(&self.kinds)
            .saturating_add(list_len(&self.kept))
            .saturating_add(17)
    }

    #[tactic(auto, using(wire_core::proofs::Puts::fronts), unfolding(crate::specs::Notes::store_note))]
    fn put(&self, out: &mut Bytes) -> Result<(), NoMemory> {
        put_u64(out, self.turn)?;
        put_boolean(out, self.joined)?;
        put_vector(out, 4, &self.kinds)?;
        put_vector(out, 4, &self.kept)
    }

    ghost has_a_byte = { λ n _. store_note-some n };
}

impl Layout for StoreNote {
    ghost in_range = { IsStoreNoteInRange };

    ghost reading = { store_note_at };

    #[tactic(auto, unfolding(crate::specs::Notes::store_note_at))]
    fn take(alloc: Global, from: &mut Cursor<'_>) -> Result<StoreNote, DecodeFault> {
        let turn = take_turn(from)?;
        let joined = from.take_boolean()?;
        let kinds = take_vector(alloc, from, 4)?;
        let kept = take_vector(alloc, from, 4)?;
        Ok(StoreNote {
            turn,
            joined,
            kinds,
            kept,
        })
    }

    ghost is_layout = { store_note_laid };
}

#[tactic(auto, unfolding(crate::specs::Notes::store_form_at))]
fn take_store_form(alloc: Global, from: &mut Cursor<'_>) -> Result<NoteForm, DecodeFault>
    ensures { Decodes result from.new (store_form_at from.old) }
{
    Ok(NoteForm::Store(StoreNote::take(alloc, from)?))
}

#[tactic(auto, using(wire_core::proofs::Puts::fronts), unfolding(crate::specs::Notes::form))]
fn put_store_form(out: &mut Bytes, n: &StoreNote) -> Result<(), NoMemory>
    requires { IsSpelledStoreNote n.now }
    ensures ok { OnOk result (out.new ≡ out.old ++ form (NoteForm.Store n.now)) }
    ensures err { OnErr result (take (length out.old) out.new ≡ out.old) }
{
    put_u8(out, STORE)?;
    n.put(out)
}

impl Spell for NoteForm {
    ghost spelling = { form };

    ghost is_spelled = { IsSpelledForm };

    fn fits(&self) -> bool {
        match self {
            NoteForm::Store(n) => n.fits(),
            NoteForm::Plain => true,
        }
    }

    #[tactic(auto, using(wire_core::proofs::Puts::lengths), unfolding(crate::specs::Notes::form))]
    fn len(&self) -> u64 {
        match self {
            NoteForm::Store(n) => n.len().saturating_add(1),
            NoteForm::Plain => 1,
        }
    }

    #[tactic(auto, using(wire_core::proofs::Puts::fronts), unfolding(crate::specs::Notes::form))]
    fn put(&self, out: &mut Bytes) -> Result<(), NoMemory> {
        match self {
            NoteForm::Store(n) => put_store_form(out, n),
            NoteForm::Plain => put_u8(out, PLAIN),
        }
    }

    ghost has_a_byte = { λ f _. form-some f };
}

impl Layout for NoteForm {
    ghost in_range = { IsFormInRange };

    ghost reading = { form_at };

    #[tactic(auto, unfolding(crate::specs::Notes::form_at, crate::specs::Notes::form_of))]
    fn take(alloc: Global, from: &mut Cursor<'_>) -> Result<NoteForm, DecodeFault> {
        let place = from.place();
        let code = from.take_u8()?;
        match code {
            STORE => take_store_form(alloc, from),
            PLAIN => Ok(NoteForm::Plain),
            _ => Err(DecodeFault::Bad(Bad {
                place,
                reason: Reason::BadValue,
            })),
        }
    }

    ghost is_layout = { form_laid };
}

impl Spell for PeerNote {
    ghost spelling = { note };

    ghost is_spelled = { IsSpelledNote };

    fn fits(&self) -> bool {
        self.form.fits()
    }

    #[tactic(auto, using(wire_core::proofs::Puts::lengths), unfolding(crate::specs::Notes::note))]
    fn len(&self) -> u64 {
        self.form.len().saturating_add(8)
    }

    #[tactic(auto, using(wire_core::proofs::Puts::fronts), unfolding(crate::specs::Notes::note))]
    fn put(&self, out: &mut Bytes) -> Result<(), NoMemory> {
        put_u64(out, self.channel)?;
        self.form.put(out)
    }

    ghost has_a_byte = { λ n _. note-some n };
}

impl Layout for PeerNote {
    ghost in_range = { IsNoteInRange };

    ghost reading = { note_at };

    #[tactic(auto, unfolding(crate::specs::Notes::note_at))]
    fn take(alloc: Global, from: &mut Cursor<'_>) -> Result<PeerNote, DecodeFault> {
        let channel = from.take_u64()?;
        let form = NoteForm::take(alloc, from)?;
        Ok(PeerNote { channel, form })
    }

    ghost is_layout = { note_laid };
}
