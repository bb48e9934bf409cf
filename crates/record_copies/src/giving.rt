//! The record that a note and its Store say.

ghost use Rattle.std.specs.Prelude.{◌≡◌, ◌≤◌, ◌<◌, [], length, map, IfOk, OnOk};
ghost use Rattle.std.specs.FinMap.{empty, from_sorted};
ghost use Rattle.storage_model.specs.declared.limits.TheConstants.{MAX_KEPT, MAX_WEIGHT};
ghost use Rattle.record_state.specs.Written.{kind_written, HaveRisingKeys};
ghost use Rattle.node_model.specs.Copies as model;
ghost use Rattle.record_copies.specs.Said as said;

use crate::rest::Rest;
use crate::slots::slots_said;
use crate::soundness::is_sound_copy;
use data_models::{Config, KindValues, StoreKind, StoredData};
use kind_store::Record;
use peer_note::{KeptAnswer, KindNote, StoreNote};
use reload_base::{List, NoMemory};
use std::alloc::Global;
use storage_model::{Kept, KindRecord};

/// The record that a note and its Store say, where they make sense; the values move.
#[tactic(auto, unfolding(node_model::specs::Copies::given_record))]
pub fn given_record(
    alloc: Global,
    config: &Config,
    note: StoreNote,
    kinds: List<StoreKind>,
) -> Result<Option<Record>, NoMemory>
    ensures { IfOk result (λ given. given ≡ model.given_record config.now note kinds) }
{
    if !is_sound_copy(config, &note, kinds.as_slice()) {
        return Ok(None);
    }
    Ok(Some(record_said(alloc, note, kinds)?))
}

/// The record that a note and its Store say.
#[tactic(auto, unfolding(node_model::specs::Copies::record_said))]
fn record_said(alloc: Global, note: StoreNote, kinds: List<StoreKind>) -> Result<Record, NoMemory>
    requires placed { said.ArePlaced note.kinds kinds }
    requires few { length note.kept ≤ MAX_KEPT }
    ensures { IfOk result (λ given. given ≡ model.record_said note kinds) }
{
    let StoreNote {
        turn,
        joined,
        kinds: notes,
        kept,
    } = note;
    let mut given = Record::new(alloc, turn, joined);
    push_kinds(&mut given, alloc, notes, kinds)?;
    push_answers(&mut given, kept)?;
    Ok(given)
}

/// Adds the kinds that a note and a Store say to a record that has none.
fn push_kinds(
    given: &mut Record,
    alloc: Global,
    notes: List<KindNote>,
    kinds: List<StoreKind>,
) -> Result<(), NoMemory>
    requires new { given.old.kinds ≡ empty }
    requires placed { said.ArePlaced notes kinds }
    ensures { OnOk result (given.new
        ≡ record given.old { kinds = from_sorted (model.kinds_said notes kinds) }) }
{
    let mut left = Rest::of(notes);
    let mut beside = Rest::of(kinds);
    'notes: while let Some(note) = left.take() {
        let Some(kind) = beside.take() else {
            return Ok(());
        };
        given.push_kind(kind_said(alloc, note, kind)?)?;
    }
    Ok(())
}

/// A kind that its note and its values say.
#[tactic(auto, unfolding(node_model::specs::Copies::kind_said))]
fn kind_said(alloc: Global, note: KindNote, kind: StoreKind) -> Result<KindRecord, NoMemory>
    requires placed { said.IsPlaced note }
    requires light { said.kind_weight_said note kind ≤ MAX_WEIGHT }
    ensures kind { IfOk result (λ k. (k.kind, kind_written k) ≡ model.kind_said note kind) }
    ensures some { IfOk result (λ k. 0 < length k.slots) }
    ensures rising { IfOk result (λ k. HaveRisingKeys k.slots) }
{
    let KindNote {
        kind: id,
        generation,
        append_floor,
        slots,
    } = note;
    let slots = slots_said(alloc, slots, values_of(alloc, kind))?;
    Ok(KindRecord {
        kind: id,
        generation,
        append_floor,
        slots,
    })
}

/// The values of a kind, none where it has no definition.
fn values_of(alloc: Global, kind: StoreKind) -> List<StoredData>
    ensures { result ≡ model.values_in kind.values }
{
    let StoreKind {
        kind: _,
        generation: _,
        values,
    } = kind;
    match values {
        KindValues::Known(values) => values,
        KindValues::Raw(_) => List::new(alloc),
    }
}

/// Adds the answers that a note says to a record that keeps none.
fn push_answers(given: &mut Record, answers: List<KeptAnswer>) -> Result<(), NoMemory>
    requires new { given.old.kept ≡ [] }
    requires few { length answers ≤ MAX_KEPT }
    ensures { OnOk result (given.new ≡ record given.old { kept = map model.kept_said answers }) }
{
    let mut left = Rest::of(answers);
    'answers: while let Some(answer) = left.take() {
        given.push_kept(kept_said(answer))?;
    }
    Ok(())
}

/// An answer that is kept, as a note says it.
fn kept_said(answer: KeptAnswer) -> Kept
    ensures { result ≡ model.kept_said answer }
{
    let KeptAnswer {
        origin,
        id,
        code,
        counters,
    } = answer;
    Kept {
        origin,
        id,
        code,
        counters,
    }
}
