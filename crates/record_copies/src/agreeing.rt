//! Whether a Store has what its note says.

ghost use Rattle.std.specs.Prelude.{◌≡◌};
ghost use Rattle.std.specs.Str.{bytes_eq};
ghost use Rattle.data_models.specs.Stored.{key_of};
ghost use Rattle.node_model.specs.Copies as model;

use data_models::{KindValues, StoreKind, StoredData};
use peer_note::{KindNote, SlotNote};
use record_state::key_bytes;

/// Whether a Store has the kinds of its note, in their order.
pub(crate) fn all_agree(notes: &[KindNote], kinds: &[StoreKind]) -> bool
    ensures { result ≡ model.all_agree notes.now kinds.now }
{
    let mut left = notes;
    let mut beside = kinds;
    'notes: while let Some((note, others)) = left.split_first() {
        let Some((kind, more)) = beside.split_first() else {
            return false;
        };
        if !agrees(note, kind) {
            return false;
        }
        left = others;
        beside = more;
    }
    beside.is_empty()
}

/// Whether a kind of a Store is that of its note, with the same generation and the values of its
/// slots.
#[tactic(auto, unfolding(node_model::specs::Copies::agrees))]
fn agrees(note: &KindNote, kind: &StoreKind) -> bool
    ensures { result ≡ model.agrees note.now kind.now }
{
    note.kind == kind.kind
        && note.generation == kind.generation
        && are_values_of(note.slots.as_slice(), values_in(&kind.values))
}

/// The values of a kind, none where it has no definition.
pub(crate) fn values_in(values: &KindValues) -> &[StoredData]
    ensures { result.now ≡ model.values_in values.now }
{
    match values {
        KindValues::Known(values) => values.as_slice(),
        KindValues::Raw(_) => &[],
    }
}

/// Whether the values beside a note are those of its slots, in their order.
fn are_values_of(notes: &[SlotNote], values: &[StoredData]) -> bool
    ensures { result ≡ model.are_values_of notes.now values.now }
{
    let mut left = notes;
    let mut beside = values;
    'notes: while let Some((note, others)) = left.split_first() {
        left = others;
        if note.held {
            let Some((value, more)) = beside.split_first() else {
                return false;
            };
            if !has_key(value, note) {
                return false;
            }
            beside = more;
        }
    }
    beside.is_empty()
}

/// Whether a value is for the slot of a note.
fn has_key(value: &StoredData, note: &SlotNote) -> bool
    ensures { result ≡ bytes_eq (key_of value.now.key) note.now.key }
{
    let mut room = [0; 4];
    key_bytes(&value.key, &mut room) == note.key.as_slice()
}
