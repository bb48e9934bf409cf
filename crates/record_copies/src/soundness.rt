//! Whether a note and its Store make sense.

ghost use Rattle.std.specs.Prelude.{◌≡◌};
ghost use Rattle.node_model.specs.Copies as model;

use crate::agreeing::all_agree;
use crate::rising::kinds_rise;
use crate::sound_kinds::are_sound_kinds;
use crate::weighing::kinds_weight;
use data_models::{Config, StoreKind};
use peer_note::StoreNote;
use storage_model::{MAX_KEPT, MAX_WEIGHT};

/// Whether a note and its Store agree and are within the limits of a record.
#[tactic(auto, unfolding(node_model::specs::Copies::is_sound_copy), using(crate::proofs::Placing::weighed))]
pub(crate) fn is_sound_copy(config: &Config, note: &StoreNote, kinds: &[StoreKind]) -> bool
    ensures { result ≡ model.is_sound_copy config.now note.now kinds.now }
{
    let notes = note.kinds.as_slice();
    all_agree(notes, kinds)
        && kinds_rise(notes)
        && are_sound_kinds(config, notes)
        && note.kept.len() <= MAX_KEPT
        && kinds_weight(notes, kinds) <= MAX_WEIGHT
}
