//! Whether the kinds of a note, and the slots of each, rise.

ghost use Rattle.std.specs.Prelude.{◌≡◌, nat_lt};
ghost use Rattle.std.specs.Ordering.{nat_cmp, is_lt};
ghost use Rattle.std.specs.Cmp.Lexicographic.{slice_cmp};
ghost use Rattle.node_model.specs.Copies as model;

use peer_note::{KindNote, SlotNote};

/// Whether the Kind-IDs rise.
pub(crate) fn kinds_rise(notes: &[KindNote]) -> bool
    ensures { result ≡ model.rise (λ a b. nat_lt a.kind b.kind) notes.now }
{
    match notes.split_first() {
        Some((first, others)) => kinds_rise_from(first, others),
        None => true,
    }
}

fn kinds_rise_from(first: &KindNote, others: &[KindNote]) -> bool
    ensures { result ≡ model.rise_from (λ a b. nat_lt a.kind b.kind) first.now others.now }
{
    let mut last = first;
    let mut left = others;
    'notes: while let Some((next, more)) = left.split_first() {
        if last.kind >= next.kind {
            return false;
        }
        last = next;
        left = more;
    }
    true
}

/// Whether the keys rise.
pub(crate) fn keys_rise(notes: &[SlotNote]) -> bool
    ensures { result ≡ model.rise (λ a b. is_lt (slice_cmp nat_cmp a.key b.key)) notes.now }
{
    match notes.split_first() {
        Some((first, others)) => keys_rise_from(first, others),
        None => true,
    }
}

fn keys_rise_from(first: &SlotNote, others: &[SlotNote]) -> bool
    ensures { result ≡ model.rise_from (λ a b. is_lt (slice_cmp nat_cmp a.key b.key)) first.now
        others.now }
{
    let mut last = first;
    let mut left = others;
    'notes: while let Some((next, more)) = left.split_first() {
        if !is_below(last, next) {
            return false;
        }
        last = next;
        left = more;
    }
    true
}

fn is_below(slot: &SlotNote, next: &SlotNote) -> bool
    ensures { result ≡ is_lt (slice_cmp nat_cmp slot.now.key next.now.key) }
{
    slot.key.as_slice().cmp(&next.key.as_slice()).is_lt()
}
