//! Which requests make sense.

use crate::requests::{Group, Keys, Specifier, UNKNOWN, Value, kind_at};
use data_models::DataModel;

fn times_stored(groups: &[Group], kind: usize) -> usize {
    groups.iter().filter(|group| group.kind == kind).count()
}

fn times_fetched(specifiers: &[Specifier], kind: usize) -> usize {
    let same = specifiers.iter().filter(|other| other.kind == kind);
    same.count()
}

fn times_put(values: &[Value], key: usize) -> usize {
    let same = values.iter().filter(|value| value.key == Some(key));
    same.count()
}

/// Whether no other value is put in the slot of one. An appended one has a slot of its own.
fn has_own_slot(values: &[Value], value: Value) -> bool {
    match value.key {
        Some(key) => times_put(values, key) == 1,
        None => true,
    }
}

fn have_own_slots(values: &[Value]) -> bool {
    values.iter().all(|value| has_own_slot(values, *value))
}

/// Nothing is known of the values of a kind that no configuration has.
fn is_sound_group(group: &Group) -> bool {
    let values = group.values.as_slice();
    let is_single = kind_at(group.kind).model == DataModel::Single;
    let fits = !is_single || values.len() == 1;
    group.kind == UNKNOWN || (fits && have_own_slots(values))
}

/// Whether a Store makes sense: no kind and no slot twice, and one value of a single kind.
pub fn is_sound_store(groups: &[Group]) -> bool {
    groups.iter().all(|group| times_stored(groups, group.kind) == 1 && is_sound_group(group))
}

fn are_ordered(ranges: &[(usize, usize)]) -> bool {
    ranges.iter().all(|range| range.0 <= range.1)
}

fn is_sound_specifier(specifier: &Specifier) -> bool {
    match &specifier.keys {
        Keys::Ranges(ranges) => are_ordered(ranges.as_slice()),
        Keys::Whole | Keys::Names(_) => true,
    }
}

/// Whether a Fetch makes sense: no kind twice, and no range that ends before it begins.
pub fn is_sound_fetch(specifiers: &[Specifier]) -> bool {
    specifiers.iter().all(|specifier| {
        times_fetched(specifiers, specifier.kind) == 1 && is_sound_specifier(specifier)
    })
}
