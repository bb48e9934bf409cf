//! Whether a request makes sense (RFC 6940, section 7.4). No memory is taken.

ghost use Rattle.std.specs.Prelude.{◌≡◌, ◌==◌, ◌&&◌, not, true, nat_le};
ghost use Rattle.std.specs.Option.{option_map_or};
ghost use Rattle.data_models.specs.Configs.{kind_of};
ghost use Rattle.std.specs.List.{list_any, list_all};
ghost use Rattle.data_models.specs.Stored.{key_of};
ghost use Rattle.storage_model.specs.Requests as requests;
ghost use Rattle.storage_model.specs.Requests.{has_twice, is_same_key, is_same_slot, is_end, placed, values_of};

use data_models::{Config, DataModel, Selector, SlotKey, Specifier};
use record_state::{is_end, values_in};
use storage_model::{AskedKind, FetchAsked, StoreAsked, Value};

/// Whether a Store names no kind twice, and each kind soundly: a single kind has one value, and no
/// slot is
/// named twice.
#[tactic(auto, unfolding(storage_model::specs::Requests::is_sound))]
pub fn sound(config: &Config, request: &StoreAsked) -> bool
    ensures { result ≡ requests.is_sound config.now request.now }
{
    let kinds = request.kinds.as_slice();
    !names_twice(kinds) && are_sound(config, kinds)
}

/// Whether a Fetch names no kind twice, and no range whose first is over its last.
#[tactic(auto, unfolding(storage_model::specs::Requests::is_sound_fetch))]
pub fn sound_fetch(request: &FetchAsked) -> bool
    ensures { result ≡ requests.is_sound_fetch request.now }
{
    let specifiers = request.specifiers.as_slice();
    !asks_twice(specifiers) && have_ranges(specifiers)
}

#[tactic(auto, unfolding(storage_model::specs::Requests::has_twice))]
fn names_twice(kinds: &[AskedKind]) -> bool
    ensures { result ≡ has_twice (λ a b. a.kind == b.kind) kinds.now }
{
    let mut rest = kinds;
    while let Some((first, others)) = rest.split_first() {
        if names(others, first.kind) {
            return true;
        }
        rest = others;
    }
    false
}

fn names(kinds: &[AskedKind], id: u32) -> bool
    ensures { result ≡ list_any (λ b. id == b.kind) kinds.now }
{
    kinds.iter().any(|other| id == other.kind)
}

#[tactic(auto, unfolding(storage_model::specs::Requests::has_twice))]
fn asks_twice(specifiers: &[Specifier]) -> bool
    ensures { result ≡ has_twice (λ a b. a.kind == b.kind) specifiers.now }
{
    let mut rest = specifiers;
    while let Some((first, others)) = rest.split_first() {
        if asks(others, first.kind) {
            return true;
        }
        rest = others;
    }
    false
}

fn asks(specifiers: &[Specifier], id: u32) -> bool
    ensures { result ≡ list_any (λ b. id == b.kind) specifiers.now }
{
    specifiers.iter().any(|other| id == other.kind)
}

fn are_sound(config: &Config, kinds: &[AskedKind]) -> bool
    ensures { result ≡ list_all (requests.is_sound_kind config.now) kinds.now }
{
    kinds.iter().all(|kind| is_sound_kind(config, kind))
}

/// Whether the values of a kind are as many as its model asks for, and name no slot twice.
#[tactic(auto, unfolding(storage_model::specs::Requests::is_sound_kind))]
fn is_sound_kind(config: &Config, asked: &AskedKind) -> bool
    ensures { result ≡ requests.is_sound_kind config.now asked.now }
{
    has_count(config, asked) && !puts_twice(values_in(asked))
}

fn has_count(config: &Config, asked: &AskedKind) -> bool
    ensures { result ≡ option_map_or (λ kind. requests.has_one kind.model (values_of asked.now))
        (kind_of config.now asked.now.kind) true }
{
    match config.kind(asked.kind) {
        Some(kind) => has_one(kind.model, values_in(asked)),
        None => true,
    }
}

fn has_one(model: DataModel, values: &[Value]) -> bool
    ensures { result ≡ requests.has_one model values.now }
{
    match model {
        DataModel::Single => values.len() == 1,
        _ => true,
    }
}

/// Whether two values name one slot.
#[tactic(auto, unfolding(storage_model::specs::Requests::has_twice, storage_model::specs::Requests::placed))]
fn puts_twice(values: &[Value]) -> bool
    ensures { result ≡ has_twice is_same_slot (placed values.now) }
{
    let mut rest = values;
    while let Some((first, others)) = rest.split_first() {
        if !is_end(&first.stored.key) && any_there(&first.stored.key, others) {
            return true;
        }
        rest = others;
    }
    false
}

/// Whether some value is for the slot of a key.
fn any_there(key: &SlotKey, values: &[Value]) -> bool
    ensures { result ≡ list_any (λ v. is_same_key (key_of key.now) (key_of v.stored.key))
        (placed values.now) }
{
    any_placed_there(key, values)
}

fn any_placed_there(key: &SlotKey, values: &[Value]) -> bool
    ensures { result ≡ list_any
        (λ v. not (is_end v.stored.key) && is_same_key (key_of key.now)
        (key_of v.stored.key)) values.now }
{
    values.iter().any(|value| is_there(key, value))
}

fn is_there(key: &SlotKey, value: &Value) -> bool
    ensures { result ≡ (not (is_end value.now.stored.key) && is_same_key (key_of key.now)
        (key_of value.now.stored.key)) }
{
    !is_end(&value.stored.key) && are_same(key, &value.stored.key)
}

#[tactic(auto, unfolding(data_models::specs::Stored::key_of))]
fn are_same(key: &SlotKey, other: &SlotKey) -> bool
    ensures { result ≡ is_same_key (key_of key.now) (key_of other.now) }
{
    match key {
        SlotKey::Whole | SlotKey::End => is_at(&[], other),
        SlotKey::Index(index) => is_at(&index.to_be_bytes(), other),
        SlotKey::Name(name) => is_at(name.as_slice(), other),
    }
}

#[tactic(auto, unfolding(data_models::specs::Stored::key_of))]
fn is_at(bytes: &[u8], key: &SlotKey) -> bool
    ensures { result ≡ is_same_key bytes.now (key_of key.now) }
{
    match key {
        SlotKey::Whole | SlotKey::End => are_equal(bytes, &[]),
        SlotKey::Index(index) => are_equal(bytes, &index.to_be_bytes()),
        SlotKey::Name(name) => are_equal(bytes, name.as_slice()),
    }
}

fn are_equal(bytes: &[u8], others: &[u8]) -> bool
    ensures { result ≡ is_same_key bytes.now others.now }
{
    bytes.cmp(&others).is_eq()
}

fn have_ranges(specifiers: &[Specifier]) -> bool
    ensures { result ≡ list_all (λ s. requests.has_ranges s.selector) specifiers.now }
{
    specifiers.iter().all(|asked| has_ranges(&asked.selector))
}

/// Whether each range's first is at most its last.
fn has_ranges(selector: &Selector) -> bool
    ensures { result ≡ requests.has_ranges selector.now }
{
    match selector {
        Selector::Ranges(ranges) => are_ordered(ranges.as_slice()),
        _ => true,
    }
}

fn are_ordered(ranges: &[(u32, u32)]) -> bool
    ensures { result ≡ list_all (λ range. nat_le range.0 range.1) ranges.now }
{
    ranges.iter().all(|range| range.0 <= range.1)
}
