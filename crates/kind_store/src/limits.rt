//! Whether kinds, as they are after a Store, pass a limit (RFC 6940, section 7.4.1).

ghost use Rattle.std.specs.Prelude.{◌≡◌, nat_lt, length};
ghost use Rattle.std.specs.List.{list_any};
ghost use Rattle.storage_model.specs.Records.{kind_in};
ghost use Rattle.storage_model.specs.Verdict as verdict;
ghost use Rattle.kind_store.specs.Steps as steps;

use data_models::{Config, KindDef, SlotKey};
use record_state::{Kinds, values_in};
use storage_model::{AskedKind, StoreAsked, Value};

/// Whether the kinds pass a limit of their own or that of a record.
#[tactic(auto, unfolding(crate::specs::Steps::is_large))]
pub fn is_large(config: &Config, after: &Kinds, request: &StoreAsked) -> bool
    ensures { result ≡ steps.is_large config.now after.now request.now }
{
    any_too_large(config, after, request.kinds.as_slice()) || after.is_too_heavy()
}

fn any_too_large(config: &Config, after: &Kinds, asked: &[AskedKind]) -> bool
    ensures { result ≡ list_any (verdict.is_too_large config.now after.now) asked.now }
{
    asked.iter().any(|kind| is_too_large(config, after, kind))
}

#[tactic(auto, unfolding(storage_model::specs::Verdict::is_too_large))]
fn is_too_large(config: &Config, after: &Kinds, asked: &AskedKind) -> bool
    ensures { result ≡ verdict.is_too_large config.now after.now asked.now }
{
    match config.kind(asked.kind) {
        Some(kind) => passes_limits(&kind, after, asked.kind, values_in(asked)),
        None => false,
    }
}

/// Whether a value passes its kind's size or indices, or the kind then its number of slots.
fn passes_limits(kind: &KindDef, after: &Kinds, id: u32, values: &[Value]) -> bool
    ensures { result ≡ verdict.passes_limits kind.now (kind_in after.now id).slots values.now }
{
    any_too_long(kind, values)
        || any_beyond(kind.max_count, after, id, values)
        || after.slot_count(id) > kind.max_count as usize
}

fn any_too_long(kind: &KindDef, values: &[Value]) -> bool
    ensures { result ≡ list_any (λ v. nat_lt kind.now.max_size (length v.stored.value)) values.now }
{
    values.iter().any(|value| is_too_long(kind.max_size, value))
}

fn is_too_long(most: u32, value: &Value) -> bool
    ensures { result ≡ nat_lt most (length value.now.stored.value) }
{
    value.stored.value.len() > most as usize
}

fn any_beyond(most: u32, after: &Kinds, id: u32, values: &[Value]) -> bool
    ensures { result ≡ list_any (λ v. verdict.is_beyond most
        (kind_in after.now id).slots v.stored.key) values.now }
{
    values
        .iter()
        .any(|value| is_beyond(most, after, id, &value.stored.key))
}

fn is_beyond(most: u32, after: &Kinds, id: u32, key: &SlotKey) -> bool
    ensures { result ≡ verdict.is_beyond most (kind_in after.now id).slots key.now }
{
    match key {
        SlotKey::Index(index) => most <= *index,
        SlotKey::End => after.next_index_of(id) > u64::from(most),
        _ => false,
    }
}
