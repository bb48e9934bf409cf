//! Why a Store is refused (RFC 6940, section 7.4.1).

ghost use Rattle.std.specs.Prelude.{◌≡◌, not};
ghost use Rattle.std.specs.List.{list_any};
ghost use Rattle.data_models.specs.Stored.{key_of};
ghost use Rattle.storage_model.specs.Refusals.{first_cause, sequence_causes};
ghost use Rattle.storage_model.specs.Requests as requests;
ghost use Rattle.access_policy.specs.Policies.{permits};
ghost use Rattle.storage_model.specs.Verdict as verdict;
ghost use Rattle.kind_store.specs.Steps.{early_causes};

use crate::floors::{any_old, any_stale};
use access_policy::permits;
use data_models::{Config, KindDef, SlotKey};
use record_state::{Kinds, values_in};
use reload_ids::ResourceId;
use security_block::About;
use storage_model::{AskedKind, Refusal, StoreAsked, Value};

/// The asker's configuration is older or newer than the one that stands.
#[tactic(auto, unfolding(storage_model::specs::Refusals::sequence_causes, storage_model::specs::Refusals::first_cause))]
pub fn sequence_cause(config: &Config, sequence: u16) -> Option<Refusal>
    ensures { result ≡ first_cause (sequence_causes config.now sequence) }
{
    if sequence < config.sequence {
        Some(Refusal::ConfigTooOld)
    } else if config.sequence < sequence {
        Some(Refusal::ConfigTooNew)
    } else {
        None
    }
}

/// The first cause to refuse a Store for what a record has already.
#[tactic(auto, unfolding(crate::specs::Steps::early_causes, storage_model::specs::Refusals::first_cause))]
pub fn early_cause(
    config: &Config,
    resource: ResourceId,
    kinds: &Kinds,
    request: &StoreAsked,
) -> Option<Refusal>
    ensures { result ≡ first_cause (early_causes config.now resource.0 kinds.now request.now) }
{
    let asked = request.kinds.as_slice();
    if request.strange {
        Some(Refusal::UnknownExtension)
    } else if any_unknown(config, asked) {
        Some(Refusal::UnknownKind)
    } else if any_forbidden(config, resource, asked) {
        Some(Refusal::Forbidden)
    } else if any_asks_other_generation(kinds, asked) {
        Some(Refusal::GenerationCounterTooLow)
    } else if any_too_old(kinds, asked) {
        Some(Refusal::DataTooOld)
    } else {
        None
    }
}

fn any_unknown(config: &Config, asked: &[AskedKind]) -> bool
    ensures { result ≡ list_any (verdict.is_unknown config.now) asked.now }
{
    asked.iter().any(|kind| is_unknown(config, kind))
}

#[tactic(auto, unfolding(storage_model::specs::Verdict::is_unknown))]
fn is_unknown(config: &Config, asked: &AskedKind) -> bool
    ensures { result ≡ verdict.is_unknown config.now asked.now }
{
    config.kind(asked.kind).is_none()
}

fn any_forbidden(config: &Config, resource: ResourceId, asked: &[AskedKind]) -> bool
    ensures { result ≡ list_any (verdict.is_forbidden config.now resource.0) asked.now }
{
    asked
        .iter()
        .any(|kind| is_forbidden(config, resource, kind))
}

#[tactic(auto, unfolding(storage_model::specs::Verdict::is_forbidden))]
fn is_forbidden(config: &Config, resource: ResourceId, asked: &AskedKind) -> bool
    ensures { result ≡ verdict.is_forbidden config.now resource.0 asked.now }
{
    match config.kind(asked.kind) {
        Some(kind) => forbids(&kind, resource, values_in(asked)),
        None => false,
    }
}

fn forbids(kind: &KindDef, resource: ResourceId, values: &[Value]) -> bool
    ensures { result ≡ verdict.forbids kind.now resource.0 values.now }
{
    values
        .iter()
        .any(|value| !is_permitted(kind, resource, value))
}

/// Whether the value's signer may write it at this resource (RFC 6940, section 7.3). Nobody else
/// may.
#[tactic(auto, unfolding(storage_model::specs::Requests::is_permitted))]
fn is_permitted(kind: &KindDef, resource: ResourceId, value: &Value) -> bool
    ensures { result ≡ requests.is_permitted kind.now resource.0 value.now }
{
    match &value.signer {
        Some(signer) => is_permitted_to(kind, resource, &value.stored.key, signer),
        None => false,
    }
}

#[tactic(auto, unfolding(data_models::specs::Stored::key_of))]
fn is_permitted_to(kind: &KindDef, resource: ResourceId, key: &SlotKey, signer: &About) -> bool
    ensures { result ≡ permits kind.now.policy kind.now.multiple resource.0
        (key_of key.now) signer.now.user signer.now.node.0 }
{
    let user = signer.user.as_slice();
    match key {
        SlotKey::Whole | SlotKey::End => {
            permits(kind.policy, kind.multiple, resource, &[], user, signer.node)
        }
        SlotKey::Index(index) => {
            let key = index.to_be_bytes();
            permits(
                kind.policy,
                kind.multiple,
                resource,
                &key,
                user,
                signer.node,
            )
        }
        SlotKey::Name(name) => permits(
            kind.policy,
            kind.multiple,
            resource,
            name.as_slice(),
            user,
            signer.node,
        ),
    }
}

fn any_asks_other_generation(kinds: &Kinds, asked: &[AskedKind]) -> bool
    ensures { result ≡ list_any (verdict.asks_other_generation kinds.now) asked.now }
{
    asked.iter().any(|kind| asks_other_generation(kinds, kind))
}

/// Whether a counter is asked for that is neither 0 nor the stored one.
#[tactic(auto, unfolding(storage_model::specs::Verdict::asks_other_generation))]
fn asks_other_generation(kinds: &Kinds, asked: &AskedKind) -> bool
    ensures { result ≡ verdict.asks_other_generation kinds.now asked.now }
{
    asked.generation != 0 && asked.generation != kinds.generation_of(asked.kind)
}

fn any_too_old(kinds: &Kinds, asked: &[AskedKind]) -> bool
    ensures { result ≡ list_any (verdict.is_too_old kinds.now) asked.now }
{
    asked.iter().any(|kind| is_too_old(kinds, kind))
}

/// Whether a storage time isn't over the floor of its slot, or of the appends.
#[tactic(auto, unfolding(storage_model::specs::Verdict::is_too_old))]
fn is_too_old(kinds: &Kinds, asked: &AskedKind) -> bool
    ensures { result ≡ verdict.is_too_old kinds.now asked.now }
{
    any_old(kinds, asked.kind, values_in(asked))
        || any_stale(kinds.append_floor_of(asked.kind), values_in(asked))
}
