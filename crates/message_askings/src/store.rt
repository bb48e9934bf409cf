//! The values of a Store, each with its signer and its size (RFC 6940, section 7.1).

ghost use Rattle.std.specs.Prelude.{◌≡◌, ◌<◌, ◌^◌, length, map, All, IfOk};
ghost use Rattle.std.specs.List.{flat_map};
ghost use Rattle.data_models.specs.Stored.{stored, stored_size, IsSpelledValue, IsSpelledStored};
ghost use Rattle.data_models.specs.StoreKinds.{values, AreSpelledValues, IsSpelledStoreKind};
ghost use Rattle.node_messages.specs.Signed.{words_of};
ghost use Rattle.node_model.specs.Askings as askings;

use data_models::{KindValues, StoreKind, StoredData, signed_bytes};
use reload_base::{List, NoMemory};
use reload_ids::ResourceId;
use security_block::{About, Certificate, Signer, signer_of};
use std::alloc::Global;
use storage_model::{AskedKind, AskedValues, Value};

/// Who signed a stored value with one of these certificates.
#[tactic(auto, unfolding(node_model::specs::Askings::value_signer))]
fn value_signer<G: Signer>(
    alloc: Global,
    signer: &G,
    certificates: &List<Certificate>,
    resource: ResourceId,
    kind: u32,
    v: &StoredData,
) -> Result<Option<About>, NoMemory>
    requires { IsSpelledValue v.now }
    ensures { let words = words_of G.certificate_of G.signature_of G.about_of G.verifies signer.now
        in IfOk result (λ who. who
        ≡ askings.value_signer words certificates.now resource.0 kind v.now) }
{
    let bytes = signed_bytes(alloc, resource, kind, v)?;
    signer_of(alloc, signer, certificates, bytes.as_slice(), &v.signature)
}

#[tactic(auto, unfolding(node_model::specs::Askings::asked_value))]
fn asked_value<G: Signer>(
    alloc: Global,
    signer: &G,
    certificates: &List<Certificate>,
    resource: ResourceId,
    kind: u32,
    v: StoredData,
) -> Result<Value, NoMemory>
    requires spelled { IsSpelledStored v }
    requires small { stored_size v < 2 ^ 32 }
    ensures { let words = words_of G.certificate_of G.signature_of G.about_of G.verifies signer.now
        in IfOk result (λ value. value
        ≡ askings.asked_value words certificates.now resource.0 kind v) }
{
    let size = v.size() as u32;
    let signer = value_signer(alloc, signer, certificates, resource, kind, &v)?;
    Ok(Value {
        stored: v,
        signer,
        size,
    })
}

/// The values of a kind that the configuration defines.
fn known_values<G: Signer>(
    alloc: Global,
    signer: &G,
    certificates: &List<Certificate>,
    resource: ResourceId,
    kind: u32,
    list: List<StoredData>,
) -> Result<List<Value>, NoMemory>
    requires each { All IsSpelledStored list }
    requires fits { length (flat_map stored list) < 2 ^ 32 }
    ensures { let words = words_of G.certificate_of G.signature_of G.about_of G.verifies signer.now
        in IfOk result (λ all. all
        ≡ map (askings.asked_value words certificates.now resource.0 kind) list) }
{
    let mut all = List::new(alloc);
    for v in list.into_vec() {
        let value = asked_value(alloc, signer, certificates, resource, kind, v)?;
        all.push(value)?;
    }
    Ok(all)
}

#[tactic(auto, unfolding(data_models::specs::StoreKinds::values))]
fn asked_values<G: Signer>(
    alloc: Global,
    signer: &G,
    certificates: &List<Certificate>,
    resource: ResourceId,
    kind: u32,
    of_kind: KindValues,
) -> Result<AskedValues, NoMemory>
    requires each { AreSpelledValues of_kind }
    requires fits { length (values of_kind) < 2 ^ 32 }
    ensures { let words = words_of G.certificate_of G.signature_of G.about_of G.verifies signer.now
        in IfOk result (λ all. all
        ≡ askings.asked_values words certificates.now resource.0 kind of_kind) }
{
    match of_kind {
        KindValues::Known(list) => Ok(AskedValues::Known(known_values(
            alloc,
            signer,
            certificates,
            resource,
            kind,
            list,
        )?)),
        KindValues::Raw(bytes) => Ok(AskedValues::Raw(bytes)),
    }
}

#[tactic(auto, unfolding(node_model::specs::Askings::asked_kind))]
fn asked_kind<G: Signer>(
    alloc: Global,
    signer: &G,
    certificates: &List<Certificate>,
    resource: ResourceId,
    of: StoreKind,
) -> Result<AskedKind, NoMemory>
    requires { IsSpelledStoreKind of }
    ensures { let words = words_of G.certificate_of G.signature_of G.about_of G.verifies signer.now
        in IfOk result (λ asked. asked
        ≡ askings.asked_kind words certificates.now resource.0 of) }
{
    let StoreKind {
        kind,
        generation,
        values,
    } = of;
    let values = asked_values(alloc, signer, certificates, resource, kind, values)?;
    Ok(AskedKind {
        kind,
        generation,
        values,
    })
}

/// The kinds of a Store for a resource.
pub fn asked_kinds<G: Signer>(
    alloc: Global,
    signer: &G,
    certificates: &List<Certificate>,
    resource: ResourceId,
    kinds: List<StoreKind>,
) -> Result<List<AskedKind>, NoMemory>
    requires { All IsSpelledStoreKind kinds }
    ensures { let words = words_of G.certificate_of G.signature_of G.about_of G.verifies signer.now
        in IfOk result (λ all. all
        ≡ map (askings.asked_kind words certificates.now resource.0) kinds) }
{
    let mut all = List::new(alloc);
    for kind in kinds.into_vec() {
        let asked = asked_kind(alloc, signer, certificates, resource, kind)?;
        all.push(asked)?;
    }
    Ok(all)
}
