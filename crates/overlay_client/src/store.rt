//! A client's Store, whose values it signs.

ghost use Rattle.std.specs.Prelude.{◌≡◌, ◌<◌, ◌^◌, ◌↔◌, map, All, IsTrue, IfOk, OnOk, OnErr};
ghost use Rattle.data_models.specs.Stored.{IsSpelledValue};
ghost use Rattle.security_block.specs.Signers.{IsNamed};
ghost use Rattle.node_messages.specs.Signed.{words_of};
ghost use Rattle.node_model.specs.Nodes.{next_id};
ghost use Rattle.node_model.specs.Requests.{store_request, signed_kind};
ghost use Rattle.node_model.specs.Clients as model;
ghost use Rattle.overlay_client.specs.Asked.{asking_of, IsSmall};
ghost use Rattle.overlay_client.specs.Signing.{AreSpelled, value_by, values_by, kind_by};

use crate::asking::{Asking, made_asking, request_header};
use crate::client::Client;
use data_models::{KindValues, StoreKind, StoredData, signed_bytes};
use message_bodies::Body;
use node_links::Node;
use node_model::{MAX_LOAD, Outputs, Question, StoreCommand};
use reload_base::{List, NoMemory};
use reload_ids::ResourceId;
use security_block::{About, Signer};
use std::alloc::Global;

/// Whether each of some values has a spelling, whatever its signature.
fn all_fit(values: &List<StoredData>) -> bool
    ensures { IsTrue result ↔ All IsSpelledValue values.now }
{
    values.as_slice().iter().all(|v| v.value_fits())
}

/// Whether each value of a kind has a spelling.
fn values_fit(values: &KindValues) -> bool
    ensures { IsTrue result ↔ AreSpelled values.now }
{
    match values {
        KindValues::Known(values) => all_fit(values),
        KindValues::Raw(_) => true,
    }
}

/// Whether each value of some kinds has a spelling.
fn kinds_fit(kinds: &List<StoreKind>) -> bool
    ensures { IsTrue result ↔ All (λ k. AreSpelled k.values) kinds.now }
{
    kinds.as_slice().iter().all(|k| values_fit(&k.values))
}

/// A value, signed by who has a certificate, if it has a spelling.
#[tactic(auto, unfolding(crate::specs::Signing::value_by))]
fn signed_value<G: Signer>(
    alloc: Global,
    signer: &G,
    certificate: &[u8],
    resource: ResourceId,
    kind: u32,
    value: StoredData,
) -> Result<StoredData, NoMemory>
    ensures { let words = words_of G.certificate_of G.signature_of G.about_of G.verifies signer.now
        in IfOk result (λ v. IsSpelledValue value
        → v ≡ value_by words certificate.now resource.0 kind value) }
{
    if !value.value_fits() {
        return Ok(value);
    }
    let bytes = signed_bytes(alloc, resource, kind, &value)?;
    let signature = signer.sign(alloc, certificate, bytes.as_slice())?;
    Ok(StoredData { signature, ..value })
}

/// Values, each signed.
fn signed_list<G: Signer>(
    alloc: Global,
    signer: &G,
    certificate: &[u8],
    resource: ResourceId,
    kind: u32,
    values: List<StoredData>,
) -> Result<List<StoredData>, NoMemory>
    ensures { let words = words_of G.certificate_of G.signature_of G.about_of G.verifies signer.now
        in IfOk result (λ vs. All IsSpelledValue values
        → vs ≡ map (value_by words certificate.now resource.0 kind) values) }
{
    let mut signed = List::new(alloc);
    signed.reserve(values.len())?;
    for value in values.into_vec() {
        signed.push(signed_value(alloc, signer, certificate, resource, kind, value)?)?;
    }
    Ok(signed)
}

/// The values of a kind, each signed.
fn signed_values<G: Signer>(
    alloc: Global,
    signer: &G,
    certificate: &[u8],
    resource: ResourceId,
    kind: u32,
    values: KindValues,
) -> Result<KindValues, NoMemory>
    ensures { let words = words_of G.certificate_of G.signature_of G.about_of G.verifies signer.now
        in IfOk result (λ vs. AreSpelled values
        → vs ≡ values_by words certificate.now resource.0 kind values) }
{
    match values {
        KindValues::Known(values) => {
            let signed = signed_list(alloc, signer, certificate, resource, kind, values)?;
            Ok(KindValues::Known(signed))
        }
        KindValues::Raw(bytes) => Ok(KindValues::Raw(bytes)),
    }
}

/// A kind, whose values are signed.
#[tactic(auto, unfolding(crate::specs::Signing::kind_by))]
fn signed_kind<G: Signer>(
    alloc: Global,
    signer: &G,
    certificate: &[u8],
    resource: ResourceId,
    kind: StoreKind,
) -> Result<StoreKind, NoMemory>
    ensures { let words = words_of G.certificate_of G.signature_of G.about_of G.verifies signer.now
        in IfOk result (λ k. AreSpelled kind.values
        → k ≡ kind_by words certificate.now resource.0 kind) }
{
    let StoreKind {
        kind,
        generation,
        values,
    } = kind;
    Ok(StoreKind {
        kind,
        generation,
        values: signed_values(alloc, signer, certificate, resource, kind, values)?,
    })
}

/// Kinds, each with its values signed by who has a certificate.
fn kinds_by<G: Signer>(
    alloc: Global,
    signer: &G,
    certificate: &[u8],
    resource: ResourceId,
    kinds: List<StoreKind>,
) -> Result<List<StoreKind>, NoMemory>
    ensures { let words = words_of G.certificate_of G.signature_of G.about_of G.verifies signer.now
        in IfOk result (λ ks. All (λ k. AreSpelled k.values) kinds
        → ks ≡ map (kind_by words certificate.now resource.0) kinds) }
{
    let mut signed = List::new(alloc);
    signed.reserve(kinds.len())?;
    for kind in kinds.into_vec() {
        signed.push(signed_kind(alloc, signer, certificate, resource, kind)?)?;
    }
    Ok(signed)
}

/// Kinds whose values have spellings, each with its values signed by a node.
fn signed_kinds<G: Signer>(
    alloc: Global,
    signer: &G,
    about: &About,
    resource: ResourceId,
    kinds: List<StoreKind>,
) -> Result<List<StoreKind>, NoMemory>
    requires named { IsNamed about.now }
    requires spelled { All (λ k. AreSpelled k.values) kinds }
    ensures { let words = words_of G.certificate_of G.signature_of G.about_of G.verifies signer.now
        in IfOk result (λ ks. ks ≡ map (signed_kind words about.now resource.0) kinds) }
{
    let certificate = signer.certificate(alloc, about)?;
    kinds_by(alloc, signer, certificate.as_slice(), resource, kinds)
}

/// A client's next Store (RFC 6940, section 7.4.1). Where a value has no spelling, nor has the
/// message, whatever the signatures are.
#[tactic(auto, unfolding(node_model::specs::Requests::store_request, node_model::specs::Requests::request_header))]
pub(crate) fn store_asking<G: Signer>(
    alloc: Global,
    node: &Node,
    command: StoreCommand,
    signer: &G,
) -> Result<Asking, NoMemory>
    ensures value { let words = words_of G.certificate_of G.signature_of G.about_of G.verifies
        signer.now
        in IfOk result (λ a. a ≡ asking_of words node.now (store_request words node.now command)) }
    ensures next { IfOk result (λ a. a.id ≡ next_id node.now) }
    ensures within { IfOk result (λ a. IsSmall a.message) }
{
    let StoreCommand {
        peer,
        resource,
        ttl,
        sequence,
        kinds,
    } = command;
    if !kinds_fit(&kinds) {
        return Ok(Asking {
            peer,
            id: node.next_id(),
            message: None,
            question: Question::Store,
        });
    }
    let header = request_header(alloc, node, resource, ttl, sequence, 0)?;
    let kind_data = signed_kinds(alloc, signer, node.about(), resource, kinds)?;
    let body = Body::Store {
        resource,
        replica_number: 0,
        kind_data,
    };
    made_asking(alloc, node, signer, peer, header, body, Question::Store)
}

impl Client {
    /// It issues its next Store.
    pub(crate) fn store<G: Signer>(
        &mut self,
        alloc: Global,
        now: u64,
        command: StoreCommand,
        signer: &G,
    ) -> Result<Outputs, NoMemory>
        requires time { now < 2 ^ 62 }
        requires light { model.load self.old < MAX_LOAD }
        ensures ok { let words = words_of G.certificate_of G.signature_of G.about_of G.verifies
            signer.now in OnOk result (self.new
            ≡ (model.asks words now (store_request words self.old.node command) self.old).node) }
        ensures outputs { let words = words_of G.certificate_of G.signature_of G.about_of
            G.verifies signer.now in IfOk result (λ outputs. outputs
            ≡ (model.asks words now (store_request words self.old.node command) self.old).outputs) }
        ensures err { OnErr result (self.new ≡ self.old) }
    {
        let asking = store_asking(alloc, &self.node, command, signer)?;
        self.ask(alloc, now, asking)
    }
}
