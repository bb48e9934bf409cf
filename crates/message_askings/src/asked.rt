//! What a message asks of the owner of a resource.

ghost use Rattle.std.specs.Prelude.{◌≡◌, ◌&&◌, ℕ, IfOk};
ghost use Rattle.message_bodies.specs.Contents.{IsSpelledContents};
ghost use Rattle.node_messages.specs.Behind.{message_of};
ghost use Rattle.node_messages.specs.Signed.{words_of};
ghost use Rattle.storage_model.specs.declared.request.Asked.TheVariants as asked;
ghost use Rattle.storage_model.specs.Requests.{is_sound, is_sound_fetch};
ghost use Rattle.storage_model.specs.Laws.{IsSoundAsked};
ghost use Rattle.node_model.specs.Askings as askings;
ghost use Rattle.message_askings.specs.Spelled.{IsSpelledBehind};

use crate::asker::has_critical;
use crate::store::asked_kinds;
use data_models::Config;
use forwarding_header::Header;
use kind_store::{sound, sound_fetch};
use message_bodies::{Body, Contents};
use node_messages::Behind;
use reload_base::{List, NoMemory};
use reload_ids::ResourceId;
use security_block::{About, Certificate, Signer};
use std::alloc::Global;
use storage_model::{Asked, FetchAsked, JoinAsked, StoreAsked};

/// What a message asks of the owner of a resource, by what is read behind its header. The signers
/// of the values of a Store are found here. The values move.
#[tactic(auto, unfolding(node_model::specs::Askings::asked_in))]
pub fn asked_in<G: Signer>(
    alloc: Global,
    config: &Config,
    signer: &G,
    resource: ResourceId,
    header: &Header,
    behind: Behind,
) -> Result<Asked, NoMemory>
    requires { IsSpelledBehind behind }
    // What is asked.
    ensures exact { let words = words_of G.certificate_of G.signature_of G.about_of G.verifies
        signer.now
        in (code : ℕ) → IfOk result (λ asked. asked
        ≡ askings.asked_in words config.now resource (message_of header.now code behind)) }
    // A Store that is asked for makes sense.
    ensures sound { IfOk result (λ asked. IsSoundAsked config.now asked) }
{
    match behind {
        Behind::Bad => Ok(Asked::Bad),
        Behind::Whole {
            contents,
            certificates,
            signer: who,
        } => asked_by(
            alloc,
            config,
            signer,
            resource,
            header,
            contents,
            &certificates,
            &who,
        ),
    }
}

/// What the contents of a whole message ask of the owner of a resource.
#[tactic(auto, unfolding(node_model::specs::Askings::store_asked, node_model::specs::Askings::fetch_asked))]
fn asked_by<G: Signer>(
    alloc: Global,
    config: &Config,
    signer: &G,
    resource: ResourceId,
    header: &Header,
    contents: Contents,
    certificates: &List<Certificate>,
    who: &Option<About>,
) -> Result<Asked, NoMemory>
    requires { IsSpelledContents contents }
    ensures exact { let words = words_of G.certificate_of G.signature_of G.about_of G.verifies
        signer.now
        in IfOk result (λ asked. asked ≡ askings.asked_by words config.now resource header.now
        contents.extensions certificates.now who.now contents.body) }
    ensures sound { IfOk result (λ asked. IsSoundAsked config.now asked) }
{
    let Contents { body, extensions } = contents;
    let (strange, sequence) = (has_critical(&extensions), header.sequence);
    match body {
        Body::Store {
            resource: named,
            replica_number,
            kind_data,
        } => {
            if named != resource || replica_number != 0 {
                return Ok(Asked::Bad);
            }
            let kinds = asked_kinds(alloc, signer, certificates, resource, kind_data)?;
            let request = StoreAsked {
                strange,
                sequence,
                kinds,
            };
            Ok(judged_store(config, who.is_some(), request))
        }
        Body::Fetch {
            resource: named,
            specifiers,
        } => {
            let request = FetchAsked {
                strange,
                sequence,
                max: header.max_response,
                specifiers,
            };
            Ok(judged_fetch(named == resource, who.is_some(), request))
        }
        Body::Join {
            joining_peer_id,
            ..
        } => {
            let named = joining_peer_id.0 == resource.0;
            let request = JoinAsked { strange, sequence };
            Ok(judged_join(named, is_peer(resource, who), request))
        }
        _ => Ok(Asked::Bad),
    }
}

/// A Store that makes sense, where its message is signed.
fn judged_store(config: &Config, signed: bool, request: StoreAsked) -> Asked
    ensures exact { result
        ≡ askings.asked_if (is_sound config.now request) signed (asked.Store request) }
    ensures sound { IsSoundAsked config.now result }
{
    if !sound(config, &request) {
        Asked::Bad
    } else if signed {
        Asked::Store(request)
    } else {
        Asked::Unsigned
    }
}

/// A Fetch for the resource that is meant, and that makes sense, where its message is signed.
fn judged_fetch(meant: bool, signed: bool, request: FetchAsked) -> Asked
    ensures { result
        ≡ askings.asked_if (meant && is_sound_fetch request) signed (asked.Fetch request) }
{
    if !(meant && sound_fetch(&request)) {
        Asked::Bad
    } else if signed {
        Asked::Fetch(request)
    } else {
        Asked::Unsigned
    }
}

/// A Join to the resource that is meant, where its message is signed by the joiner.
fn judged_join(meant: bool, signed: bool, request: JoinAsked) -> Asked
    ensures { result ≡ askings.asked_if meant signed (asked.Join request) }
{
    if !meant {
        Asked::Bad
    } else if signed {
        Asked::Join(request)
    } else {
        Asked::Unsigned
    }
}

/// Whether a peer with a resource as its Node-ID signed.
fn is_peer(resource: ResourceId, who: &Option<About>) -> bool
    ensures { result ≡ askings.is_peer resource.0 who.now }
{
    match who {
        Some(who) => who.peer && who.node.0 == resource.0,
        None => false,
    }
}
