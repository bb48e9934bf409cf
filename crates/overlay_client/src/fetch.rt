//! A client's Fetch.

ghost use Rattle.std.specs.Prelude.{◌≡◌, ◌<◌, ◌^◌, IfOk, OnOk, OnErr};
ghost use Rattle.node_messages.specs.Signed.{words_of};
ghost use Rattle.node_model.specs.Nodes.{next_id};
ghost use Rattle.node_model.specs.Requests.{fetch_request};
ghost use Rattle.node_model.specs.Clients as model;
ghost use Rattle.overlay_client.specs.Asked.{asking_of, IsSmall};

use crate::asking::{Asking, made_asking, request_header};
use crate::client::Client;
use message_bodies::Body;
use node_links::Node;
use node_model::{FetchCommand, MAX_LOAD, Outputs, Question};
use reload_base::NoMemory;
use security_block::Signer;
use std::alloc::Global;

/// A client's next Fetch (RFC 6940, section 7.4.2).
#[tactic(auto, unfolding(node_model::specs::Requests::fetch_request, node_model::specs::Requests::request_header))]
pub(crate) fn fetch_asking<G: Signer>(
    alloc: Global,
    node: &Node,
    command: FetchCommand,
    signer: &G,
) -> Result<Asking, NoMemory>
    ensures value { let words = words_of G.certificate_of G.signature_of G.about_of G.verifies
        signer.now
        in IfOk result (λ a. a ≡ asking_of words node.now (fetch_request node.now command)) }
    ensures next { IfOk result (λ a. a.id ≡ next_id node.now) }
    ensures within { IfOk result (λ a. IsSmall a.message) }
{
    let FetchCommand {
        peer,
        resource,
        ttl,
        sequence,
        max,
        specifiers,
    } = command;
    let header = request_header(alloc, node, resource, ttl, sequence, max)?;
    let body = Body::Fetch {
        resource,
        specifiers,
    };
    made_asking(alloc, node, signer, peer, header, body, Question::Fetch)
}

impl Client {
    /// It issues its next Fetch.
    pub(crate) fn fetch<G: Signer>(
        &mut self,
        alloc: Global,
        now: u64,
        command: FetchCommand,
        signer: &G,
    ) -> Result<Outputs, NoMemory>
        requires time { now < 2 ^ 62 }
        requires light { model.load self.old < MAX_LOAD }
        ensures ok { let words = words_of G.certificate_of G.signature_of G.about_of G.verifies
            signer.now in OnOk result (self.new
            ≡ (model.asks words now (fetch_request self.old.node command) self.old).node) }
        ensures outputs { let words = words_of G.certificate_of G.signature_of G.about_of
            G.verifies signer.now in IfOk result (λ outputs. outputs
            ≡ (model.asks words now (fetch_request self.old.node command) self.old).outputs) }
        ensures err { OnErr result (self.new ≡ self.old) }
    {
        let asking = fetch_asking(alloc, &self.node, command, signer)?;
        self.ask(alloc, now, asking)
    }
}
