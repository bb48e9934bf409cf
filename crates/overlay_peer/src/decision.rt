//! Decisions of a peer.

ghost use Rattle.std.specs.Prelude.{◌≡◌, ◌^◌, ◌<◌, ◌∷◌, ℕ, [], Option, IfOk, OnOk, OnErr};
ghost use Rattle.storage_model.specs.Laws.{IsSoundAsked};
ghost use Rattle.storage_model.specs.Records.{Map};
ghost use Rattle.node_messages.specs.Signed.{words_of};
ghost use Rattle.node_links.specs.Sendings.{post_of, IsSending};
ghost use Rattle.node_model.specs.declared.notice.Notice.TheVariants as notices;
ghost use Rattle.node_model.specs.declared.limits.TheConstants.{MAX_LOAD};
ghost use Rattle.node_model.specs.Nodes.{work, node_after};
ghost use Rattle.node_model.specs.Peers as model;
ghost use Rattle.overlay_peer.specs.Plans.{answer_post, answer_outputs, decided_on, heard_with};
ghost use Rattle.kind_store.specs.Undoing.{TakesBack};

use crate::peer::Peer;
use crate::plan::Question;
use crate::reply::reply;
use chord_tables::Tables;
use forwarding_header::Header;
use kind_store::{Shelf, Undo};
use message_askings::{Ruling, body_of, rule_on_with_undo};
use node_links::{Node, Sending};
use node_model::{Notice, Outputs};
use reload_base::{List, NoMemory};
use reload_ids::{NodeId, ResourceId};
use security_block::Signer;
use std::alloc::Global;
use storage_model::{Answer, Asked};

/// Takes a decision back. No memory is taken.
fn take_back(shelf: &mut Shelf, undo: Option<Undo>)
    requires { (before : Map) × TakesBack undo shelf.old before }
    ensures { (before : Map) → TakesBack undo shelf.old before → shelf.new ≡ before }
{
    if let Some(undo) = undo {
        shelf.undo(undo);
    }
}

/// The answer to a request that was decided, for the node that it came from.
#[tactic(auto, unfolding(crate::specs::Plans::answer_post))]
fn told<'a, G: Signer>(
    alloc: Global,
    node: &Node,
    tables: &Tables,
    signer: &G,
    from: NodeId,
    header: Header,
    answer: &Answer,
) -> Result<Sending<'a>, NoMemory>
    ensures exact { let words = words_of G.certificate_of G.signature_of G.about_of G.verifies
        signer.now
        in IfOk result (λ sending. post_of sending
        ≡ answer_post words node.now tables.now from header answer.now) }
    ensures fits { IfOk result IsSending }
{
    let replicas = tables.mirrors(node.config().replicas);
    let body = body_of(alloc, replicas, answer)?;
    reply(alloc, signer, node.about(), from, header, body)
}

/// What there is to be told of a decision.
fn notices_of(
    alloc: Global,
    time: u64,
    resource: ResourceId,
    origin: NodeId,
    id: u64,
    asked: Asked,
    ruling: Ruling,
) -> Result<List<Notice>, NoMemory>
    ensures { IfOk result (λ all. all ≡ notices.Decision time resource origin id asked ruling.answer
        ruling.acted ∷ []) }
{
    let Ruling { answer, acted } = ruling;
    let mut all = List::new(alloc);
    all.push(Notice::Decision {
        time,
        resource,
        origin,
        id,
        asked,
        answer,
        acted,
    })?;
    Ok(all)
}

/// A decision is answered and told, and the node hears the payload that asked for it. After
/// `NoMemory` the node is as before.
#[tactic(auto, unfolding(crate::specs::Plans::answer_outputs))]
fn answer<G: Signer>(
    alloc: Global,
    node: &mut Node,
    tables: &Tables,
    signer: &G,
    now: u64,
    from: NodeId,
    sequence: u32,
    question: Question,
    ruling: Ruling,
) -> Result<Outputs, NoMemory>
    requires light { work node.old < MAX_LOAD }
    ensures outputs { let words = words_of G.certificate_of G.signature_of G.about_of G.verifies
        signer.now
        in IfOk result (λ out. out ≡ answer_outputs words node.old tables.now now from sequence
        question ruling.answer ruling.acted) }
    ensures node { let words = words_of G.certificate_of G.signature_of G.about_of G.verifies
        signer.now
        in OnOk result (node.new ≡ node_after from sequence (answer_post words node.old
        tables.now from question.reply ruling.answer ∷ []) node.old) }
    ensures err { OnErr result (node.new ≡ node.old) }
{
    let Question {
        resource,
        origin,
        id,
        request,
        reply,
    } = question;
    let sending = told(alloc, node, tables, signer, from, reply, &ruling.answer)?;
    let notices = notices_of(alloc, now, resource, origin, id, request, ruling)?;
    let frames = node.hear(alloc, from, sequence, Some(sending))?;
    Ok(Outputs { frames, notices })
}

impl Peer {
    /// It decides: its record changes, the answer leaves, and the decision is told. Where there is
    /// no memory for the answer, the decision is taken back.
    #[tactic(auto, unfolding(crate::specs::Plans::heard_with, crate::specs::Plans::decided_on))]
    pub(crate) fn decide<G: Signer>(
        &mut self,
        alloc: Global,
        now: u64,
        from: NodeId,
        sequence: u32,
        signer: &G,
        question: Question,
    ) -> Result<Outputs, NoMemory>
        requires clock { now < 2 ^ 62 }
        requires light { model.load self.old < MAX_LOAD }
        requires sound { IsSoundAsked self.old.node.config question.request }
        ensures outputs { let words = words_of G.certificate_of G.signature_of G.about_of G.verifies
            signer.now
            in IfOk result (λ out. out ≡ (heard_with from sequence
            (decided_on words self.old now from question)).outputs) }
        ensures peer { let words = words_of G.certificate_of G.signature_of G.about_of G.verifies
            signer.now
            in OnOk result (self.new ≡ (heard_with from sequence
            (decided_on words self.old now from question)).node) }
        ensures err { OnErr result (self.new ≡ self.old) }
    {
        let (ruling, undo) = rule_on_with_undo(
            alloc,
            &mut self.shelf,
            self.node.config(),
            now,
            question.resource,
            question.origin,
            question.id,
            &question.request,
        )?;
        let (node, tables) = (&mut self.node, &self.tables);
        match answer(
            alloc, node, tables, signer, now, from, sequence, question, ruling,
        ) {
            Ok(outputs) => Ok(outputs),
            Err(error) => {
                take_back(&mut self.shelf, undo);
                Err(error)
            }
        }
    }
}
