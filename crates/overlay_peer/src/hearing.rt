//! Frames that a peer hears.

ghost use Rattle.std.specs.Prelude.{◌≡◌, ◌^◌, ◌<◌, ℕ, IfOk, IfSome, OnOk, OnErr};
ghost use Rattle.std.specs.Option.{option_map, option_to_list};
ghost use Rattle.node_messages.specs.Signed.{words_of};
ghost use Rattle.node_links.specs.Sendings.{post_of, IsSending};
ghost use Rattle.node_model.specs.declared.limits.TheConstants.{MAX_LOAD};
ghost use Rattle.node_model.specs.Peers as model;
ghost use Rattle.overlay_peer.specs.Plans.{planned, IsPlan, heard_with};

use crate::peer::Peer;
use crate::plan::Plan;
use message_courses::{heard_in, is_answer};
use node_links::{Sending, payload_in};
use node_model::Outputs;
use reload_base::{List, NoMemory};
use reload_ids::NodeId;
use security_block::Signer;
use std::alloc::Global;

impl Peer {
    /// What it is about to do with a message.
    #[tactic(auto, unfolding(node_model::specs::Peers::reaction_to, node_model::specs::Peers::reaction))]
    fn plan<'a, G: Signer>(
        &self,
        alloc: Global,
        signer: &G,
        from: NodeId,
        message: &'a [u8],
    ) -> Result<Plan<'a>, NoMemory>
        ensures exact { let words = words_of G.certificate_of G.signature_of G.about_of G.verifies
            signer.now
            in (now : ℕ) → IfOk result (λ plan. planned words self.now now from plan
            ≡ model.reaction_to words self.now now from message.now) }
        ensures fits { IfOk result (IsPlan self.now from) }
    {
        let Some(e) = heard_in(alloc, self.node.overlay(), message)? else {
            return Ok(Plan::Send(None));
        };
        if is_answer(e.code) {
            self.plan_answer(alloc, signer, from, e)
        } else {
            self.plan_request(alloc, signer, from, message.len() as u64, e)
        }
    }

    /// It hears a payload, and sends this, if anything.
    #[tactic(auto, unfolding(crate::specs::Plans::heard_with))]
    fn send(
        &mut self,
        alloc: Global,
        from: NodeId,
        sequence: u32,
        sending: Option<Sending<'_>>,
    ) -> Result<Outputs, NoMemory>
        requires light { model.load self.old < MAX_LOAD }
        requires fits { IfSome sending IsSending }
        ensures outputs { IfOk result (λ out. out ≡ (heard_with from sequence
            (model.sends self.old (option_to_list (option_map post_of sending.entry)))).outputs) }
        ensures peer { OnOk result (self.new ≡ (heard_with from sequence
            (model.sends self.old (option_to_list (option_map post_of sending.entry)))).node) }
        ensures err { OnErr result (self.new ≡ self.old) }
    {
        let frames = self.node.hear(alloc, from, sequence, sending)?;
        Ok(Outputs {
            frames,
            notices: List::new(alloc),
        })
    }

    /// It hears a payload: the ack leaves first, and then what it makes of the message.
    fn hear<G: Signer>(
        &mut self,
        alloc: Global,
        now: u64,
        from: NodeId,
        sequence: u32,
        message: &[u8],
        signer: &G,
    ) -> Result<Outputs, NoMemory>
        requires clock { now < 2 ^ 62 }
        requires light { model.load self.old < MAX_LOAD }
        ensures outputs { let words = words_of G.certificate_of G.signature_of G.about_of G.verifies
            signer.now
            in IfOk result (λ out. out ≡ (heard_with from sequence
            (model.reaction_to words self.old now from message.now)).outputs) }
        ensures peer { let words = words_of G.certificate_of G.signature_of G.about_of G.verifies
            signer.now
            in OnOk result (self.new ≡ (heard_with from sequence
            (model.reaction_to words self.old now from message.now)).node) }
        ensures err { OnErr result (self.new ≡ self.old) }
    {
        match self.plan(alloc, signer, from, message)? {
            Plan::Send(sending) => self.send(alloc, from, sequence, sending),
            Plan::Decide(question) => self.decide(alloc, now, from, sequence, signer, question),
            Plan::End(id) => self.end(alloc, now, from, sequence, id),
        }
    }

    /// Bytes that came over a link from a node; a peer that is gone hears nothing.
    #[tactic(auto, unfolding(node_model::specs::Peers::framed, node_model::specs::Peers::hears, crate::specs::Plans::heard_with))]
    pub(crate) fn hear_frame<G: Signer>(
        &mut self,
        alloc: Global,
        now: u64,
        from: NodeId,
        bytes: &[u8],
        signer: &G,
    ) -> Result<Outputs, NoMemory>
        requires clock { now < 2 ^ 62 }
        requires light { model.load self.old < MAX_LOAD }
        ensures outputs { let words = words_of G.certificate_of G.signature_of G.about_of G.verifies
            signer.now
            in IfOk result (λ out. out
            ≡ (model.framed words now from bytes.now self.old).outputs) }
        ensures peer { let words = words_of G.certificate_of G.signature_of G.about_of G.verifies
            signer.now
            in OnOk result (self.new ≡ (model.framed words now from bytes.now self.old).node) }
        ensures err { OnErr result (self.new ≡ self.old) }
    {
        if self.membership.is_gone() {
            return Ok(self.pass_over(alloc));
        }
        match payload_in(bytes) {
            Some((sequence, message)) => self.hear(alloc, now, from, sequence, message, signer),
            None => Ok(self.pass_over(alloc)),
        }
    }
}
