//! What a client does with the bytes that come over its links.

ghost use Rattle.std.specs.Prelude.{◌≡◌, ◌<◌, ◌^◌, ℕ, true, is_some, IfOk, IfSome, OnOk, OnErr};
ghost use Rattle.std.specs.Option.{option_map, option_to_list};
ghost use Rattle.transaction_table.specs.Tables.{outstanding};
ghost use Rattle.node_messages.specs.Signed.{words_of};
ghost use Rattle.node_model.specs.Clients as model;
ghost use Rattle.node_model.specs.declared.course.AnswerCourse.TheVariants.{Mine};
ghost use Rattle.node_links.specs.Sendings.{post_of, IsSending};
ghost use Rattle.message_courses.specs.Fits.{IsPassedOn};
ghost use Rattle.message_courses.specs.Seen.{seen};
ghost use Rattle.overlay_client.specs.Reactions.{reaction_of, IsReaction, IsWhole, heard};

use crate::asking::forget;
use crate::client::Client;
use message_courses::{Envelope, answer_course, heard_in, is_answer};
use node_links::{Sending, payload_in};
use node_model::{AnswerCourse, MAX_LOAD, Notice, Outputs, Told};
use reload_base::{List, NoMemory};
use reload_ids::NodeId;
use security_block::Signer;
use std::alloc::Global;

/// What a client makes of a message.
#[derive(Debug, Drop)]
pub(crate) enum Reaction<'a> {
    /// Nothing.
    Nothing,
    /// It passes an answer on.
    Passes(Sending<'a>),
    /// It takes the answer to a request of its own.
    Takes { id: u64, told: Told },
}

impl Client {
    /// Bytes that came over a link from a node.
    #[tactic(auto, unfolding(node_model::specs::Clients::framed))]
    pub(crate) fn framed<G: Signer>(
        &mut self,
        alloc: Global,
        now: u64,
        from: NodeId,
        bytes: &[u8],
        signer: &G,
    ) -> Result<Outputs, NoMemory>
        requires time { now < 2 ^ 62 }
        requires light { model.load self.old < MAX_LOAD }
        ensures ok { let words = words_of G.certificate_of G.signature_of G.about_of G.verifies
            signer.now
            in OnOk result (self.new ≡ (model.framed words now from bytes.now self.old).node) }
        ensures outputs { let words = words_of G.certificate_of G.signature_of G.about_of
            G.verifies signer.now
            in IfOk result (λ outputs. outputs
            ≡ (model.framed words now from bytes.now self.old).outputs) }
        ensures err { OnErr result (self.new ≡ self.old) }
    {
        match payload_in(bytes) {
            Some((sequence, message)) => self.hear(alloc, now, from, sequence, message, signer),
            None => Ok(self.idle(alloc)),
        }
    }

    /// A payload: its ack leaves first, and then what the client makes of its message.
    fn hear<G: Signer>(
        &mut self,
        alloc: Global,
        now: u64,
        from: NodeId,
        sequence: u32,
        message: &[u8],
        signer: &G,
    ) -> Result<Outputs, NoMemory>
        requires time { now < 2 ^ 62 }
        requires light { model.load self.old < MAX_LOAD }
        ensures ok { let words = words_of G.certificate_of G.signature_of G.about_of G.verifies
            signer.now in OnOk result (self.new
            ≡ (model.hears words now from sequence message.now self.old).node) }
        ensures outputs { let words = words_of G.certificate_of G.signature_of G.about_of
            G.verifies signer.now in IfOk result (λ outputs. outputs
            ≡ (model.hears words now from sequence message.now self.old).outputs) }
        ensures err { OnErr result (self.new ≡ self.old) }
    {
        let reaction = self.reaction_to(alloc, from, message, signer)?;
        self.react(alloc, now, from, sequence, reaction)
    }

    /// It acks a payload, and does what it makes of its message.
    fn react(
        &mut self,
        alloc: Global,
        now: u64,
        from: NodeId,
        sequence: u32,
        reaction: Reaction<'_>,
    ) -> Result<Outputs, NoMemory>
        requires time { now < 2 ^ 62 }
        requires light { model.load self.old < MAX_LOAD }
        requires fits { IsReaction self.old from reaction }
        ensures ok { OnOk result (self.new ≡ (heard from sequence
            (reaction_of self.old now from reaction.entry) self.old).node) }
        ensures outputs { IfOk result (λ outputs. outputs ≡ (heard from sequence
            (reaction_of self.old now from reaction.entry) self.old).outputs) }
        ensures err { OnErr result (self.new ≡ self.old) }
    {
        match reaction {
            Reaction::Nothing => self.sends(alloc, from, sequence, None),
            Reaction::Passes(sending) => self.sends(alloc, from, sequence, Some(sending)),
            Reaction::Takes { id, told } => self.takes(alloc, now, from, sequence, id, told),
        }
    }

    /// It acks a payload, and sends what it sends.
    #[tactic(auto, unfolding(crate::specs::Reactions::heard))]
    fn sends(
        &mut self,
        alloc: Global,
        from: NodeId,
        sequence: u32,
        sending: Option<Sending<'_>>,
    ) -> Result<Outputs, NoMemory>
        requires light { model.load self.old < MAX_LOAD }
        requires sending { IfSome sending IsSending }
        ensures ok { OnOk result (self.new ≡ (heard from sequence
            (model.sends self.old (option_to_list (option_map post_of sending.entry)))
            self.old).node) }
        ensures outputs { IfOk result (λ outputs. outputs ≡ (heard from sequence
            (model.sends self.old (option_to_list (option_map post_of sending.entry)))
            self.old).outputs) }
        ensures err { OnErr result (self.new ≡ self.old) }
    {
        let frames = self.node.hear(alloc, from, sequence, sending)?;
        Ok(Outputs {
            frames,
            notices: List::new(alloc),
        })
    }

    /// It acks a payload, and takes the answer in it.
    #[tactic(auto, unfolding(crate::specs::Reactions::heard, node_model::specs::Clients::takes))]
    fn takes(
        &mut self,
        alloc: Global,
        now: u64,
        from: NodeId,
        sequence: u32,
        id: u64,
        told: Told,
    ) -> Result<Outputs, NoMemory>
        requires time { now < 2 ^ 62 }
        requires light { model.load self.old < MAX_LOAD }
        requires there { is_some (outstanding from.0 id self.old.txns) ≡ true }
        ensures ok { OnOk result (self.new
            ≡ (heard from sequence (model.takes self.old now from id told) self.old).node) }
        ensures outputs { IfOk result (λ outputs. outputs
            ≡ (heard from sequence (model.takes self.old now from id told) self.old).outputs) }
        ensures err { OnErr result (self.new ≡ self.old) }
    {
        let mut notices = List::new(alloc);
        notices.push(Notice::Answered { id, told })?;
        let frames = self.node.hear(alloc, from, sequence, None)?;
        forget(&mut self.table, &mut self.questions, now, from, id);
        Ok(Outputs { frames, notices })
    }

    /// What it makes of a message, if it looks at it.
    #[tactic(auto, unfolding(node_model::specs::Clients::reaction_to))]
    fn reaction_to<'a, G: Signer>(
        &self,
        alloc: Global,
        from: NodeId,
        message: &'a [u8],
        signer: &G,
    ) -> Result<Reaction<'a>, NoMemory>
        ensures value { let words = words_of G.certificate_of G.signature_of G.about_of G.verifies
            signer.now
            in (now : ℕ) → IfOk result (λ r. reaction_of self.now now from r
            ≡ model.reaction_to words self.now now from message.now) }
        ensures fits { IfOk result (IsReaction self.now from) }
    {
        match heard_in(alloc, self.node.overlay(), message)? {
            Some(envelope) => self.reaction(alloc, from, envelope, signer),
            None => Ok(Reaction::Nothing),
        }
    }

    /// What it makes of a message that it looks at; it drops every request.
    fn reaction<'a, G: Signer>(
        &self,
        alloc: Global,
        from: NodeId,
        envelope: Envelope<'a>,
        signer: &G,
    ) -> Result<Reaction<'a>, NoMemory>
        requires { IsWhole (seen envelope) }
        ensures value { let words = words_of G.certificate_of G.signature_of G.about_of G.verifies
            signer.now
            in (now : ℕ) → IfOk result (λ r. reaction_of self.now now from r
            ≡ model.reaction words self.now now from (seen envelope.entry)) }
        ensures fits { IfOk result (IsReaction self.now from) }
    {
        if !is_answer(envelope.code) {
            return Ok(Reaction::Nothing);
        }
        let course = answer_course(alloc, self.node.me(), &envelope.header)?;
        self.by_course(alloc, from, &envelope, course, signer)
    }

    /// What it does with an answer by its course.
    #[tactic(auto, using(crate::proofs::Hears::passed_sending))]
    fn by_course<'a, G: Signer>(
        &self,
        alloc: Global,
        from: NodeId,
        envelope: &Envelope<'a>,
        course: AnswerCourse,
        signer: &G,
    ) -> Result<Reaction<'a>, NoMemory>
        requires whole { IsWhole (seen envelope.now) }
        requires passed { IsPassedOn envelope.now.header course }
        ensures value { let words = words_of G.certificate_of G.signature_of G.about_of G.verifies
            signer.now
            in (now : ℕ) → IfOk result (λ r. reaction_of self.now now from r
            ≡ model.by_course words self.now now from (seen envelope.now) course) }
        ensures fits { IfOk result (IsReaction self.now from) }
    {
        match course {
            AnswerCourse::Ignored => Ok(Reaction::Nothing),
            AnswerCourse::Passed { next, header } => Ok(Reaction::Passes(Sending::Onward {
                to: next,
                header,
                behind: envelope.behind,
            })),
            AnswerCourse::Mine => self.own_answer(alloc, from, envelope, signer),
        }
    }

    /// What it makes of an answer to itself.
    fn own_answer<'a, G: Signer>(
        &self,
        alloc: Global,
        from: NodeId,
        envelope: &Envelope<'a>,
        signer: &G,
    ) -> Result<Reaction<'a>, NoMemory>
        ensures value { let words = words_of G.certificate_of G.signature_of G.about_of G.verifies
            signer.now
            in (now : ℕ) → IfOk result (λ r. reaction_of self.now now from r
            ≡ model.by_course words self.now now from (seen envelope.now) Mine) }
        ensures fits { IfOk result (IsReaction self.now from) }
    {
        match self.taken_from(alloc, from, envelope, signer)? {
            Some(told) => Ok(Reaction::Takes {
                id: envelope.header.id,
                told,
            }),
            None => Ok(Reaction::Nothing),
        }
    }
}
