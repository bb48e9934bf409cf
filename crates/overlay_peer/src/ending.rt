//! Answers that end what a peer sent.

ghost use Rattle.std.specs.Prelude.{◌≡◌, ◌<◌, ◌^◌, ℕ, false, IfOk, IfSome, OnOk, OnErr};
ghost use Rattle.std.specs.Option.{option_map, option_map_or};
ghost use Rattle.std.specs.FinMap.{get};
ghost use Rattle.transaction_table.specs.Outboxes.{next_in};
ghost use Rattle.transaction_table.specs.Tables as txns;
ghost use Rattle.forwarding_header.specs.declared.header.Header.{Header};
ghost use Rattle.node_messages.specs.Behind.{message_of};
ghost use Rattle.node_messages.specs.Signed.{words_of};
ghost use Rattle.node_links.specs.Sendings.{posted, post_of, IsSending};
ghost use Rattle.node_links.specs.Small.{AreAllSmall};
ghost use Rattle.node_model.specs.declared.limits.TheConstants.{MAX_LOAD};
ghost use Rattle.node_model.specs.declared.course.AnswerCourse.TheVariants.{Mine};
ghost use Rattle.node_model.specs.Heard.{message_in};
ghost use Rattle.node_model.specs.Nodes.{spelling_of};
ghost use Rattle.node_model.specs.Ends as ends;
ghost use Rattle.node_model.specs.Peers as model;
ghost use Rattle.message_courses.specs.Seen.{seen};
ghost use Rattle.overlay_peer.specs.Plans.{planned, IsPlan, IsHead, heard_with};

use crate::peer::Peer;
use crate::plan::Plan;
use data_models::Config;
use message_bodies::code::ERROR;
use message_courses::{Envelope, code_in};
use node_links::Sending;
use node_messages::{Behind, read_contents};
use node_model::{MAX_TTL, Outputs};
use reload_base::{List, NoMemory};
use reload_ids::NodeId;
use security_block::Signer;
use std::alloc::Global;
use transaction_table::{Table, Taken};

/// Whether a message code answers a message of these bytes: the one behind its own, or an error's.
#[tactic(auto, unfolding(node_model::specs::Ends::is_answered_by))]
fn is_answered_by(alloc: Global, code: u16, message: &[u8]) -> Result<bool, NoMemory>
    ensures { IfOk result (λ answered. answered ≡ ends.is_answered_by code message.now) }
{
    match code_in(alloc, message)? {
        Some(asked) => Ok(u32::from(code) == u32::from(asked) + 1 || code == ERROR),
        None => Ok(false),
    }
}

/// Whether an answer from a node ends the head of the outbox to it, if a peer signed it: it has the
/// head's id and a code that answers it, and nobody passed it on.
#[tactic(auto, unfolding(node_model::specs::Ends::is_end_of))]
fn is_end_of(alloc: Global, table: &Table, from: NodeId, e: &Envelope<'_>) -> Result<bool, NoMemory>
    ensures { IfOk result (λ ended. ended
        ≡ option_map_or (ends.is_end_of (seen e.now)) (get table.now.outboxes from.0) false) }
{
    if table.head_id(from) != Some(e.header.id) || e.header.ttl < MAX_TTL {
        return Ok(false);
    }
    match table.head(from) {
        Some(head) => is_answered_by(alloc, e.code, head),
        None => Ok(false),
    }
}

/// Whether a peer signed what is behind a header, and that has a spelling.
fn has_peer(behind: &Behind) -> bool
    ensures { (h : Header) (code : ℕ) → result ≡ ends.is_of_peer (message_of h code behind.now) }
{
    match behind {
        Behind::Bad => false,
        Behind::Whole { signer, .. } => match signer {
            Some(who) => who.peer,
            None => false,
        },
    }
}

/// Whether a peer signed a message that has a spelling.
#[tactic(auto, unfolding(node_model::specs::Heard::message_in))]
fn is_of_peer<G: Signer>(
    alloc: Global,
    config: &Config,
    signer: &G,
    e: &Envelope<'_>,
) -> Result<bool, NoMemory>
    ensures { let words = words_of G.certificate_of G.signature_of G.about_of G.verifies
        signer.now
        in IfOk result (λ signed. signed
        ≡ ends.is_of_peer (message_in config.now words (seen e.now))) }
{
    let behind = read_contents(alloc, config, signer, &e.header, e.code, e.behind)?;
    Ok(has_peer(&behind))
}

/// What is sent to a node once the head of the outbox to it ended: the next message there, if one
/// waits.
fn next_sending<'a>(table: &'a Table, to: NodeId) -> Option<Sending<'a>>
    requires { AreAllSmall table.now }
    ensures exact { (now : ℕ) → option_map post_of result
        ≡ option_map (λ o. posted to (spelling_of o.head.bytes))
        (next_in now (get table.now.outboxes to.0)) }
    ensures fits { IfSome result IsSending }
{
    match table.next(to) {
        Some(bytes) => Some(Sending::Kept { to, bytes }),
        None => None,
    }
}

/// An answer with an id ends the transaction with a node that it answers.
fn take_answer(table: &mut Table, from: NodeId, id: u64, now: u64)
    requires { now < 2 ^ 62 }
    ensures { table.new ≡ txns.after_answer now from.0 id table.old }
{
    match table.answer(from, id, now) {
        Taken::Taken(t) => drop(t.into_message()),
        Taken::NotMine => {}
    }
}

impl Peer {
    /// What it does with an answer to itself.
    pub(crate) fn plan_own<'a, G: Signer>(
        &self,
        alloc: Global,
        signer: &G,
        from: NodeId,
        e: &Envelope<'a>,
    ) -> Result<Plan<'a>, NoMemory>
        ensures exact { let words = words_of G.certificate_of G.signature_of G.about_of G.verifies
            signer.now
            in (now : ℕ) → IfOk result (λ plan. planned words self.now now from plan
            ≡ model.by_answer_course words self.now now from (seen e.now) Mine) }
        ensures fits { IfOk result (IsPlan self.now from) }
    {
        if !is_end_of(alloc, &self.table, from, e)? {
            return Ok(Plan::Send(None));
        }
        if is_of_peer(alloc, self.node.config(), signer, e)? {
            Ok(Plan::End(e.header.id))
        } else {
            Ok(Plan::Send(None))
        }
    }

    /// It hears a payload with an answer that ends the head of the outbox to the node that it came
    /// from: the next message there, if one waits, is sent.
    #[tactic(auto, unfolding(crate::specs::Plans::heard_with, node_model::specs::Peers::ends))]
    pub(crate) fn end(
        &mut self,
        alloc: Global,
        now: u64,
        from: NodeId,
        sequence: u32,
        id: u64,
    ) -> Result<Outputs, NoMemory>
        requires clock { now < 2 ^ 62 }
        requires light { model.load self.old < MAX_LOAD }
        requires head { IsHead self.old.txns from id }
        ensures outputs { IfOk result (λ out. out
            ≡ (heard_with from sequence (model.ends self.old now from id)).outputs) }
        ensures peer { OnOk result (self.new
            ≡ (heard_with from sequence (model.ends self.old now from id)).node) }
        ensures err { OnErr result (self.new ≡ self.old) }
    {
        let sending = next_sending(&self.table, from);
        let frames = self.node.hear(alloc, from, sequence, sending)?;
        take_answer(&mut self.table, from, id, now);
        Ok(Outputs {
            frames,
            notices: List::new(alloc),
        })
    }
}
