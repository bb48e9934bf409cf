//! What an answer tells a client.

ghost use Rattle.std.specs.Prelude.{◌≡◌, ℕ, is_some, IfOk};
ghost use Rattle.transaction_table.specs.Tables.{outstanding};
ghost use Rattle.wire_core.specs.Reading.{whole_of, Gives};
ghost use Rattle.message_bodies.specs.StoreAns.{store_ans_at};
ghost use Rattle.node_messages.specs.Behind.{message_of};
ghost use Rattle.node_messages.specs.Signed.{words_of};
ghost use Rattle.forwarding_header.specs.declared.header.Header.{Header};
ghost use Rattle.node_model.specs.Clients.{counters_of, counters_said, counters_in, told_by, told_in, taken_from};
ghost use Rattle.message_courses.specs.Seen.{seen};

use crate::client::Client;
use message_bodies::{Body, StoreKindResponse};
use message_courses::Envelope;
use node_messages::{Behind, read_contents};
use node_model::{Question, Told};
use reload_base::{List, NoMemory};
use reload_ids::NodeId;
use security_block::Signer;
use std::alloc::Global;
use storage_model::Refusal;
use transaction_table::Table;
use wire_core::{Cursor, DecodeFault, take_vector};

/// The generation counters of a Store's answer.
#[tactic(auto, unfolding(node_model::specs::Clients::counters_of))]
fn counters_of(
    alloc: Global,
    responses: &List<StoreKindResponse>,
) -> Result<List<(u32, u64)>, NoMemory>
    ensures { IfOk result (λ counters. counters ≡ counters_of responses.now) }
{
    let mut counters = List::new(alloc);
    for r in responses.as_slice() {
        counters.push((r.kind, r.generation))?;
    }
    Ok(counters)
}

/// The responses that fill these bytes.
#[tactic(auto, unfolding(message_bodies::specs::StoreAns::store_ans_at))]
fn responses_in(alloc: Global, info: &[u8]) -> Result<Body, DecodeFault>
    ensures { Gives result (whole_of store_ans_at info.now) }
{
    let mut from = Cursor::new(info, 0);
    let kind_responses = take_vector(alloc, &mut from, 2)?;
    from.finish()?;
    Ok(Body::StoreAns { kind_responses })
}

/// The generation counters that are said of an error, where it says any.
fn counters_said(alloc: Global, info: &[u8]) -> Result<List<(u32, u64)>, NoMemory>
    ensures { IfOk result (λ counters. counters ≡ counters_said (whole_of store_ans_at info.now)) }
{
    match responses_in(alloc, info) {
        Ok(Body::StoreAns { kind_responses }) => counters_of(alloc, &kind_responses),
        Ok(_) | Err(DecodeFault::Bad(_)) => Ok(List::new(alloc)),
        Err(DecodeFault::NoMemory) => Err(NoMemory),
    }
}

/// The generation counters that an error of this code says.
#[tactic(auto, unfolding(node_model::specs::Clients::counters_in))]
fn counters_in(alloc: Global, code: u16, info: &[u8]) -> Result<List<(u32, u64)>, NoMemory>
    ensures { IfOk result (λ counters. counters ≡ counters_in code info.now) }
{
    if code == Refusal::GenerationCounterTooLow.code() {
        counters_said(alloc, info)
    } else {
        Ok(List::new(alloc))
    }
}

/// What a body tells who asked for this, if it answers that.
fn told_by(alloc: Global, question: Question, body: Body) -> Result<Option<Told>, NoMemory>
    ensures { IfOk result (λ told. told ≡ told_by question body) }
{
    match body {
        Body::StoreAns { kind_responses } => match question {
            Question::Store => Ok(Some(Told::Stored {
                counters: counters_of(alloc, &kind_responses)?,
            })),
            Question::Fetch => Ok(None),
        },
        Body::FetchAns { kind_responses } => match question {
            Question::Store => Ok(None),
            Question::Fetch => Ok(Some(Told::Fetched {
                kinds: kind_responses,
            })),
        },
        Body::Error {
            error_code,
            error_info,
        } => Ok(Some(Told::Failed {
            code: error_code,
            counters: counters_in(alloc, error_code, error_info.as_slice())?,
        })),
        _ => Ok(None),
    }
}

/// What a message tells who asked for this, if it answers that and a peer signed it.
fn told_in(alloc: Global, question: Question, behind: Behind) -> Result<Option<Told>, NoMemory>
    ensures { (h : Header) (code : ℕ) → IfOk result (λ told.
        told ≡ told_in question (message_of h code behind)) }
{
    match behind {
        Behind::Bad => Ok(None),
        Behind::Whole {
            contents,
            signer,
            ..
        } => match signer {
            Some(who) if who.peer => told_by(alloc, question, contents.body),
            _ => Ok(None),
        },
    }
}

/// Whether a transaction with a peer and an id is outstanding.
fn is_outstanding(table: &Table, peer: NodeId, id: u64) -> bool
    ensures { result ≡ is_some (outstanding peer.0 id table.now) }
{
    table.message(peer, id).is_some()
}

impl Client {
    /// What an answer from a node tells the client: there must be an outstanding transaction with
    /// that node and id, and a question that it answers.
    #[tactic(auto, unfolding(node_model::specs::Clients::taken_from))]
    pub(crate) fn taken_from<G: Signer>(
        &self,
        alloc: Global,
        from: NodeId,
        envelope: &Envelope<'_>,
        signer: &G,
    ) -> Result<Option<Told>, NoMemory>
        ensures { let words = words_of G.certificate_of G.signature_of G.about_of G.verifies
            signer.now
            in IfOk result (λ told. told ≡ taken_from words from (seen envelope.now) self.now) }
    {
        let header = &envelope.header;
        if !is_outstanding(&self.table, from, header.id) {
            return Ok(None);
        }
        let Some(question) = self.questions.get(u128::from(header.id)) else {
            return Ok(None);
        };
        let config = self.node.config();
        let behind = read_contents(
            alloc,
            config,
            signer,
            header,
            envelope.code,
            envelope.behind,
        )?;
        told_in(alloc, *question, behind)
    }
}
