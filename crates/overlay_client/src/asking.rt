//! A request that a client issues.

ghost use Rattle.std.specs.Prelude.{◌≡◌, ◌≤◌, ◌<◌, ◌^◌, [], None, unwrap_or, if◌then◌else◌, IfOk, OnOk, OnErr};
ghost use Rattle.std.specs.Option.{option_map, option_copied};
ghost use Rattle.std.specs.FinMap as maps;
ghost use Rattle.transaction_table.specs.Tables as txns;
ghost use Rattle.node_messages.specs.Signed.{words_of};
ghost use Rattle.node_model.specs.Nodes.{next_id};
ghost use Rattle.node_model.specs.Requests.{request_header};
ghost use Rattle.node_model.specs.Clients as model;
ghost use Rattle.overlay_client.specs.Asked.{request, asking_of, IsSmall, queued_of, asked};

use crate::client::Client;
use forwarding_header::{Destination, Header};
use message_bodies::{Body, Contents};
use node_links::Node;
use node_messages::make_message;
use node_model::{MAX_LOAD, MAX_TTL, Outputs, Question};
use ordered_tables::NumberTable;
use reload_base::{Bytes, List, NoMemory};
use reload_ids::{NodeId, ResourceId};
use security_block::Signer;
use std::alloc::Global;
use transaction_table::{Table, Taken, Txn};

/// A request that is to be issued.
#[derive(Debug, Drop)]
pub(crate) struct Asking {
    /// The peer that is asked.
    pub(crate) peer: NodeId,
    /// The transaction id.
    pub(crate) id: u64,
    /// Its bytes, none where it has no spelling.
    pub(crate) message: Option<Bytes>,
    pub(crate) question: Question,
}

/// The request with this header and body, with what it asks for.
#[tactic(auto, using(crate::proofs::Made::made_within))]
pub(crate) fn made_asking<G: Signer>(
    alloc: Global,
    node: &Node,
    signer: &G,
    peer: NodeId,
    header: Header,
    body: Body,
    question: Question,
) -> Result<Asking, NoMemory>
    ensures value { let words = words_of G.certificate_of G.signature_of G.about_of G.verifies
        signer.now
        in IfOk result (λ a. a ≡ asking_of words node.now (request peer header body question)) }
    ensures within { IfOk result (λ a. IsSmall a.message) }
{
    let id = header.id;
    let contents = Contents {
        body,
        extensions: List::new(alloc),
    };
    let message = make_message(alloc, signer, node.about(), header, &contents)?;
    Ok(Asking {
        peer,
        id,
        message,
        question,
    })
}

/// The header of the next request for a resource: with a TTL, the number of a configuration and a
/// limit to its answer that it names, or else its own.
#[tactic(auto, unfolding(node_model::specs::Requests::request_header))]
pub(crate) fn request_header(
    alloc: Global,
    node: &Node,
    resource: ResourceId,
    ttl: Option<u8>,
    sequence: Option<u16>,
    max: u32,
) -> Result<Header, NoMemory>
    ensures { IfOk result (λ h. h ≡ request_header node.now resource ttl sequence max) }
{
    let mut dest = List::new(alloc);
    dest.push(Destination::Resource(resource))?;
    Ok(Header {
        overlay: node.overlay(),
        sequence: sequence.unwrap_or(node.config().sequence),
        ttl: ttl.unwrap_or(MAX_TTL),
        length: 0,
        id: node.next_id(),
        max_response: max,
        via: List::new(alloc),
        dest,
        options: List::new(alloc),
    })
}

/// Notes a transaction and its question. After `NoMemory` both tables are as before.
#[tactic(auto, using(crate::proofs::Notes::question_back))]
fn note(
    table: &mut Table,
    questions: &mut NumberTable<Question>,
    now: u64,
    peer: NodeId,
    id: u64,
    message: Bytes,
    question: Question,
) -> Result<(), NoMemory>
    requires time { now < 2 ^ 62 }
    requires new { txns.IsNew id table.old }
    requires unasked { maps.get questions.old id ≡ None }
    ensures ok { OnOk result
        (table.new ≡ txns.issued now (queued_of peer id message) table.old) }
    ensures asked { OnOk result (questions.new ≡ maps.insert questions.old id question) }
    ensures err { OnErr result (table.new ≡ table.old) }
    ensures unasked { OnErr result (questions.new ≡ questions.old) }
{
    let key = u128::from(id);
    questions.insert(key, question)?;
    if let Err(fault) = table.issue(Txn::new(peer, id, message), now) {
        questions.remove(key);
        return Err(fault);
    }
    Ok(())
}

/// Ends a transaction, and drops its question.
pub(crate) fn forget(
    table: &mut Table,
    questions: &mut NumberTable<Question>,
    now: u64,
    from: NodeId,
    id: u64,
)
    requires { now < 2 ^ 62 }
    ensures table { table.new ≡ txns.after_answer now from.0 id table.old }
    ensures questions { questions.new ≡ maps.remove questions.old id }
{
    match table.answer(from, id, now) {
        Taken::Taken(t) => drop(t.into_message()),
        Taken::NotMine => {}
    }
    questions.remove(u128::from(id));
}

/// The bytes of a request that was noted, if it has any.
fn noted<'a>(table: &'a Table, peer: NodeId, id: u64, has_bytes: bool) -> Option<&'a [u8]>
    ensures { option_copied result ≡ (if has_bytes
        then option_map (λ t. t.message) (txns.outstanding peer.0 id table.now) else None) }
{
    if has_bytes {
        table.message(peer, id)
    } else {
        None
    }
}

/// Some bytes, or none.
fn bytes_or_none(alloc: Global, message: Option<Bytes>) -> Bytes
    ensures { result ≡ unwrap_or message [] }
{
    match message {
        Some(bytes) => bytes,
        None => Bytes::new(alloc),
    }
}

impl Client {
    /// It issues its next request. The transaction holds the bytes of the message, and the frame is
    /// made of them.
    pub(crate) fn ask(
        &mut self,
        alloc: Global,
        now: u64,
        asking: Asking,
    ) -> Result<Outputs, NoMemory>
        requires time { now < 2 ^ 62 }
        requires light { model.load self.old < MAX_LOAD }
        requires next { asking.id ≡ next_id self.old.node }
        requires small { IsSmall asking.message }
        ensures ok { OnOk result (self.new ≡ (asked now asking self.old).node) }
        ensures outputs { IfOk result (λ o. o ≡ (asked now asking self.old).outputs) }
        ensures err { OnErr result (self.new ≡ self.old) }
    {
        let Asking {
            peer,
            id,
            message,
            question,
        } = asking;
        let has_bytes = message.is_some();
        let bytes = bytes_or_none(alloc, message);
        note(
            &mut self.table,
            &mut self.questions,
            now,
            peer,
            id,
            bytes,
            question,
        )?;
        let message = noted(&self.table, peer, id, has_bytes);
        match self.node.ask(alloc, peer, message) {
            Ok(frames) => Ok(Outputs {
                frames,
                notices: List::new(alloc),
            }),
            Err(fault) => {
                forget(&mut self.table, &mut self.questions, now, peer, id);
                Err(fault)
            }
        }
    }
}
