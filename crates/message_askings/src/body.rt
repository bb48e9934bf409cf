//! The bodies of answers.

ghost use Rattle.std.specs.Prelude.{◌≡◌, All, IfOk};
ghost use Rattle.message_bodies.specs.StoreAns.{store_ans, IsSpelledStoreResponse};
ghost use Rattle.node_model.specs.Replies as replies;

use message_bodies::{Body, StoreKindResponse};
use reload_base::{Bytes, List, NoMemory, TryCopy};
use reload_ids::NodeId;
use std::alloc::Global;
use storage_model::{Answer, Refusal};
use wire_core::{put_list, put_u16};

/// The body that tells a decision's answer; a Store's names the nodes that hold its replicas
/// (RFC 6940, section 7.4.1.2).
pub fn body_of(alloc: Global, replicas: &[NodeId], answer: &Answer) -> Result<Body, NoMemory>
    ensures { IfOk result (λ body. body ≡ replies.body_of replicas.now answer.now) }
{
    match answer {
        Answer::Decided { code: 0, counters } => Ok(Body::StoreAns {
            kind_responses: responses(alloc, replicas, counters)?,
        }),
        Answer::Decided { code, counters } => Ok(Body::Error {
            error_code: *code,
            error_info: error_info(alloc, *code, counters)?,
        }),
        Answer::Found { kinds } => Ok(Body::FetchAns {
            kind_responses: kinds.copy(alloc)?,
        }),
        Answer::Joined => Ok(Body::JoinAns {
            overlay_specific_data: Bytes::new(alloc),
        }),
    }
}

/// The body of an error of which nothing is said. It takes no memory.
pub fn refusal_body(alloc: Global, cause: Refusal) -> Body
    ensures { result ≡ replies.refusal_body cause }
{
    Body::Error {
        error_code: cause.code(),
        error_info: Bytes::new(alloc),
    }
}

/// Kinds with their generation counters, and who holds their replicas.
#[tactic(auto, unfolding(node_model::specs::Replies::responses))]
fn responses(
    alloc: Global,
    replicas: &[NodeId],
    counters: &List<(u32, u64)>,
) -> Result<List<StoreKindResponse>, NoMemory>
    ensures { IfOk result (λ all. all ≡ replies.responses replicas.now counters.now) }
{
    let mut all = List::new(alloc);
    all.reserve(counters.len())?;
    for (kind, generation) in counters.as_slice() {
        all.push(StoreKindResponse {
            kind: *kind,
            generation: *generation,
            replicas: List::from_vec(replicas.to_vec(alloc)?),
        })?;
    }
    Ok(all)
}

/// What is said of an error: the stored generation counters where others were asked for.
#[tactic(auto, using(crate::proofs::Infos::told))]
fn error_info(alloc: Global, code: u16, counters: &List<(u32, u64)>) -> Result<Bytes, NoMemory>
    ensures { IfOk result (λ info. info ≡ replies.error_info code counters.now) }
{
    if code != Refusal::GenerationCounterTooLow.code() {
        return Ok(Bytes::new(alloc));
    }
    store_ans(alloc, &responses(alloc, &[], counters)?)
}

/// The bytes of a Store's answer. Of a length that doesn't fit its two bytes the lowest stand
/// there, and the error that has them is then too long to be sent.
#[tactic(auto, using(crate::proofs::Infos::cuts), unfolding(message_bodies::specs::StoreAns::store_ans))]
fn store_ans(alloc: Global, responses: &List<StoreKindResponse>) -> Result<Bytes, NoMemory>
    requires { All IsSpelledStoreResponse responses.now }
    ensures { IfOk result (λ bytes. bytes ≡ store_ans responses.now) }
{
    let mut content = Bytes::new(alloc);
    put_list(&mut content, responses)?;
    let mut out = Bytes::new(alloc);
    put_u16(&mut out, (content.len() % 65_536) as u16)?;
    out.extend(content.as_slice())?;
    Ok(out)
}
