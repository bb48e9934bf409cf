//! A decision: who decides, on what, and with what answer.

ghost use Rattle.std.specs.Prelude.{◌≡◌, ◌++◌};
ghost use Rattle.text_words.specs.Codec.{Appended, AppendedSome};
ghost use Rattle.text_words.specs.Lines.{ended, spaced};
ghost use Rattle.transcript_text.specs.Transcript.{decided_line, place_text, request_text};

use crate::answer::put_answer;
use crate::asked::{Asker, put_request};
use reload_base::{Bytes, NoMemory};
use reload_ids::{NodeId, ResourceId};
use request_words::DeclaredNode;
use storage_model::{Answer, Asked};
use text_words::{all_or_nothing, put_decimal, put_id};

// What most decisions take with their answers, in bytes.
const USUAL_DECISION: usize = 256;

/// A decision as its line tells it.
#[derive(Clone, Copy, Debug)]
pub struct DecisionLine<'a> {
    /// The number of the peer.
    pub peer: u32,
    /// The clock in milliseconds.
    pub time: u64,
    pub resource: ResourceId,
    /// Who asks.
    pub origin: NodeId,
    /// The transaction id.
    pub id: u64,
    pub asked: &'a Asked,
    pub answer: &'a Answer,
}

// Finds memory for a decision at once, where it is the first that is told. Behind others there is
// room, as what they took was doubled.
fn find_room(out: &mut Bytes) -> Result<(), NoMemory>
    ensures { out.new ≡ out.old }
{
    if out.is_empty() {
        out.reserve(USUAL_DECISION)?;
    }
    Ok(())
}

// Appends decide P T RES.
#[tactic(auto, unfolding(crate::specs::Transcript::place_text))]
fn put_place(out: &mut Bytes, peer: u32, time: u64, resource: ResourceId) -> Result<(), NoMemory>
    ensures { AppendedSome out.old out.new (place_text peer time resource.0) result }
{
    out.extend(b"decide ")?;
    put_decimal(out, u64::from(peer))?;
    out.extend(b" ")?;
    put_decimal(out, time)?;
    out.extend(b" ")?;
    put_id(out, resource.0)
}

// Appends decide P T RES REQUEST.
fn put_question(
    out: &mut Bytes,
    nodes: &[DeclaredNode],
    line: &DecisionLine<'_>,
) -> Result<(), NoMemory>
    ensures { AppendedSome out.old out.new
        (place_text line.now.peer line.now.time line.now.resource.0
        ++ spaced (request_text nodes.now line.now.origin.0 line.now.id
        line.now.asked.now)) result }
{
    put_place(out, line.peer, line.time, line.resource)?;
    out.extend(b" ")?;
    let asker = Asker {
        origin: line.origin,
        id: line.id,
    };
    put_request(out, nodes, asker, line.asked)
}

#[tactic(auto, unfolding(crate::specs::Transcript::decided_line))]
fn put_decide_words(
    out: &mut Bytes,
    nodes: &[DeclaredNode],
    line: &DecisionLine<'_>,
) -> Result<(), NoMemory>
    ensures { AppendedSome out.old out.new (ended (decided_line nodes.now line.now.peer
        line.now.time line.now.resource.0 line.now.origin.0 line.now.id line.now.asked.now
        line.now.answer.now)) result }
{
    find_room(out)?;
    put_question(out, nodes, line)?;
    out.extend(b" ->")?;
    put_answer(out, line.answer)?;
    out.extend(b"\n")
}

/// Appends `decide P T RES REQUEST -> ANSWER`. Nodes have the numbers by which a scenario declares
/// them; one that it doesn't declare is `?`.
pub fn put_decide_line(
    out: &mut Bytes,
    nodes: &[DeclaredNode],
    line: &DecisionLine<'_>,
) -> Result<(), NoMemory>
    ensures { Appended out.old out.new (ended (decided_line nodes.now line.now.peer line.now.time
        line.now.resource.0 line.now.origin.0 line.now.id line.now.asked.now
        line.now.answer.now)) result }
{
    let before = out.len();
    let appended = put_decide_words(out, nodes, line);
    all_or_nothing(out, before, appended)
}
