//! The way of an answer.

ghost use Rattle.std.specs.Prelude.{◌≡◌, IfOk};
ghost use Rattle.forwarding_header.specs.Header.{IsSpelledHeader, IsHeaderInRange};
ghost use Rattle.node_model.specs.Ways.{passed, answer_course, reply_header};
ghost use Rattle.message_courses.specs.Fits.{IsPassedOn};

use crate::destinations::is_node;
use crate::onward::{hop_on, ttl_of};
use crate::options::copied;
use forwarding_header::{Destination, Header, reversed};
use node_model::{AnswerCourse, MAX_TTL};
use reload_base::{List, NoMemory, TryCopy};
use reload_ids::NodeId;
use std::alloc::Global;

/// The course of an answer behind the node itself: with more destinations the next must be a node,
/// and the TTL over 1.
fn passed(alloc: Global, header: &Header, rest: &[Destination]) -> Result<AnswerCourse, NoMemory>
    ensures { IfOk result (λ c. c ≡ passed header.now rest.now) }
{
    let Some((next, _)) = rest.split_first() else {
        return Ok(AnswerCourse::Mine);
    };
    let Destination::Node(next) = next else {
        return Ok(AnswerCourse::Ignored);
    };
    if ttl_of(header) <= 1 {
        return Ok(AnswerCourse::Ignored);
    }
    let via = header.via.copy(alloc)?;
    let header = hop_on(alloc, header, via, rest)?;
    Ok(AnswerCourse::Passed {
        next: *next,
        header,
    })
}

/// The course of an answer.
#[tactic(auto, unfolding(node_model::specs::Ways::answer_course))]
fn course_of(alloc: Global, me: NodeId, header: &Header) -> Result<AnswerCourse, NoMemory>
    ensures { IfOk result (λ c. c ≡ answer_course me.0 header.now) }
{
    let Some((first, rest)) = header.dest.as_slice().split_first() else {
        return Ok(AnswerCourse::Ignored);
    };
    if !is_node(me, first) {
        return Ok(AnswerCourse::Ignored);
    }
    passed(alloc, header, rest)
}

/// The course of an answer at a node: its first destination must be that node (RFC 6940, section
/// 6.2.2).
pub fn answer_course(alloc: Global, me: NodeId, header: &Header) -> Result<AnswerCourse, NoMemory>
    requires is_spelled { IsSpelledHeader header.now }
    requires in_range { IsHeaderInRange header.now }
    // Which course it is.
    ensures value { IfOk result (λ c. c ≡ answer_course me.0 header.now) }
    // The header with which it is passed on fits, and is no longer.
    ensures fits { IfOk result (IsPassedOn header.now) }
{
    course_of(alloc, me, header)
}

/// The header of the answer to a request that came over the link from a node. Its length is that of
/// nothing yet.
#[tactic(auto, unfolding(node_model::specs::Ways::reply_header))]
pub fn reply_header(alloc: Global, from: NodeId, header: &Header) -> Result<Header, NoMemory>
    ensures { IfOk result (λ h. h ≡ reply_header from header.now) }
{
    Ok(Header {
        overlay: header.overlay,
        sequence: header.sequence,
        ttl: MAX_TTL,
        length: 0,
        id: header.id,
        max_response: 0,
        via: List::new(alloc),
        dest: reversed(alloc, from, &header.via)?,
        options: copied(alloc, &header.options)?,
    })
}
