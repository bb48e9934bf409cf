//! The frames in which what a node sends leaves it.

ghost use Rattle.std.specs.Prelude.{◌≡◌, ◌≤◌, ◌∷◌, ◌++◌, Some, length, IfOk, IfSome, OnOk};
ghost use Rattle.std.specs.Option.{option_and_then, option_map, option_copied, option_to_list};
ghost use Rattle.transaction_table.specs.Tables.{txn_at};
ghost use Rattle.wire_core.specs.declared.limits.TheConstants.{MAX_MESSAGE};
ghost use Rattle.link_framing.specs.declared.frame.Frame.TheVariants.{Payload};
ghost use Rattle.link_framing.specs.Framing.{frame};
ghost use Rattle.forwarding_header.specs.Header.{IsSpelledHeader};
ghost use Rattle.node_messages.specs.Making.{with_length, whole};
ghost use Rattle.node_model.specs.Links as model;
ghost use Rattle.node_model.specs.Nodes.{spelling_of, frames_of, frames_of_all, links_after, links_after_all};
ghost use Rattle.node_model.specs.Clocks.{post_again, posts_again};
ghost use Rattle.node_links.specs.Small.{AreSmall};
ghost use Rattle.node_links.specs.Sendings.{posted, post_of, IsSending, payload_front};

use crate::links::Links;
use crate::sending::Sending;
use forwarding_header::{Header, put_header};
use link_framing::{Frame, encode_frame};
use node_messages::header_len;
use reload_base::{Bytes, List, NoMemory};
use reload_ids::NodeId;
use std::alloc::Global;
use transaction_table::{Spot, Table};
use wire_core::{put_u8, put_u24, put_u32};

/// The front of a payload's frame, with room for a message of so many bytes.
#[tactic(auto, unfolding(crate::specs::Sendings::payload_front))]
fn payload_front(alloc: Global, sequence: u32, len: u32) -> Result<Bytes, NoMemory>
    requires { len ≤ MAX_MESSAGE }
    ensures { IfOk result (λ bytes. bytes ≡ payload_front sequence len) }
{
    let mut out = Bytes::new(alloc);
    out.reserve(8 + len as usize)?;
    put_u8(&mut out, 128)?;
    put_u32(&mut out, sequence)?;
    put_u24(&mut out, len)?;
    Ok(out)
}

/// The frame of a payload.
fn payload_frame(alloc: Global, sequence: u32, message: &[u8]) -> Result<Bytes, NoMemory>
    requires { length message.now ≤ MAX_MESSAGE }
    ensures { IfOk result (λ bytes. bytes ≡ frame (Payload sequence message.now)) }
{
    let mut out = payload_front(alloc, sequence, message.len() as u32)?;
    out.extend(message)?;
    Ok(out)
}

/// The header of a message with its length filled in, where this follows it.
#[tactic(auto, using(node_messages::proofs::Wholes::whole_lengths), unfolding(node_messages::specs::Making::with_length))]
fn filled(header: Header, behind: &[u8]) -> Header
    requires { length (whole header behind.now) ≤ MAX_MESSAGE }
    ensures { result ≡ with_length header behind.now }
{
    let length = (header_len(&header) + behind.len() as u64) as u32;
    Header { length, ..header }
}

/// The frame of a payload with a message that is passed on. What follows its header is copied once.
fn onward_frame(
    alloc: Global,
    sequence: u32,
    header: Header,
    behind: &[u8],
) -> Result<Bytes, NoMemory>
    requires spelled { IsSpelledHeader header }
    requires within { length (whole header behind.now) ≤ MAX_MESSAGE }
    ensures { IfOk result (λ bytes. bytes ≡ frame (Payload sequence (whole header behind.now))) }
{
    let header = filled(header, behind);
    let mut out = payload_front(alloc, sequence, header.length)?;
    put_header(&mut out, &header)?;
    out.extend(behind)?;
    Ok(out)
}

/// The ack of a payload that was heard from a node.
#[tactic(auto, unfolding(node_model::specs::Links::ack_to))]
fn ack_to(
    alloc: Global,
    links: &Links,
    from: NodeId,
    sequence: u32,
) -> Result<(NodeId, Bytes), NoMemory>
    ensures { IfOk result (λ sent. sent ≡ model.ack_to from sequence links.now) }
{
    let received = links.mask(from, sequence);
    let ack = encode_frame(alloc, &Frame::Ack { sequence, received })?;
    Ok((from, ack))
}

/// The payload in which a message goes to a node.
#[tactic(auto, unfolding(node_model::specs::Links::payload_to))]
fn payload_to(
    alloc: Global,
    links: &Links,
    to: NodeId,
    message: &[u8],
) -> Result<(NodeId, Bytes), NoMemory>
    requires { length message.now ≤ MAX_MESSAGE }
    ensures { IfOk result (λ sent. sent ≡ model.payload_to to message.now links.now) }
{
    Ok((to, payload_frame(alloc, links.next_sequence(to), message)?))
}

/// The payload in which a message that is passed on goes to a node.
#[tactic(auto, unfolding(node_model::specs::Links::payload_to))]
fn onward_to(
    alloc: Global,
    links: &Links,
    to: NodeId,
    header: Header,
    behind: &[u8],
) -> Result<(NodeId, Bytes), NoMemory>
    requires spelled { IsSpelledHeader header }
    requires within { length (whole header behind.now) ≤ MAX_MESSAGE }
    ensures { IfOk result (λ sent. sent
        ≡ model.payload_to to (whole header behind.now) links.now) }
{
    Ok((
        to,
        onward_frame(alloc, links.next_sequence(to), header, behind)?,
    ))
}

/// A message that is kept with its bytes, of which there are none where it has no spelling.
fn spelling_of(bytes: &[u8]) -> Option<&[u8]>
    ensures { option_copied result ≡ spelling_of bytes.now }
{
    if bytes.is_empty() { None } else { Some(bytes) }
}

/// Adds the frame of a message to a node, none where it has no spelling.
#[tactic(auto, unfolding(node_model::specs::Nodes::frames_of))]
fn add_posted(
    alloc: Global,
    links: &Links,
    to: NodeId,
    message: Option<&[u8]>,
    out: &mut List<(NodeId, Bytes)>,
) -> Result<(), NoMemory>
    requires { IfSome message (λ m. length m.now ≤ MAX_MESSAGE) }
    ensures { OnOk result (out.new ≡ out.old
        ++ frames_of links.now (Some (posted to (option_map (λ m. m.now) message.entry)))) }
{
    match message {
        None => Ok(()),
        Some(message) => out.push(payload_to(alloc, links, to, message)?),
    }
}

/// Adds the frame of a message that is passed on to a node.
#[tactic(auto, unfolding(node_model::specs::Nodes::frames_of))]
fn add_onward(
    alloc: Global,
    links: &Links,
    to: NodeId,
    header: Header,
    behind: &[u8],
    out: &mut List<(NodeId, Bytes)>,
) -> Result<(), NoMemory>
    requires spelled { IsSpelledHeader header }
    requires within { length (whole header behind.now) ≤ MAX_MESSAGE }
    ensures { OnOk result (out.new ≡ out.old
        ++ frames_of links.now (Some (posted to (Some (whole header behind.now))))) }
{
    out.push(onward_to(alloc, links, to, header, behind)?)
}

/// Adds the frame of what is sent, if anything is.
#[tactic(auto, unfolding(node_model::specs::Nodes::frames_of))]
fn add_sent(
    alloc: Global,
    links: &Links,
    sending: Option<Sending<'_>>,
    out: &mut List<(NodeId, Bytes)>,
) -> Result<(), NoMemory>
    requires { IfSome sending IsSending }
    ensures { OnOk result (out.new ≡ out.old
        ++ frames_of links.now (option_map post_of sending.entry)) }
{
    match sending {
        None => Ok(()),
        Some(Sending::Made { to, message: None }) => add_posted(alloc, links, to, None, out),
        Some(
            Sending::Made {
                to,
                message: Some(message),
            },
        ) => add_posted(alloc, links, to, Some(message.as_slice()), out),
        Some(Sending::Kept { to, bytes }) => add_posted(alloc, links, to, spelling_of(bytes), out),
        Some(Sending::Onward { to, header, behind }) => {
            add_onward(alloc, links, to, header, behind, out)
        }
    }
}

/// The frames of a message that a node sends of itself.
pub(crate) fn frames_posted(
    alloc: Global,
    links: &Links,
    to: NodeId,
    message: Option<&[u8]>,
) -> Result<List<(NodeId, Bytes)>, NoMemory>
    requires { IfSome message (λ m. length m.now ≤ MAX_MESSAGE) }
    ensures { IfOk result (λ frames. frames
        ≡ frames_of links.now (Some (posted to (option_map (λ m. m.now) message.entry)))) }
{
    let mut out = List::new(alloc);
    add_posted(alloc, links, to, message, &mut out)?;
    Ok(out)
}

/// The frames of a node that heard a payload: the ack leaves first, and then what it sends.
#[tactic(auto, using(crate::proofs::Counted::frames_alone))]
pub(crate) fn frames_heard(
    alloc: Global,
    links: &Links,
    from: NodeId,
    sequence: u32,
    sending: Option<Sending<'_>>,
) -> Result<List<(NodeId, Bytes)>, NoMemory>
    requires { IfSome sending IsSending }
    ensures { IfOk result (λ frames. frames ≡ model.ack_to from sequence links.now
        ∷ frames_of_all links.now (option_to_list (option_map post_of sending.entry))) }
{
    let mut out = List::new(alloc);
    out.push(ack_to(alloc, links, from, sequence)?)?;
    add_sent(alloc, links, sending, &mut out)?;
    Ok(out)
}

/// What is sent again of the transaction at a spot, if anything is: to whom, and its bytes, none
/// where it has no spelling.
fn posted_again(table: &Table, spot: Spot, limit: Option<u8>) -> Option<(NodeId, Option<&[u8]>)>
    ensures { option_map (λ p. posted p.0 (option_map (λ m. m.now) p.1)) result
        ≡ option_and_then (post_again limit) (txn_at spot table.now) }
{
    let (to, _, sends) = table.sends(spot)?;
    if limit.is_some_and(|limit| limit <= sends) {
        return None;
    }
    Some((to, spelling_of(table.bytes_at(spot)?)))
}

/// Adds the frame in which the transaction at a spot is sent again, if it is, and notes that its
/// sequence is used.
fn add_again(
    alloc: Global,
    links: &mut Links,
    table: &Table,
    spot: Spot,
    limit: Option<u8>,
    out: &mut List<(NodeId, Bytes)>,
) -> Result<(), NoMemory>
    requires { AreSmall table.now }
    ensures frames { OnOk result (out.new ≡ out.old
        ++ frames_of links.old (option_and_then (post_again limit) (txn_at spot table.now))) }
    ensures links { OnOk result (links.new
        ≡ links_after (option_and_then (post_again limit) (txn_at spot table.now)) links.old) }
{
    match posted_again(table, spot, limit) {
        None => Ok(()),
        Some((to, message)) => {
            add_posted(alloc, links, to, message, out)?;
            links.note_sent(to)
        }
    }
}

/// The frames in which the transactions at some spots are sent again, save those that were sent as
/// often as a limit allows. Their sequences are used.
pub(crate) fn frames_again(
    alloc: Global,
    links: &mut Links,
    table: &Table,
    spots: &[Spot],
    limit: Option<u8>,
) -> Result<List<(NodeId, Bytes)>, NoMemory>
    requires { AreSmall table.now }
    ensures frames { IfOk result (λ frames. frames
        ≡ frames_of_all links.old (posts_again limit table.now spots.now)) }
    ensures links { OnOk result (links.new
        ≡ links_after_all (posts_again limit table.now spots.now) links.old) }
{
    let mut out = List::new(alloc);
    for spot in spots {
        add_again(alloc, links, table, *spot, limit, &mut out)?;
    }
    Ok(out)
}
