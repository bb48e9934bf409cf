//! What a peer makes of a message, as a text.

use crate::made::{Heard, message};
use crate::ring::{CLIENT, node, peer};
use forwarding_header::decode_header;
use link_framing::{FrameView, first_frame};
use node_model::{Input, MAX_LOAD};
use reload_base::{Bytes, NoMemory};
use reload_ids::NodeId;
use security_block::StandIn;
use std::alloc::Global;

/// The message code of an error.
const ERROR: u16 = 0xffff;

/// Two bytes of a part, from a place on.
fn number_at(part: &[u8], place: usize) -> u16 {
    match part.get(place..).unwrap_or(part) {
        [high, low, ..] => u16::from_be_bytes([*high, *low]),
        _ => 0,
    }
}

/// A message that leaves: to whom, with which code, or which error, TTL, and numbers of via list and
/// destinations.
fn put_message(
    alloc: Global,
    out: &mut String<Global>,
    to: NodeId,
    message: &[u8],
) -> Result<(), NoMemory> {
    let Ok((header, place)) = decode_header(alloc, message) else {
        return Ok(());
    };
    let first = to.0 >> 120;
    let behind = message.get(place..).unwrap_or(message);
    let line = match number_at(behind, 0) {
        ERROR => format!(in alloc; "to {first:x}: error {}\n", number_at(behind, 6))?,
        code => format!(in alloc;
            "to {first:x}: code {code} ttl {} via {} dest {}\n",
            header.ttl,
            header.via.len(),
            header.dest.len()
        )?,
    };
    out.push_str(line.as_str())?;
    Ok(())
}

/// The frame of a first payload.
fn framed(alloc: Global, message: &[u8]) -> Result<Bytes, NoMemory> {
    let mut bytes = Bytes::from_slice(alloc, &[0x80, 0, 0, 0, 1])?;
    let length = u32::try_from(message.len()).unwrap_or(0).to_be_bytes();
    bytes.extend(length.get(1..).unwrap_or(&length))?;
    bytes.extend(message)?;
    Ok(bytes)
}

/// The lines of all that a peer sends for a message that the client's link brings, but for acks, and
/// `decided` where it decides.
pub fn told(alloc: Global, heard: &Heard<'_>) -> Result<String<Global>, NoMemory> {
    let bytes = framed(alloc, message(alloc, heard)?.as_slice())?;
    let input = Input::Frame {
        from: node(CLIENT),
        bytes: bytes.as_slice(),
    };
    let mut peer = peer(alloc)?;
    let mut out = String::new(alloc);
    if MAX_LOAD <= peer.load() {
        return Ok(out);
    }
    let outputs = peer.handle(alloc, 0, input, &StandIn::new(alloc))?;
    if outputs.notices.len() > 0 {
        out.push_str("decided\n")?;
    }
    for (to, bytes) in outputs.frames.as_slice() {
        if let Ok(Some((FrameView::Payload { message, .. }, _))) = first_frame(
            bytes.as_slice(),
            0,
        ) {
            put_message(alloc, &mut out, *to, message)?;
        }
    }
    Ok(out)
}
