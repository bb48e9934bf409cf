//! The messages that are heard.

use crate::ring::{CLIENT, ME, about, node};
use forwarding_header::{Destination, ForwardingOption, Header};
use message_bodies::{Body, Contents, Extension};
use node_messages::make_message;
use reload_base::{Bytes, List, NoMemory};
use reload_ids::{ResourceId, overlay_of};
use security_block::StandIn;
use std::alloc::Global;

/// A destination: a node or a resource by its first byte, or one that no peer knows.
#[derive(Clone, Copy, Debug)]
pub enum To {
    Node(u8),
    Resource(u8),
    Opaque,
    Short,
}

/// The peer itself.
pub const SELF: To = To::Node(ME);

/// A message of the client: a Fetch of nothing, or the answer to one.
#[derive(Clone, Copy, Debug)]
pub struct Heard<'a> {
    pub dest: &'a [To],
    pub is_answer: bool,
    pub ttl: u8,
    /// The flags of its options.
    pub flags: &'a [u8],
    /// The entries of its via list, of 18 bytes each.
    pub via: usize,
    /// The bytes of its one extension, if it has one that isn't critical.
    pub extension: Option<usize>,
    pub critical: bool,
    /// Its signature is another, its security block is cut, it is of another overlay.
    pub is_spoilt: bool,
    pub is_cut: bool,
    pub is_foreign: bool,
}

/// A Fetch to nobody.
pub const FETCH: Heard<'static> = Heard {
    dest: &[],
    is_answer: false,
    ttl: 100,
    flags: &[],
    via: 0,
    extension: None,
    critical: false,
    is_spoilt: false,
    is_cut: false,
    is_foreign: false,
};

fn destination(alloc: Global, to: To) -> Result<Destination, NoMemory> {
    match to {
        To::Node(first) => Ok(Destination::Node(node(first))),
        To::Resource(first) => Ok(Destination::Resource(ResourceId(node(first).0))),
        To::Opaque => Ok(Destination::Opaque(Bytes::from_slice(alloc, b"opaque")?)),
        To::Short => Ok(Destination::Short(0x8001)),
    }
}

fn destinations(alloc: Global, all: &[To]) -> Result<List<Destination>, NoMemory> {
    let mut list = List::new(alloc);
    for to in all {
        list.push(destination(alloc, *to)?)?;
    }
    Ok(list)
}

fn via(alloc: Global, entries: usize) -> Result<List<Destination>, NoMemory> {
    let mut list = List::new(alloc);
    for _ in 0..entries {
        list.push(Destination::Node(node(0x30)))?;
    }
    Ok(list)
}

fn options(alloc: Global, flags: &[u8]) -> Result<List<ForwardingOption>, NoMemory> {
    let mut list = List::new(alloc);
    for flag in flags {
        list.push(ForwardingOption {
            code: 1,
            flags: *flag,
            value: Bytes::new(alloc),
        })?;
    }
    Ok(list)
}

fn contents(alloc: Global, heard: &Heard<'_>) -> Result<Contents, NoMemory> {
    let body = if heard.is_answer {
        Body::FetchAns {
            kind_responses: List::new(alloc),
        }
    } else {
        Body::Fetch {
            resource: ResourceId(node(0x60).0),
            specifiers: List::new(alloc),
        }
    };
    let mut extensions = List::new(alloc);
    if let Some(size) = heard.extension {
        extensions.push(Extension {
            code: 7,
            critical: heard.critical,
            contents: Bytes::from_vec(vec![in alloc; 0; size]?),
        })?;
    }
    Ok(Contents { body, extensions })
}

fn header(alloc: Global, heard: &Heard<'_>) -> Result<Header, NoMemory> {
    let name: &[u8] = if heard.is_foreign { b"abd" } else { b"abc" };
    Ok(Header {
        overlay: overlay_of(name),
        sequence: 1,
        ttl: heard.ttl,
        length: 0,
        id: 5,
        max_response: 0,
        via: via(alloc, heard.via)?,
        dest: destinations(alloc, heard.dest)?,
        options: options(alloc, heard.flags)?,
    })
}

/// A message without its last byte, whose header says so: its security block isn't one.
fn cut(alloc: Global, message: &[u8]) -> Result<Bytes, NoMemory> {
    let len = message.len().saturating_sub(1);
    let mut bytes = Bytes::from_slice(alloc, message.get(..16).unwrap_or(message))?;
    bytes.extend(&u32::try_from(len).unwrap_or(0).to_be_bytes())?;
    bytes.extend(message.get(20..len).unwrap_or(message))?;
    Ok(bytes)
}

/// A message whose last byte, which its signature ends with, is another.
fn spoilt(mut message: Bytes) -> Result<Bytes, NoMemory> {
    let last = message.pop().unwrap_or(0);
    message.push(!last)?;
    Ok(message)
}

/// The bytes of a message.
pub fn message(alloc: Global, heard: &Heard<'_>) -> Result<Bytes, NoMemory> {
    let signer = StandIn::new(alloc);
    let client = about(alloc, false, node(CLIENT))?;
    let header = header(alloc, heard)?;
    let contents = contents(alloc, heard)?;
    let made = make_message(alloc, &signer, &client, header, &contents)?;
    let message = made.unwrap_or(Bytes::new(alloc));
    if heard.is_cut {
        cut(alloc, message.as_slice())
    } else if heard.is_spoilt {
        spoilt(message)
    } else {
        Ok(message)
    }
}
