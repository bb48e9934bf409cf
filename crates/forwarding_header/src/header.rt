//! The header in front of each message.

ghost use Rattle.std.specs.Prelude.{◌≡◌, ◌↔◌, ◌++◌, length, take, IsTrue, IfOk, OnOk, OnErr};
ghost use Rattle.wire_core.specs.Reading.{Reads, Decodes};
ghost use Rattle.forwarding_header.specs.Header.{fixed, lists, header, IsSpelledHeader, message_length_at, fixed_at, lists_at, header_at};

use crate::destination::Destination;
use crate::forwarding_option::ForwardingOption;
use reload_base::{Bytes, List, NoMemory};
use std::alloc::Global;
use wire_core::{
    Bad, Cursor, DecodeFault, MAX_MESSAGE, Reason, allowed, list_fits, list_len, put_list, put_u8,
    put_u16, put_u32, put_u64, take_filled,
};

/// What opens each message (RFC 6940, section 6.3.2).
pub const TOKEN: u32 = 0xd245_4c4f;

/// Version 1.0 of RELOAD, times ten.
pub const VERSION: u8 = 0x0a;

/// The fragment field of a message that is whole: the last fragment, at offset 0.
pub const WHOLE: u32 = 0xc000_0000;

/// The most bytes that each of the three lists may have (this profile).
pub const MAX_HEADER_LIST: u32 = 4096;

/// The bytes of a header without its lists.
const FIXED: usize = 38;

/// The forwarding header (RFC 6940, section 6.3.2). The token, the version and the fragment field
/// are the same in each message of this profile.
#[derive(Debug, Drop)]
pub struct Header {
    pub overlay: u32,
    /// The configuration that the sender has.
    pub sequence: u16,
    pub ttl: u8,
    /// The bytes of the whole message, this header among them.
    pub length: u32,
    /// The transaction that a request opens and its answer ends.
    pub id: u64,
    /// The most bytes that an answer may have, or 0 for no limit.
    pub max_response: u32,
    pub via: List<Destination>,
    pub dest: List<Destination>,
    pub options: List<ForwardingOption>,
}

/// The whole message's length, which must be `end`.
#[tactic(auto, unfolding(crate::specs::Header::message_length_at))]
fn take_message_length(from: &mut Cursor<'_>, end: u64) -> Result<u32, Bad>
    ensures { Reads result from.new (message_length_at end from.old) }
{
    let place = from.place();
    let len = from.take_limited(4, MAX_MESSAGE)?;
    allowed(u64::from(len) <= end, place, Reason::LengthPast)?;
    allowed(end <= u64::from(len), u64::from(len), Reason::Trailing)?;
    Ok(len)
}

/// The fields of fixed size, with empty lists.
#[tactic(auto, unfolding(crate::specs::Header::fixed_at))]
fn take_fixed(alloc: Global, from: &mut Cursor<'_>, end: u64) -> Result<Header, Bad>
    ensures { Reads result from.new (fixed_at end from.old) }
{
    from.expect(4, TOKEN)?;
    let overlay = from.take_u32()?;
    let sequence = from.take_u16()?;
    from.expect(1, u32::from(VERSION))?;
    let ttl = from.take_u8()?;
    from.expect(4, WHOLE)?;
    let length = take_message_length(from, end)?;
    let id = from.take_u64()?;
    let max_response = from.take_u32()?;
    Ok(Header {
        overlay,
        sequence,
        ttl,
        length,
        id,
        max_response,
        via: List::new(alloc),
        dest: List::new(alloc),
        options: List::new(alloc),
    })
}

/// The three lists of a header whose other fields were read.
#[tactic(auto, unfolding(crate::specs::Header::lists_at))]
fn take_lists(alloc: Global, from: &mut Cursor<'_>, fixed: Header) -> Result<Header, DecodeFault>
    ensures { Decodes result from.new (lists_at fixed from.old) }
{
    let via_place = from.place();
    let via_length = from.take_limited(2, MAX_HEADER_LIST)?;
    let dest_place = from.place();
    let dest_length = from.take_limited(2, MAX_HEADER_LIST)?;
    let options_place = from.place();
    let options_length = from.take_limited(2, MAX_HEADER_LIST)?;
    let via = take_filled(alloc, from, via_place, via_length)?;
    let dest = take_filled(alloc, from, dest_place, dest_length)?;
    let options = take_filled(alloc, from, options_place, options_length)?;
    Ok(Header {
        via,
        dest,
        options,
        ..fixed
    })
}

#[tactic(auto, unfolding(crate::specs::Header::header_at))]
pub(crate) fn take_header(
    alloc: Global,
    from: &mut Cursor<'_>,
    end: u64,
) -> Result<Header, DecodeFault>
    ensures { Decodes result from.new (header_at end from.old) }
{
    let fixed = take_fixed(alloc, from, end)?;
    take_lists(alloc, from, fixed)
}

/// Whether a header has a spelling: each of its lists spells at most `MAX_HEADER_LIST` bytes, each
/// entry fits its length, and each short destination has its top bit set.
pub fn fits(h: &Header) -> bool
    ensures { IsTrue result ↔ IsSpelledHeader h.now }
{
    list_fits(&h.via)
        && list_fits(&h.dest)
        && list_fits(&h.options)
        && list_len(&h.via) <= u64::from(MAX_HEADER_LIST)
        && list_len(&h.dest) <= u64::from(MAX_HEADER_LIST)
        && list_len(&h.options) <= u64::from(MAX_HEADER_LIST)
}

#[tactic(auto, using(wire_core::proofs::Puts::fronts), unfolding(crate::specs::Header::fixed))]
fn put_fixed(out: &mut Bytes, h: &Header) -> Result<(), NoMemory>
    ensures ok { OnOk result (out.new ≡ out.old ++ fixed h.now) }
    ensures err { OnErr result (take (length out.old) out.new ≡ out.old) }
{
    put_u32(out, TOKEN)?;
    put_u32(out, h.overlay)?;
    put_u16(out, h.sequence)?;
    put_u8(out, VERSION)?;
    put_u8(out, h.ttl)?;
    put_u32(out, WHOLE)?;
    put_u32(out, h.length)?;
    put_u64(out, h.id)?;
    put_u32(out, h.max_response)
}

#[tactic(auto, using(wire_core::proofs::Puts::fronts), unfolding(crate::specs::Header::lists))]
fn put_lists(out: &mut Bytes, h: &Header) -> Result<(), NoMemory>
    requires { IsSpelledHeader h.now }
    ensures ok { OnOk result (out.new ≡ out.old ++ lists h.now) }
    ensures err { OnErr result (take (length out.old) out.new ≡ out.old) }
{
    put_u16(out, list_len(&h.via) as u16)?;
    put_u16(out, list_len(&h.dest) as u16)?;
    put_u16(out, list_len(&h.options) as u16)?;
    put_list(out, &h.via)?;
    put_list(out, &h.dest)?;
    put_list(out, &h.options)
}

/// The number of bytes of a header.
#[tactic(auto, using(wire_core::proofs::Puts::lengths), unfolding(crate::specs::Header::fixed, crate::specs::Header::lists))]
fn len(h: &Header) -> usize
    requires { IsSpelledHeader h.now }
    ensures { result ≡ length (header h.now) }
{
    FIXED + (list_len(&h.via) + list_len(&h.dest) + list_len(&h.options)) as usize
}

/// Adds the one spelling of a header. After `NoMemory` the bytes still begin with what was there.
#[tactic(auto, using(wire_core::proofs::Puts::fronts))]
pub fn put_header(out: &mut Bytes, h: &Header) -> Result<(), NoMemory>
    requires { IsSpelledHeader h.now }
    ensures ok { OnOk result (out.new ≡ out.old ++ header h.now) }
    ensures err { OnErr result (take (length out.old) out.new ≡ out.old) }
{
    put_fixed(out, h)?;
    put_lists(out, h)
}

/// The one spelling of a header.
pub fn encode_header(alloc: Global, h: &Header) -> Result<Bytes, NoMemory>
    requires { IsSpelledHeader h.now }
    ensures { IfOk result (λ bytes. bytes ≡ header h.now) }
{
    let mut out = Bytes::new(alloc);
    out.reserve(len(h))?;
    put_header(&mut out, h)?;
    Ok(out)
}
