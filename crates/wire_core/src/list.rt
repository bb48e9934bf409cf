//! Lists of structures, and vectors of them (RFC 6940, section 6.3.1.1).

ghost use Rattle.std.specs.Prelude.{◌≡◌, ◌-◌, ◌^◌, ◌<◌, ◌≤◌, ◌↔◌, ◌++◌, length, min, take, All, IsTrue, OnOk, OnErr};
ghost use Rattle.std.specs.List.{flat_map};
ghost use Rattle.wire_core.specs.Spelling.{vector};
ghost use Rattle.wire_core.specs.Reading.{Decodes, list_at, filled_at, vector_at};

use crate::bad::DecodeFault;
use crate::cursor::Cursor;
use crate::layout::{Decoder, Layout, Plain, Spell};
use crate::put::put_length;
use reload_base::{Bytes, List, NoMemory};
use std::alloc::Global;

/// Takes the structures that a part is full of, by a decoder. Each has a byte at least, so there
/// are no more of them than bytes.
#[tactic(auto, unfolding(crate::specs::Reading::list_at))]
pub fn take_list_by<T: Spell, D: Decoder<T>>(
    alloc: Global,
    decoder: &D,
    from: &mut Cursor<'_>,
) -> Result<List<T>, DecodeFault>
    ensures { Decodes result from.new (list_at (D.reading decoder.now) from.old) }
{
    let mut list = List::new(alloc);
    'entries: for _ in 0..from.len() {
        if from.is_empty() {
            break;
        }
        list.push(decoder.take(alloc, from)?)?;
    }
    Ok(list)
}

/// Takes the structures that a part is full of.
pub fn take_list<T: Layout>(alloc: Global, from: &mut Cursor<'_>) -> Result<List<T>, DecodeFault>
    ensures { Decodes result from.new (list_at T.reading from.old) }
{
    take_list_by(alloc, &Plain, from)
}

/// Takes the structures that the next `len` bytes are full of. Their length stands at `place`,
/// where it is refused if fewer bytes are left.
#[tactic(auto, unfolding(crate::specs::Reading::filled_at))]
pub fn take_filled<T: Layout>(
    alloc: Global,
    from: &mut Cursor<'_>,
    place: u64,
    len: u32,
) -> Result<List<T>, DecodeFault>
    ensures { Decodes result from.new (filled_at place len (list_at T.reading) from.old) }
{
    let mut part = from.take_stretch(place, len)?;
    let list = take_list(alloc, &mut part)?;
    part.finish()?;
    Ok(list)
}

/// Takes a vector of structures by a decoder. Its length stands in `width` bytes.
#[tactic(auto, unfolding(crate::specs::Reading::vector_at))]
pub fn take_vector_by<T: Spell, D: Decoder<T>>(
    alloc: Global,
    decoder: &D,
    from: &mut Cursor<'_>,
    width: u8,
) -> Result<List<T>, DecodeFault>
    requires low { 1 ≤ width }
    requires high { width ≤ 4 }
    ensures { Decodes result from.new (vector_at width (list_at (D.reading decoder.now)) from.old) }
{
    let mut part = from.take_part(width)?;
    let list = take_list_by(alloc, decoder, &mut part)?;
    part.finish()?;
    Ok(list)
}

/// Takes a vector of structures, whose length stands in `width` bytes.
pub fn take_vector<T: Layout>(
    alloc: Global,
    from: &mut Cursor<'_>,
    width: u8,
) -> Result<List<T>, DecodeFault>
    requires low { 1 ≤ width }
    requires high { width ≤ 4 }
    ensures { Decodes result from.new (vector_at width (list_at T.reading) from.old) }
{
    take_vector_by(alloc, &Plain, from, width)
}

/// Whether each structure of a list has a spelling.
pub fn list_fits<T: Spell>(list: &List<T>) -> bool
    ensures { IsTrue result ↔ All T.is_spelled list.now }
{
    list.as_slice().iter().all(|entry| entry.fits())
}

/// The number of bytes that a list spells, or `u64::MAX` where there are more.
pub fn list_len<T: Spell>(list: &List<T>) -> u64
    ensures { result ≡ min (length (flat_map T.spelling list.now)) (2 ^ 64 - 1) }
{
    let mut len = 0u64;
    for entry in list.as_slice() {
        len = len.saturating_add(entry.len());
    }
    len
}

/// Adds the spellings of a list, one after the other. After `NoMemory` the bytes still begin with
/// what was there.
pub fn put_list<T: Spell>(out: &mut Bytes, list: &List<T>) -> Result<(), NoMemory>
    requires { All T.is_spelled list.now }
    ensures ok { OnOk result (out.new ≡ out.old ++ flat_map T.spelling list.now) }
    ensures err { OnErr result (take (length out.old) out.new ≡ out.old) }
{
    for entry in list.as_slice() {
        entry.put(out)?;
    }
    Ok(())
}

/// Adds a vector of structures, whose length stands in `width` bytes. After `NoMemory` the bytes
/// still begin with what was there.
pub fn put_vector<T: Spell>(out: &mut Bytes, width: u8, list: &List<T>) -> Result<(), NoMemory>
    requires low { 1 ≤ width }
    requires high { width ≤ 4 }
    requires each { All T.is_spelled list.now }
    requires fits { length (flat_map T.spelling list.now) < 256 ^ width }
    ensures ok { OnOk result (out.new ≡ out.old ++ vector width (flat_map T.spelling list.now)) }
    ensures err { OnErr result (take (length out.old) out.new ≡ out.old) }
{
    put_length(out, width, list_len(list))?;
    put_list(out, list)
}
