//! A structure that fills a part of its own, behind its length.

ghost use Rattle.std.specs.Prelude.{◌≡◌, ◌^◌, ◌<◌, ◌≤◌, ◌++◌, length, take, OnOk, OnErr};
ghost use Rattle.wire_core.specs.Spelling.{vector};
ghost use Rattle.wire_core.specs.Reading.{Decodes, vector_at, sized_at};

use crate::bad::DecodeFault;
use crate::cursor::Cursor;
use crate::layout::{Layout, Spell};
use crate::put::put_length;
use reload_base::{Bytes, NoMemory};
use std::alloc::Global;

/// Takes a structure that fills a vector, whose length stands in `width` bytes.
#[tactic(auto, unfolding(crate::specs::Reading::vector_at))]
pub fn take_inner<T: Layout>(
    alloc: Global,
    from: &mut Cursor<'_>,
    width: u8,
) -> Result<T, DecodeFault>
    requires low { 1 ≤ width }
    requires high { width ≤ 4 }
    ensures { Decodes result from.new (vector_at width T.reading from.old) }
{
    let mut part = from.take_part(width)?;
    let value = T::take(alloc, &mut part)?;
    part.finish()?;
    Ok(value)
}

/// The same, where any length other than `size` is refused as a bad value.
#[tactic(auto, unfolding(crate::specs::Reading::sized_at))]
pub fn take_sized<T: Layout>(
    alloc: Global,
    from: &mut Cursor<'_>,
    width: u8,
    size: u32,
) -> Result<T, DecodeFault>
    requires low { 1 ≤ width }
    requires high { width ≤ 4 }
    ensures { Decodes result from.new (sized_at width size T.reading from.old) }
{
    let mut part = from.take_sized_part(width, size)?;
    let value = T::take(alloc, &mut part)?;
    part.finish()?;
    Ok(value)
}

/// Adds a vector that a structure fills. After `NoMemory` the bytes still begin with what was
/// there.
#[tactic(auto, using(crate::proofs::Puts::fronts))]
pub fn put_inner<T: Spell>(out: &mut Bytes, width: u8, value: &T) -> Result<(), NoMemory>
    requires low { 1 ≤ width }
    requires high { width ≤ 4 }
    requires each { T.is_spelled value.now }
    requires fits { length (T.spelling value.now) < 256 ^ width }
    ensures ok { OnOk result (out.new ≡ out.old ++ vector width (T.spelling value.now)) }
    ensures err { OnErr result (take (length out.old) out.new ≡ out.old) }
{
    put_length(out, width, value.len())?;
    value.put(out)
}
