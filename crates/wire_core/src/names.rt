//! Vectors of bytes, alone and in lists.

ghost use Rattle.std.specs.Prelude.{◌≡◌, ◌^◌, ◌<◌, ◌≤◌, length};
ghost use Rattle.wire_core.specs.Spelling.{AreBytes, vector};
ghost use Rattle.wire_core.specs.Reading.{Decodes, vector_at, rest_at};
ghost use Rattle.wire_core.specs.Laws.Words.{bytes_are_layout, bytes-some};

use crate::bad::DecodeFault;
use crate::cursor::Cursor;
use crate::layout::{Layout, Spell};
use crate::put::put_bytes;
use reload_base::{Bytes, NoMemory};
use std::alloc::Global;

/// Takes all bytes that are left of a part.
pub fn take_rest(alloc: Global, from: &mut Cursor<'_>) -> Result<Bytes, DecodeFault>
    ensures { Decodes result from.new (rest_at from.old) }
{
    Ok(Bytes::from_slice(alloc, from.rest())?)
}

/// Takes a vector of bytes, whose length stands in `width` bytes.
#[tactic(auto, unfolding(crate::specs::Reading::vector_at, crate::specs::Reading::allowed))]
pub fn take_bytes(alloc: Global, from: &mut Cursor<'_>, width: u8) -> Result<Bytes, DecodeFault>
    requires low { 1 ≤ width }
    requires high { width ≤ 4 }
    ensures { Decodes result from.new (vector_at width rest_at from.old) }
{
    let mut part = from.take_part(width)?;
    Ok(Bytes::from_slice(alloc, part.rest())?)
}

/// Bytes within a list are a vector whose length stands in two bytes, as names and opaque keys do.
impl Spell for Bytes {
    ghost spelling = { vector 2 };

    ghost is_spelled = { λ bytes. length bytes < 2 ^ 16 };

    fn fits(&self) -> bool {
        self.len() < 0x1_0000
    }

    #[tactic(auto, using(crate::proofs::Puts::lengths))]
    fn len(&self) -> u64 {
        (self.as_slice().len() as u64).saturating_add(2)
    }

    #[tactic(auto, using(crate::proofs::Puts::fronts))]
    fn put(&self, out: &mut Bytes) -> Result<(), NoMemory> {
        put_bytes(out, 2, self.as_slice())
    }

    ghost has_a_byte = { λ bytes _. bytes-some bytes };
}

impl Layout for Bytes {
    ghost in_range = { λ bytes. AreBytes bytes };

    ghost reading = { vector_at 2 rest_at };

    fn take(alloc: Global, from: &mut Cursor<'_>) -> Result<Bytes, DecodeFault> {
        take_bytes(alloc, from, 2)
    }

    ghost is_layout = { bytes_are_layout };
}
