//! Numbers as structures of their own, and pairs of structures, for lists of them.

ghost use Rattle.std.specs.Prelude.{◌^◌, ◌<◌, ◌++◌};
ghost use Rattle.wire_core.specs.Spelling.{number};
ghost use Rattle.wire_core.specs.Reading.{number_at, pair_at};
ghost use Rattle.wire_core.specs.Laws.Words.{number_is_layout, number-some};
ghost use Rattle.wire_core.specs.Laws.Steps.{pair_is_layout, pair-some};

use crate::bad::DecodeFault;
use crate::cursor::Cursor;
use crate::layout::{Layout, Spell};
use crate::put::{put_u8, put_u16, put_u32, put_u64};
use reload_base::{Bytes, NoMemory};
use std::alloc::Global;

impl Spell for u8 {
    ghost spelling = { number 1 };

    ghost is_spelled = { λ _. Unit {0} };

    fn fits(&self) -> bool {
        true
    }

    #[tactic(auto, using(crate::proofs::Puts::lengths))]
    fn len(&self) -> u64 {
        1
    }

    #[tactic(auto, using(crate::proofs::Puts::fronts))]
    fn put(&self, out: &mut Bytes) -> Result<(), NoMemory> {
        put_u8(out, *self)
    }

    ghost has_a_byte = { λ x _. number-some 0 x };
}

impl Layout for u8 {
    ghost in_range = { λ x. x < 256 ^ 1 };

    ghost reading = { number_at 1 };

    fn take(_alloc: Global, from: &mut Cursor<'_>) -> Result<u8, DecodeFault> {
        Ok(from.take_u8()?)
    }

    ghost is_layout = { number_is_layout 1 };
}

impl Spell for u16 {
    ghost spelling = { number 2 };

    ghost is_spelled = { λ _. Unit {0} };

    fn fits(&self) -> bool {
        true
    }

    #[tactic(auto, using(crate::proofs::Puts::lengths))]
    fn len(&self) -> u64 {
        2
    }

    #[tactic(auto, using(crate::proofs::Puts::fronts))]
    fn put(&self, out: &mut Bytes) -> Result<(), NoMemory> {
        put_u16(out, *self)
    }

    ghost has_a_byte = { λ x _. number-some 1 x };
}

impl Layout for u16 {
    ghost in_range = { λ x. x < 256 ^ 2 };

    ghost reading = { number_at 2 };

    fn take(_alloc: Global, from: &mut Cursor<'_>) -> Result<u16, DecodeFault> {
        Ok(from.take_u16()?)
    }

    ghost is_layout = { number_is_layout 2 };
}

impl Spell for u32 {
    ghost spelling = { number 4 };

    ghost is_spelled = { λ _. Unit {0} };

    fn fits(&self) -> bool {
        true
    }

    #[tactic(auto, using(crate::proofs::Puts::lengths))]
    fn len(&self) -> u64 {
        4
    }

    #[tactic(auto, using(crate::proofs::Puts::fronts))]
    fn put(&self, out: &mut Bytes) -> Result<(), NoMemory> {
        put_u32(out, *self)
    }

    ghost has_a_byte = { λ x _. number-some 3 x };
}

impl Layout for u32 {
    ghost in_range = { λ x. x < 256 ^ 4 };

    ghost reading = { number_at 4 };

    fn take(_alloc: Global, from: &mut Cursor<'_>) -> Result<u32, DecodeFault> {
        Ok(from.take_u32()?)
    }

    ghost is_layout = { number_is_layout 4 };
}

impl Spell for u64 {
    ghost spelling = { number 8 };

    ghost is_spelled = { λ _. Unit {0} };

    fn fits(&self) -> bool {
        true
    }

    #[tactic(auto, using(crate::proofs::Puts::lengths))]
    fn len(&self) -> u64 {
        8
    }

    #[tactic(auto, using(crate::proofs::Puts::fronts))]
    fn put(&self, out: &mut Bytes) -> Result<(), NoMemory> {
        put_u64(out, *self)
    }

    ghost has_a_byte = { λ x _. number-some 7 x };
}

impl Layout for u64 {
    ghost in_range = { λ x. x < 256 ^ 8 };

    ghost reading = { number_at 8 };

    fn take(_alloc: Global, from: &mut Cursor<'_>) -> Result<u64, DecodeFault> {
        Ok(from.take_u64()?)
    }

    ghost is_layout = { number_is_layout 8 };
}

impl<A: Spell, B: Spell> Spell for (A, B) {
    ghost spelling = { λ x. A.spelling x.0 ++ B.spelling x.1 };

    ghost is_spelled = { λ x. A.is_spelled x.0 × B.is_spelled x.1 };

    fn fits(&self) -> bool {
        self.0.fits() && self.1.fits()
    }

    #[tactic(auto, using(crate::proofs::Puts::lengths))]
    fn len(&self) -> u64 {
        self.0.len().saturating_add(self.1.len())
    }

    #[tactic(auto, using(crate::proofs::Puts::fronts))]
    fn put(&self, out: &mut Bytes) -> Result<(), NoMemory> {
        self.0.put(out)?;
        self.1.put(out)
    }

    ghost has_a_byte = { λ x f. pair-some (A.spelling x.0) (B.spelling x.1)
        (A.has_a_byte x.0 f.0) };
}

impl<A: Layout, B: Layout> Layout for (A, B) {
    ghost in_range = { λ x. A.in_range x.0 × B.in_range x.1 };

    ghost reading = { pair_at A.reading B.reading };

    #[tactic(auto, unfolding(crate::specs::Reading::pair_at))]
    fn take(alloc: Global, from: &mut Cursor<'_>) -> Result<(A, B), DecodeFault> {
        let first = A::take(alloc, from)?;
        let second = B::take(alloc, from)?;
        Ok((first, second))
    }

    ghost is_layout = { pair_is_layout A.is_layout B.is_layout };
}
