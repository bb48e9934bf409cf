//! Options that nodes on the way look at.

ghost use Rattle.std.specs.Prelude.{◌≡◌, ◌↔◌, ◌-◌, ◌^◌, ◌≤◌, ◌++◌, IsTrue, OnOk, OnErr, length, min, take};
ghost use Rattle.wire_core.specs.Reading.{Decodes};
ghost use Rattle.forwarding_header.specs.Options.{option, option_at, IsSpelledOption, IsOptionInRange};
ghost use Rattle.forwarding_header.specs.Laws.Options.{option_laid, option-some};

use reload_base::{Bytes, NoMemory, TryCopy};
use std::alloc::Global;
use wire_core::{Cursor, DecodeFault, Layout, Spell, put_bytes, put_u8, take_bytes};

/// The flag of an option that who forwards a request must know (RFC 6940, section 6.3.2.3; the numbers
/// of the three flags, this profile).
pub const FORWARD_CRITICAL: u8 = 0x01;

/// The flag of an option that the destination of a request must know.
pub const DESTINATION_CRITICAL: u8 = 0x02;

/// The flag of an option that the answer to its request has too.
pub const RESPONSE_COPY: u8 = 0x04;

/// All flags but those three.
pub const OTHER_FLAGS: u8 = 0xf8;

/// An option of a header (RFC 6940, section 6.3.2.3). No code is known here, so each is kept as it
/// stands.
#[derive(Debug, Drop)]
pub struct ForwardingOption {
    pub code: u8,
    pub flags: u8,
    /// At most 65,535 bytes.
    pub value: Bytes,
}

impl TryCopy for ForwardingOption {
    fn copy(&self, alloc: Global) -> Result<ForwardingOption, NoMemory> {
        Ok(ForwardingOption {
            code: self.code,
            flags: self.flags,
            value: self.value.copy(alloc)?,
        })
    }
}

impl Spell for ForwardingOption {
    ghost spelling = { option };

    ghost is_spelled = { IsSpelledOption };

    fn fits(&self) -> bool {
        self.value.len() < 0x1_0000
    }

    #[tactic(auto, using(wire_core::proofs::Puts::lengths), unfolding(crate::specs::Options::option))]
    fn len(&self) -> u64 {
        (self.value.len() as u64).saturating_add(4)
    }

    #[tactic(auto, using(wire_core::proofs::Puts::fronts), unfolding(crate::specs::Options::option))]
    fn put(&self, out: &mut Bytes) -> Result<(), NoMemory> {
        put_u8(out, self.code)?;
        put_u8(out, self.flags)?;
        put_bytes(out, 2, self.value.as_slice())
    }

    ghost has_a_byte = { λ o _. option-some o };
}

impl Layout for ForwardingOption {
    ghost in_range = { IsOptionInRange };

    ghost reading = { option_at };

    #[tactic(auto, unfolding(crate::specs::Options::option_at))]
    fn take(alloc: Global, from: &mut Cursor<'_>) -> Result<ForwardingOption, DecodeFault> {
        let code = from.take_u8()?;
        let flags = from.take_u8()?;
        let value = take_bytes(alloc, from, 2)?;
        Ok(ForwardingOption { code, flags, value })
    }

    ghost is_layout = { option_laid };
}
