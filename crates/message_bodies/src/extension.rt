//! What a message says beside its body.

ghost use Rattle.message_bodies.specs.Extensions.{extension, extension_at, IsSpelledExtension, IsExtensionInRange};
ghost use Rattle.message_bodies.specs.Laws.Extensions.{extension_laid, extension-some};

use reload_base::{Bytes, NoMemory};
use std::alloc::Global;
use wire_core::{Cursor, DecodeFault, Layout, Spell, put_boolean, put_bytes, put_u16, take_bytes};

/// An extension of a message (RFC 6940, section 6.3.3). Each is kept as it stands, whatever its
/// code.
#[derive(Debug, Drop)]
pub struct Extension {
    /// The number of its type.
    pub code: u16,
    /// Whether a request with it is refused by who doesn't know it.
    pub critical: bool,
    /// Fewer than 2^32 bytes.
    pub contents: Bytes,
}

impl Spell for Extension {
    ghost spelling = { extension };

    ghost is_spelled = { IsSpelledExtension };

    fn fits(&self) -> bool {
        self.contents.as_slice().len() < 0x1_0000_0000
    }

    #[tactic(auto, using(wire_core::proofs::Puts::lengths), unfolding(crate::specs::Extensions::extension))]
    fn len(&self) -> u64 {
        (self.contents.as_slice().len() as u64).saturating_add(7)
    }

    #[tactic(auto, using(wire_core::proofs::Puts::fronts), unfolding(crate::specs::Extensions::extension))]
    fn put(&self, out: &mut Bytes) -> Result<(), NoMemory> {
        put_u16(out, self.code)?;
        put_boolean(out, self.critical)?;
        put_bytes(out, 4, self.contents.as_slice())
    }

    ghost has_a_byte = { λ e _. extension-some e };
}

impl Layout for Extension {
    ghost in_range = { IsExtensionInRange };

    ghost reading = { extension_at };

    #[tactic(auto, unfolding(crate::specs::Extensions::extension_at))]
    fn take(alloc: Global, from: &mut Cursor<'_>) -> Result<Extension, DecodeFault> {
        let code = from.take_u16()?;
        let critical = from.take_boolean()?;
        let contents = take_bytes(alloc, from, 4)?;
        Ok(Extension {
            code,
            critical,
            contents,
        })
    }

    ghost is_layout = { extension_laid };
}
