//! Certificates as a message holds them.

ghost use Rattle.security_block.specs.Block.{certificate, certificate_at, IsSpelledCertificate, IsCertificateInRange};
ghost use Rattle.security_block.specs.Laws.Blocks.{certificate_laid, certificate-some};

use reload_base::{Bytes, NoMemory, TryCopy};
use std::alloc::Global;
use wire_core::{Cursor, DecodeFault, Layout, Spell, put_bytes, put_u8, take_bytes};

/// A certificate (RFC 6940, section 6.3.4). What its bytes say depends on its code, and is left to
/// a signer.
#[derive(Debug, Drop)]
pub struct Certificate {
    /// The number of its type.
    pub code: u8,
    /// At most 65,535 bytes.
    pub body: Bytes,
}

impl TryCopy for Certificate {
    fn copy(&self, alloc: Global) -> Result<Certificate, NoMemory> {
        Ok(Certificate {
            code: self.code,
            body: self.body.copy(alloc)?,
        })
    }
}

impl Spell for Certificate {
    ghost spelling = { certificate };

    ghost is_spelled = { IsSpelledCertificate };

    fn fits(&self) -> bool {
        self.body.len() < 0x1_0000
    }

    #[tactic(auto, using(wire_core::proofs::Puts::lengths), unfolding(crate::specs::Block::certificate))]
    fn len(&self) -> u64 {
        (self.body.len() as u64).saturating_add(3)
    }

    #[tactic(auto, using(wire_core::proofs::Puts::fronts), unfolding(crate::specs::Block::certificate))]
    fn put(&self, out: &mut Bytes) -> Result<(), NoMemory> {
        put_u8(out, self.code)?;
        put_bytes(out, 2, self.body.as_slice())
    }

    ghost has_a_byte = { λ c _. certificate-some c };
}

impl Layout for Certificate {
    ghost in_range = { IsCertificateInRange };

    ghost reading = { certificate_at };

    #[tactic(auto, unfolding(crate::specs::Block::certificate_at))]
    fn take(alloc: Global, from: &mut Cursor<'_>) -> Result<Certificate, DecodeFault> {
        let code = from.take_u8()?;
        let body = take_bytes(alloc, from, 2)?;
        Ok(Certificate { code, body })
    }

    ghost is_layout = { certificate_laid };
}
