//! The block that ends each message.

ghost use Rattle.std.specs.Prelude.{◌≡◌, ◌≤◌, ◌++◌, ℕ, List, IfOk, Ok, Err};
ghost use Rattle.wire_core.specs.declared.bad.Bad.{Bad};
ghost use Rattle.wire_core.specs.declared.bad.DecodeFault.TheVariants as faults;
ghost use Rattle.wire_core.specs.Part.{end_of};
ghost use Rattle.wire_core.specs.Layout.{Follows, behind_text};
ghost use Rattle.wire_core.specs.Reading.{Decodes};
ghost use Rattle.security_block.specs.declared.block.SecurityBlock.{SecurityBlock};
ghost use Rattle.security_block.specs.Block.{block, block_at, IsSpelledBlock, IsBlockInRange};
ghost use Rattle.security_block.specs.Laws.Blocks.{block_laid, block-some};

use crate::certificate::Certificate;
use reload_base::{Bytes, List, NoMemory};
use std::alloc::Global;
use wire_core::{
    Cursor, DecodeFault, Layout, Signature, Spell, decode, encode, list_fits, list_len, put_vector,
    take_vector,
};

/// The security block of a message (RFC 6940, section 6.3.4).
#[derive(Debug, Drop)]
pub struct SecurityBlock {
    /// At most 65,535 bytes in all. A message of this profile carries one, its sender's.
    pub certificates: List<Certificate>,
    /// Over the overlay, the transaction, the contents and the signer's identity.
    pub signature: Signature,
}

impl Spell for SecurityBlock {
    ghost spelling = { block };

    ghost is_spelled = { IsSpelledBlock };

    fn fits(&self) -> bool {
        list_fits(&self.certificates)
            && list_len(&self.certificates) < 0x1_0000
            && self.signature.fits()
    }

    #[tactic(auto, using(wire_core::proofs::Puts::lengths), unfolding(crate::specs::Block::block))]
    fn len(&self) -> u64 {
        list_len(&self.certificates)
            .saturating_add(self.signature.len())
            .saturating_add(2)
    }

    #[tactic(auto, using(wire_core::proofs::Puts::fronts), unfolding(crate::specs::Block::block))]
    fn put(&self, out: &mut Bytes) -> Result<(), NoMemory> {
        put_vector(out, 2, &self.certificates)?;
        self.signature.put(out)
    }

    ghost has_a_byte = { λ b _. block-some b };
}

impl Layout for SecurityBlock {
    ghost in_range = { IsBlockInRange };

    ghost reading = { block_at };

    #[tactic(auto, unfolding(crate::specs::Block::block_at))]
    fn take(alloc: Global, from: &mut Cursor<'_>) -> Result<SecurityBlock, DecodeFault> {
        let certificates = take_vector(alloc, from, 2)?;
        let signature = Signature::take(alloc, from)?;
        Ok(SecurityBlock {
            certificates,
            signature,
        })
    }

    ghost is_layout = { block_laid };
}

/// Takes a security block from the front of a part. After a refusal the place of the cursor is
/// open.
pub fn decode_block(alloc: Global, c: &mut Cursor<'_>) -> Result<SecurityBlock, DecodeFault>
    // What is read is spelled so.
    ensures found { IfOk result (λ b. (IsSpelledBlock b × IsBlockInRange b)
        × Follows c.old (block b) c.new) }
    // What is spelled so is read, unless memory runs out.
    ensures only { (b : SecurityBlock) (rest : List ℕ) → IsSpelledBlock b → IsBlockInRange b
        → c.old.bytes ≡ block b ++ rest
        → Decodes result c.new (Ok (b, behind_text (block b) rest c.old)) }
    // Which block or fault it is.
    ensures exact { Decodes result c.new (block_at c.old) }
    // A fault lies in the part, or at its end.
    ensures within { (bad : Bad) → result ≡ Err (faults.Bad bad) → bad.place ≤ end_of c.old }
{
    decode(alloc, c)
}

/// The one spelling of a security block. `SecurityBlock::fits` says whether it has one.
pub fn encode_block(alloc: Global, b: &SecurityBlock) -> Result<Bytes, NoMemory>
    requires { IsSpelledBlock b.now }
    ensures { IfOk result (λ bytes. bytes ≡ block b.now) }
{
    encode(alloc, b)
}
