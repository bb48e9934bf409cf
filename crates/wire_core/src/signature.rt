//! Signatures, and who made them.

ghost use Rattle.std.specs.Prelude.{◌≡◌, ◌≤◌, ◌+◌, ◌^◌, ◌<◌, ◌++◌, ℕ, List, IfOk, OnOk, OnErr, Ok, Err, length, take};
ghost use Rattle.wire_core.specs.declared.signature.Signature.{Signature};
ghost use Rattle.wire_core.specs.declared.bad.Bad.{Bad};
ghost use Rattle.wire_core.specs.declared.bad.DecodeFault.TheVariants as faults;
ghost use Rattle.wire_core.specs.Part.{end_of};
ghost use Rattle.wire_core.specs.Layout.{Follows, behind_text};
ghost use Rattle.wire_core.specs.Reading.{Reads, Decodes, vector_at};
ghost use Rattle.wire_core.specs.Spelling.{number};
ghost use Rattle.wire_core.specs.Signature.{identity, signature, hash_part, IsSpelledIdentity, IsSpelledSignature, IsIdentityInRange, IsSignatureInRange, hash_at, cert_hash_at, cert_hash_node_id_at, no_identity_at, identity_at, signature_at};
ghost use Rattle.wire_core.specs.Laws.Signatures.{identity_laid, identity-some, signature_laid, signature-some};

use crate::bad::{Bad, DecodeFault, Reason};
use crate::cursor::Cursor;
use crate::layout::{Layout, Spell, decode, put_whole};
use crate::names::take_bytes;
use crate::put::{put_bytes, put_u8, put_u16};
use reload_base::{Bytes, NoMemory, TryCopy};
use std::alloc::Global;

/// Who made a signature (RFC 6940, section 6.3.4).
#[derive(Debug, Drop)]
pub enum SignerIdentity {
    /// The hash of the signer's certificate, at most 255 bytes.
    CertHash { alg: u8, hash: Bytes },
    /// The hash of the signer's certificate and Node-ID, at most 255 bytes.
    CertHashNodeId { alg: u8, hash: Bytes },
    /// Nobody.
    None,
}

/// A signature (RFC 6940, section 6.3.4).
#[derive(Debug, Drop)]
pub struct Signature {
    /// The number of the hash algorithm.
    pub hash: u8,
    /// The number of the signature algorithm.
    pub algorithm: u8,
    pub identity: SignerIdentity,
    /// At most 65,535 bytes.
    pub value: Bytes,
}

impl TryCopy for SignerIdentity {
    fn copy(&self, alloc: Global) -> Result<SignerIdentity, NoMemory> {
        match self {
            SignerIdentity::CertHash { alg, hash } => Ok(SignerIdentity::CertHash {
                alg: *alg,
                hash: hash.copy(alloc)?,
            }),
            SignerIdentity::CertHashNodeId { alg, hash } => Ok(SignerIdentity::CertHashNodeId {
                alg: *alg,
                hash: hash.copy(alloc)?,
            }),
            SignerIdentity::None => Ok(SignerIdentity::None),
        }
    }
}

impl TryCopy for Signature {
    fn copy(&self, alloc: Global) -> Result<Signature, NoMemory> {
        Ok(Signature {
            hash: self.hash,
            algorithm: self.algorithm,
            identity: self.identity.copy(alloc)?,
            value: self.value.copy(alloc)?,
        })
    }
}

impl Spell for SignerIdentity {
    ghost spelling = { identity };

    ghost is_spelled = { IsSpelledIdentity };

    fn fits(&self) -> bool {
        match self {
            SignerIdentity::CertHash { hash, .. } | SignerIdentity::CertHashNodeId { hash, .. } => {
                hash.len() < 0x100
            }
            SignerIdentity::None => true,
        }
    }

    #[tactic(auto, using(crate::proofs::Puts::lengths), unfolding(crate::specs::Signature::identity))]
    fn len(&self) -> u64 {
        match self {
            SignerIdentity::CertHash { hash, .. } | SignerIdentity::CertHashNodeId { hash, .. } => {
                (hash.len() as u64).saturating_add(5)
            }
            SignerIdentity::None => 3,
        }
    }

    #[tactic(auto, using(crate::proofs::Puts::fronts), unfolding(crate::specs::Signature::identity))]
    fn put(&self, out: &mut Bytes) -> Result<(), NoMemory> {
        match self {
            SignerIdentity::CertHash { alg, hash } => put_hash(out, 1, *alg, hash.as_slice()),
            SignerIdentity::CertHashNodeId { alg, hash } => put_hash(out, 2, *alg, hash.as_slice()),
            SignerIdentity::None => put_no_identity(out),
        }
    }

    ghost has_a_byte = { λ s _. identity-some s };
}

impl Layout for SignerIdentity {
    ghost in_range = { IsIdentityInRange };

    ghost reading = { identity_at };

    #[tactic(auto, unfolding(crate::specs::Signature::identity_at, crate::specs::Signature::identity_of))]
    fn take(alloc: Global, from: &mut Cursor<'_>) -> Result<SignerIdentity, DecodeFault> {
        let place = from.place();
        let code = from.take_u8()?;
        match code {
            1 => take_cert_hash(alloc, from),
            2 => take_cert_hash_node_id(alloc, from),
            3 => Ok(take_no_identity(from)?),
            _ => Err(DecodeFault::Bad(Bad {
                place,
                reason: Reason::BadValue,
            })),
        }
    }

    ghost is_layout = { identity_laid };
}

/// A hash and its algorithm, in a part of their own.
#[tactic(auto, unfolding(crate::specs::Signature::hash_at, crate::specs::Reading::vector_at))]
fn take_hash(alloc: Global, from: &mut Cursor<'_>) -> Result<(u8, Bytes), DecodeFault>
    ensures { Decodes result from.new (vector_at 2 hash_at from.old) }
{
    let mut part = from.take_part(2)?;
    let alg = part.take_u8()?;
    let hash = take_bytes(alloc, &mut part, 1)?;
    part.finish()?;
    Ok((alg, hash))
}

#[tactic(auto, unfolding(crate::specs::Signature::cert_hash_at))]
fn take_cert_hash(alloc: Global, from: &mut Cursor<'_>) -> Result<SignerIdentity, DecodeFault>
    ensures { Decodes result from.new (cert_hash_at from.old) }
{
    let (alg, hash) = take_hash(alloc, from)?;
    Ok(SignerIdentity::CertHash { alg, hash })
}

#[tactic(auto, unfolding(crate::specs::Signature::cert_hash_node_id_at))]
fn take_cert_hash_node_id(
    alloc: Global,
    from: &mut Cursor<'_>,
) -> Result<SignerIdentity, DecodeFault>
    ensures { Decodes result from.new (cert_hash_node_id_at from.old) }
{
    let (alg, hash) = take_hash(alloc, from)?;
    Ok(SignerIdentity::CertHashNodeId { alg, hash })
}

/// An empty part.
#[tactic(auto, unfolding(crate::specs::Signature::no_identity_at, crate::specs::Reading::vector_at))]
fn take_no_identity(from: &mut Cursor<'_>) -> Result<SignerIdentity, Bad>
    ensures { Reads result from.new (no_identity_at from.old) }
{
    let part = from.take_part(2)?;
    part.finish()?;
    Ok(SignerIdentity::None)
}

/// An identity's code, and a hash behind its algorithm.
#[tactic(auto, using(crate::proofs::Puts::lengths, crate::proofs::Puts::fronts))]
fn put_hash(out: &mut Bytes, code: u8, alg: u8, hash: &[u8]) -> Result<(), NoMemory>
    requires { length hash.now < 2 ^ 8 }
    ensures ok { OnOk result (out.new ≡ out.old ++ (number 1 code ++ hash_part alg hash.now)) }
    ensures err { OnErr result (take (length out.old) out.new ≡ out.old) }
{
    put_u8(out, code)?;
    put_u16(out, hash.len() as u16 + 2)?;
    put_u8(out, alg)?;
    put_bytes(out, 1, hash)
}

#[tactic(auto, using(crate::proofs::Puts::fronts), unfolding(crate::specs::Signature::identity))]
fn put_no_identity(out: &mut Bytes) -> Result<(), NoMemory>
    ensures ok { OnOk result (out.new ≡ out.old ++ identity SignerIdentity.None) }
    ensures err { OnErr result (take (length out.old) out.new ≡ out.old) }
{
    put_u8(out, 3)?;
    put_bytes(out, 2, &[])
}

impl Spell for Signature {
    ghost spelling = { signature };

    ghost is_spelled = { IsSpelledSignature };

    fn fits(&self) -> bool {
        self.identity.fits() && self.value.len() < 0x1_0000
    }

    #[tactic(auto, using(crate::proofs::Puts::lengths), unfolding(crate::specs::Signature::signature))]
    fn len(&self) -> u64 {
        self.identity
            .len()
            .saturating_add(self.value.len() as u64)
            .saturating_add(4)
    }

    #[tactic(auto, using(crate::proofs::Puts::fronts), unfolding(crate::specs::Signature::signature))]
    fn put(&self, out: &mut Bytes) -> Result<(), NoMemory> {
        put_u8(out, self.hash)?;
        put_u8(out, self.algorithm)?;
        self.identity.put(out)?;
        put_bytes(out, 2, self.value.as_slice())
    }

    ghost has_a_byte = { λ s _. signature-some s };
}

impl Layout for Signature {
    ghost in_range = { IsSignatureInRange };

    ghost reading = { signature_at };

    #[tactic(auto, unfolding(crate::specs::Signature::signature_at))]
    fn take(alloc: Global, from: &mut Cursor<'_>) -> Result<Signature, DecodeFault> {
        let hash = from.take_u8()?;
        let algorithm = from.take_u8()?;
        let identity = SignerIdentity::take(alloc, from)?;
        let value = take_bytes(alloc, from, 2)?;
        Ok(Signature {
            hash,
            algorithm,
            identity,
            value,
        })
    }

    ghost is_layout = { signature_laid };
}

/// Takes a signature from the front of a part. After a refusal the place of the cursor is open.
pub fn take_signature(alloc: Global, c: &mut Cursor<'_>) -> Result<Signature, DecodeFault>
    // What is read is spelled so.
    ensures found { IfOk result (λ s. (IsSpelledSignature s × IsSignatureInRange s)
        × Follows c.old (signature s) c.new) }
    // What is spelled so is read, unless memory runs out.
    ensures only { (s : Signature) (rest : List ℕ) → IsSpelledSignature s → IsSignatureInRange s
        → c.old.bytes ≡ signature s ++ rest
        → Decodes result c.new (Ok (s, behind_text (signature s) rest c.old)) }
    // Which signature or fault it is.
    ensures exact { Decodes result c.new (signature_at c.old) }
    // A fault lies in the part, or at its end.
    ensures within { (bad : Bad) → result ≡ Err (faults.Bad bad) → bad.place ≤ end_of c.old }
{
    decode(alloc, c)
}

/// Adds a signature's spelling. After `NoMemory` the bytes are as before.
pub fn put_signature(out: &mut Bytes, s: &Signature) -> Result<(), NoMemory>
    requires { IsSpelledSignature s.now }
    ensures ok { OnOk result (out.new ≡ out.old ++ signature s.now) }
    ensures err { OnErr result (out.new ≡ out.old) }
{
    put_whole(out, s)
}
