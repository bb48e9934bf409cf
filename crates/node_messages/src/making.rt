//! Making messages.

ghost use Rattle.std.specs.Prelude.{◌≡◌, ◌↔◌, IsTrue, ◌+◌, ◌++◌, ◌^◌, ◌<◌, ◌-◌, length, min, IfOk};
ghost use Rattle.security_block.specs.declared.block.SecurityBlock.{SecurityBlock};
ghost use Rattle.security_block.specs.Block.{block, IsBlockInRange};
ghost use Rattle.security_block.specs.Signers.{IsNamed, alone};
ghost use Rattle.wire_core.specs.Spelling.{AreBytes};
ghost use Rattle.wire_core.specs.Signature.{IsSignatureInRange};
ghost use Rattle.forwarding_header.specs.Header.{header, IsSpelledHeader};
ghost use Rattle.message_bodies.specs.Contents.{IsSpelledContents};
ghost use Rattle.node_messages.specs.Making.{made, whole};
ghost use Rattle.node_messages.specs.Assembling.{IsAssembled};
ghost use Rattle.node_messages.specs.Signed.{words_of, signed};

use crate::signed::{FRONT, signed_front};
use forwarding_header::{Header, fits, put_header};
use message_bodies::Contents;
use reload_base::{Bytes, List, NoMemory};
use security_block::{About, Certificate, SIGNING, SecurityBlock, Signer};
use std::alloc::Global;
use wire_core::{MAX_MESSAGE, Signature, SignerIdentity, Spell, list_len};

/// The bytes of a header without its lists.
const FIXED: u64 = 38;

/// The number of bytes of a header, or `u64::MAX` where there are more.
#[tactic(auto, using(wire_core::proofs::Puts::lengths), unfolding(forwarding_header::specs::Header::fixed, forwarding_header::specs::Header::lists))]
pub fn header_len(h: &Header) -> u64
    ensures { result ≡ min (length (header h.now)) (2 ^ 64 - 1) }
{
    FIXED
        .saturating_add(list_len(&h.via))
        .saturating_add(list_len(&h.dest))
        .saturating_add(list_len(&h.options))
}

/// Does nothing, and tells contracts that these are bytes.
fn are_bytes(bytes: &[u8])
    ensures { AreBytes bytes.now }
{}

/// Does nothing, and tells contracts that the numbers of a signature fit their fields.
fn is_in_range(s: &Signature)
    ensures { IsSignatureInRange s.now }
{
    let _hash = s.hash;
    let _algorithm = s.algorithm;
    are_bytes(s.value.as_slice());
    match &s.identity {
        SignerIdentity::CertHash { alg, hash } | SignerIdentity::CertHashNodeId { alg, hash } => {
            let _alg = *alg;
            are_bytes(hash.as_slice());
        }
        SignerIdentity::None => {}
    }
}

/// The block of a maker: its own certificate, and its signature over what is signed.
#[tactic(auto, unfolding(security_block::specs::Signers::alone))]
fn own_block<G: Signer>(
    alloc: Global,
    signer: &G,
    about: &About,
    signed: &[u8],
) -> Result<SecurityBlock, NoMemory>
    requires { IsNamed about.now }
    ensures own { IfOk result (λ b. b ≡ record {
      certificates = alone (G.certificate_of signer.now about.now);
      signature = G.signature_of signer.now (G.certificate_of signer.now about.now) signed.now;
    }) }
    ensures in_range { IfOk result IsBlockInRange }
{
    let body = signer.certificate(alloc, about)?;
    are_bytes(body.as_slice());
    let signature = signer.sign(alloc, body.as_slice(), signed)?;
    is_in_range(&signature);
    let mut certificates = List::new(alloc);
    certificates.push(Certificate {
        code: SIGNING,
        body,
    })?;
    Ok(SecurityBlock {
        certificates,
        signature,
    })
}

/// The number of bytes of a message, or `u64::MAX` where there are more.
#[tactic(auto, using(crate::proofs::Wholes::whole_lengths))]
fn whole_len(header: &Header, contents: &[u8], security: &SecurityBlock) -> u64
    ensures { result ≡ min (length (whole header.now (contents.now ++ block security.now)))
        (2 ^ 64 - 1) }
{
    header_len(header)
        .saturating_add(contents.len() as u64)
        .saturating_add(security.len())
}

/// The bytes of a message with these parts, of which the contents are spelled already.
fn assembled(
    alloc: Global,
    header: Header,
    contents: &[u8],
    security: &SecurityBlock,
) -> Result<Option<Bytes>, NoMemory>
    requires { IsSpelledHeader header }
    ensures { IfOk result (λ m. IsAssembled header contents.now security.now m) }
{
    let len = whole_len(&header, contents, security);
    if !security.fits() || len > u64::from(MAX_MESSAGE) {
        return Ok(None);
    }
    let length = len as u32;
    let mut out = Bytes::new(alloc);
    out.reserve(length as usize)?;
    put_header(&mut out, &Header { length, ..header })?;
    out.extend(contents)?;
    security.put(&mut out)?;
    Ok(Some(out))
}

/// Whether both a header and contents have a spelling.
fn have_spelling(header: &Header, contents: &Contents) -> bool
    ensures { IsTrue result ↔ (IsSpelledHeader header.now × IsSpelledContents contents.now) }
{
    fits(header) && contents.fits()
}

/// What a maker signs of a message.
#[tactic(auto, unfolding(crate::specs::Signed::signed))]
fn own_signed(alloc: Global, header: &Header, contents: &Contents) -> Result<Bytes, NoMemory>
    requires { IsSpelledContents contents.now }
    ensures { IfOk result (λ bytes. bytes ≡ signed header.now contents.now) }
{
    let mut bytes = signed_front(alloc, header, contents.len() as usize)?;
    contents.put(&mut bytes)?;
    Ok(bytes)
}

/// The message that a node sends: a header whose length is filled in, the contents, and a security
/// block with the node's certificate and signature (RFC 6940, section 6.3). There is none where a
/// part has no spelling, or where the whole has more than `MAX_MESSAGE` bytes.
pub fn make_message<G: Signer>(
    alloc: Global,
    signer: &G,
    about: &About,
    header: Header,
    contents: &Contents,
) -> Result<Option<Bytes>, NoMemory>
    requires { IsNamed about.now }
    ensures { let words = words_of G.certificate_of G.signature_of G.about_of G.verifies signer.now
        in IfOk result (λ m. m ≡ made words about.now header contents.now) }
{
    if !have_spelling(&header, contents) {
        return Ok(None);
    }
    let signed = own_signed(alloc, &header, contents)?;
    let security = own_block(alloc, signer, about, signed.as_slice())?;
    let (_, spelling) = signed.as_slice().split_at(FRONT);
    assembled(alloc, header, spelling, &security)
}
