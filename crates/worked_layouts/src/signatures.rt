ghost use Rattle.std.specs.Prelude.{IfOk};
ghost use Rattle.security_block.specs.Signers.{IsNamed};

use reload_base::{Bytes, List, NoMemory, TryCopy};
use reload_ids::NodeId;
use security_block::{
    About, Certificate, SecurityBlock, Signer, StandIn, decode_block, encode_block, signer_of,
};
use sha2::{Digest, Sha256};
use std::alloc::Global;
use std::test::Fail;
use wire_core::{Bad, Cursor, DecodeFault, Layout, Reason, Signature, SignerIdentity, Spell};

/// What the certificate of the peer 000102..0f and its user `abc` says.
fn said() -> &'static [u8] {
    &[
        0x01, 0x01, 0x00, 0x01, 0x02, 0x03, 0x04, 0x05, 0x06, 0x07, 0x08, 0x09, 0x0a, 0x0b, 0x0c,
        0x0d, 0x0e, 0x0f, 0x03, 0x61, 0x62, 0x63,
    ]
}

/// That certificate. In Python, with `said` as above, its last 32 bytes, 458f1c7e..64195, are
/// `hashlib.sha256(b'RELOAD stand-in authority' + said).digest()`.
fn certificate() -> &'static [u8] {
    &[
        0x01, 0x01, 0x00, 0x01, 0x02, 0x03, 0x04, 0x05, 0x06, 0x07, 0x08, 0x09, 0x0a, 0x0b, 0x0c,
        0x0d, 0x0e, 0x0f, 0x03, 0x61, 0x62, 0x63, 0x45, 0x8f, 0x1c, 0x7e, 0xe5, 0x3f, 0xc4, 0xc0,
        0x66, 0xc9, 0x52, 0xc7, 0x61, 0xe0, 0x21, 0x73, 0x7a, 0x6d, 0x5c, 0x78, 0x10, 0x96, 0x91,
        0xd4, 0x5c, 0xee, 0xa2, 0x34, 0x6e, 0x36, 0x41, 0x95,
    ]
}

/// Its signature over `hello`. In Python, with `certificate` as above, `identity = bytes([1, 0, 34,
/// 4, 32]) + hashlib.sha256(certificate).digest()` (ed0097a4..6540b), and the value is
/// `hashlib.sha256(b'RELOAD stand-in key' + certificate + b'hello' + identity).digest()`
/// (f6266a01..438be).
fn signature() -> &'static [u8] {
    &[
        0x04, 0xe0, 0x01, 0x00, 0x22, 0x04, 0x20, 0xed, 0x00, 0x97, 0xa4, 0x56, 0xd6, 0xfb, 0xe0,
        0x52, 0x5e, 0x3e, 0xc0, 0xae, 0x00, 0xb5, 0x00, 0x7e, 0x9c, 0xce, 0x8f, 0xed, 0x9c, 0x70,
        0xf1, 0x75, 0xc3, 0xca, 0x31, 0xd2, 0x76, 0x54, 0x0b, 0x00, 0x20, 0xf6, 0x26, 0x6a, 0x01,
        0x0b, 0x3b, 0xa4, 0xfb, 0x94, 0xa3, 0x90, 0x21, 0xa5, 0xf2, 0xa0, 0x4d, 0xd2, 0x74, 0xbb,
        0x9a, 0xb2, 0x75, 0x60, 0x4d, 0x9c, 0xfd, 0xff, 0xae, 0x25, 0x74, 0x38, 0xbe,
    ]
}

/// A peer or a client of the user `abc`.
fn abc(alloc: Global, peer: bool) -> Result<About, NoMemory>
    ensures { IfOk result IsNamed }
{
    Ok(About {
        peer,
        node: NodeId(0x0001_0203_0405_0607_0809_0a0b_0c0d_0e0f),
        user: Bytes::from_slice(alloc, b"abc")?,
    })
}

/// The peer's block over `hello`.
fn block(alloc: Global) -> Result<SecurityBlock, NoMemory> {
    let signer = StandIn::new(alloc);
    let body = signer.certificate(alloc, &abc(alloc, true)?)?;
    let signature = signer.sign(alloc, body.as_slice(), b"hello")?;
    let mut certificates = List::new(alloc);
    certificates.push(Certificate { code: 224, body })?;
    Ok(SecurityBlock {
        certificates,
        signature,
    })
}

/// The bytes of that block: 57 bytes of certificates, of which the one is 224 and 54 bytes long,
/// and the signature.
fn block_bytes(alloc: Global) -> Result<Bytes, NoMemory> {
    let mut bytes = Bytes::from_slice(alloc, &[0, 57, 224, 0, 54])?;
    bytes.extend(certificate())?;
    bytes.extend(signature())?;
    Ok(bytes)
}

#[test]
fn a_block_byte_for_byte(rt: HostRuntime) -> Result<(), Fail> {
    let block = block(rt.alloc())?;
    assert!(rt; block.fits());
    let bytes = encode_block(rt.alloc(), &block)?;
    assert!(rt; bytes.as_slice() == block_bytes(rt.alloc())?.as_slice());
    assert!(rt; bytes.len() == 132 && block.len() == 132);
    Ok(())
}

/// Whether `hello` is signed by the peer of the user `abc`, and by no other.
fn is_from_abc(alloc: Global, block: &SecurityBlock) -> Result<bool, NoMemory> {
    let who = signer_of(
        alloc,
        &StandIn::new(alloc),
        &block.certificates,
        b"hello",
        &block.signature,
    )?;
    Ok(who.is_some_and(|who| who.peer
        && who.node.0 % 16 == 15
        && who.user.as_slice() == b"abc".as_slice()))
}

#[test]
fn a_block_comes_back(rt: HostRuntime) -> Result<(), Fail> {
    let mut bytes = block_bytes(rt.alloc())?;
    bytes.push(9)?;
    let mut cursor = Cursor::new(bytes.as_slice(), 0);
    let block = decode_block(rt.alloc(), &mut cursor)?;
    assert!(rt; cursor.place() == 132 && cursor.len() == 1);
    assert!(rt; is_from_abc(rt.alloc(), &block)?);
    Ok(())
}

/// Whether bytes are a certificate.
fn is_certificate(alloc: Global, bytes: &[u8]) -> Result<bool, NoMemory> {
    Ok(StandIn::new(alloc).about(alloc, bytes)?.is_some())
}

/// Whether this is what a certificate says, under a tag that is right for it.
fn is_said(alloc: Global, said: &[u8]) -> Result<bool, NoMemory> {
    let mut hasher = Sha256::new();
    hasher.update(b"RELOAD stand-in authority");
    hasher.update(said);
    let mut bytes = Bytes::from_slice(alloc, said)?;
    bytes.extend(&hasher.finalize())?;
    is_certificate(alloc, bytes.as_slice())
}

/// Whether it is that with one byte changed, under a tag that is right.
fn is_said_with(alloc: Global, at: usize, byte: u8) -> Result<bool, Fail> {
    let mut bytes = said().to_vec(alloc)?;
    if let Some(place) = bytes.get_mut(at) {
        *place = byte;
    }
    Ok(is_said(alloc, bytes.as_slice())?)
}

/// Whether it is that for a user of `len` bytes.
fn is_said_of(alloc: Global, len: u8) -> Result<bool, Fail> {
    let mut bytes = said().to_vec(alloc)?;
    bytes.truncate(18);
    bytes.push(len)?;
    for _ in 0..len {
        bytes.push(b'a')?;
    }
    Ok(is_said(alloc, bytes.as_slice())?)
}

/// Whether a certificate is still one with a byte changed, or cut before it.
fn is_certificate_changed_at(alloc: Global, at: usize) -> Result<bool, Fail> {
    let mut bytes = certificate().to_vec(alloc)?;
    if let Some(place) = bytes.get_mut(at) {
        *place ^= 1;
    }
    let is_changed = is_certificate(alloc, bytes.as_slice())?;
    bytes.truncate(at);
    Ok(is_changed || is_certificate(alloc, bytes.as_slice())?)
}

#[test]
fn no_other_bytes_are_a_certificate(rt: HostRuntime) -> Result<(), Fail> {
    // The version, the role and the user's length.
    let cases = [
        (0, 0, false),
        (0, 1, true),
        (0, 2, false),
        (1, 0, false),
        (1, 2, true),
        (1, 3, false),
        (18, 2, false),
        (18, 3, true),
        (18, 4, false),
    ];
    for (at, byte, is_one) in cases {
        assert!(rt; is_said_with(rt.alloc(), at, byte)? == is_one);
    }
    for (len, is_one) in [(0, false), (1, true), (64, true), (65, false)] {
        assert!(rt; is_said_of(rt.alloc(), len)? == is_one);
    }
    assert!(rt; is_certificate(rt.alloc(), certificate())?);
    for at in 0..54 {
        assert!(rt; !is_certificate_changed_at(rt.alloc(), at)?);
    }
    Ok(())
}

/// The signature over `hello` with one field changed, by its number.
fn changed(alloc: Global, field: u8) -> Result<Signature, NoMemory> {
    let mut s = StandIn::new(alloc).sign(alloc, certificate(), b"hello")?;
    let hash = Bytes::from_slice(alloc, &Sha256::digest(certificate()))?;
    let other = Bytes::from_slice(alloc, &Sha256::digest(b"other"))?;
    match field {
        0 => s.hash = 5,
        1 => s.algorithm = 225,
        2 => s.identity = SignerIdentity::CertHash { alg: 5, hash },
        3 => {
            s.identity = SignerIdentity::CertHash {
                alg: 4,
                hash: other,
            }
        }
        4 => s.identity = SignerIdentity::CertHashNodeId { alg: 4, hash },
        5 => s.identity = SignerIdentity::None,
        6 => s.value = other,
        _ => {}
    }
    Ok(s)
}

/// Whether a signature is one of the certificate over bytes, to a signer that may know it.
fn verifies(signer: &StandIn, bytes: &[u8], s: &Signature) -> bool {
    signer.verify(certificate(), bytes, s)
}

#[test]
fn no_other_signature_verifies(rt: HostRuntime) -> Result<(), Fail> {
    let signer = StandIn::new(rt.alloc());
    for field in 0..8 {
        let s = changed(rt.alloc(), field)?;
        assert!(rt; verifies(&signer, b"hello", &s) == (field == 7));
    }
    let s = changed(rt.alloc(), 7)?;
    assert!(rt; !verifies(&signer, b"hell", &s));
    let client = signer.certificate(rt.alloc(), &abc(rt.alloc(), false)?)?;
    assert!(rt; !signer.verify(client.as_slice(), b"hello", &s));
    let by_nobody = signer.sign(rt.alloc(), b"nobody", b"hello")?;
    assert!(rt; !signer.verify(b"nobody", b"hello", &by_nobody));
    Ok(())
}

/// A stand-in that believes each signature.
struct Credulous;

impl Signer for Credulous {
    ghost use Rattle.std.specs.Prelude.{true, refl};
    ghost use Rattle.security_block.specs.StandIn.{certificate_for, about_by, signature_by};
    ghost use Rattle.security_block.specs.Laws.StandIn.{about_by-certificate_for};

    ghost certificate_of = { λ _ who. certificate_for who };

    ghost signature_of = { λ _ certificate bytes. signature_by certificate bytes };

    ghost about_of = { λ _ certificate. about_by certificate };

    ghost verifies = { λ _ _ _ _. true };

    ghost is_about = { λ _ who named node. about_by-certificate_for who named node };

    ghost own_verifies = { λ _ _ _ _ _. refl };

    fn certificate(&self, alloc: Global, who: &About) -> Result<Bytes, NoMemory> {
        StandIn::new(alloc).certificate(alloc, who)
    }

    fn sign(&self, alloc: Global, certificate: &[u8], bytes: &[u8]) -> Result<Signature, NoMemory> {
        StandIn::new(alloc).sign(alloc, certificate, bytes)
    }

    fn about(&self, alloc: Global, certificate: &[u8]) -> Result<Option<About>, NoMemory> {
        StandIn::new(alloc).about(alloc, certificate)
    }

    fn verify(&self, _certificate: &[u8], _bytes: &[u8], _s: &Signature) -> bool {
        true
    }
}

/// The peer's certificate under another code, the client's, and the peer's.
fn three_certificates(alloc: Global) -> Result<List<Certificate>, NoMemory> {
    let peer = Bytes::from_slice(alloc, certificate())?;
    let client = StandIn::new(alloc).certificate(alloc, &abc(alloc, false)?)?;
    let mut certificates = List::new(alloc);
    certificates.push(Certificate {
        code: 223,
        body: peer.copy(alloc)?,
    })?;
    certificates.push(Certificate {
        code: 224,
        body: client,
    })?;
    certificates.push(Certificate {
        code: 224,
        body: peer,
    })?;
    Ok(certificates)
}

/// Whether a signer finds a peer to have signed `hello`, if anyone.
fn is_from_a_peer<G: Signer>(
    alloc: Global,
    g: &G,
    certificates: &List<Certificate>,
) -> Result<Option<bool>, NoMemory> {
    let s = changed(alloc, 7)?;
    let who = signer_of(alloc, g, certificates, b"hello", &s)?;
    Ok(who.map(|who| who.peer))
}

#[test]
fn the_first_certificate_that_verifies_counts(rt: HostRuntime) -> Result<(), Fail> {
    let mut certificates = three_certificates(rt.alloc())?;
    assert!(rt; is_from_a_peer(rt.alloc(), &Credulous, &certificates)? == Some(false));
    assert!(rt;
        is_from_a_peer(rt.alloc(), &StandIn::new(rt.alloc()), &certificates)? == Some(true)
    );
    certificates.truncate(2);
    assert!(rt; is_from_a_peer(rt.alloc(), &StandIn::new(rt.alloc()), &certificates)?.is_none());
    Ok(())
}

/// The fault of a block whose first byte stands at 100.
fn fault(alloc: Global, bytes: &[u8]) -> Option<DecodeFault> {
    if bytes.len() > 100 {
        return None;
    }
    decode_block(alloc, &mut Cursor::new(bytes, 100)).err()
}

#[test]
fn a_fault_has_its_place(rt: HostRuntime) {
    let cases: [(&[u8], u64, Reason); 11] = [
        (&[0], 101, Reason::Short),
        (&[0, 1], 100, Reason::LengthPast),
        (&[0, 1, 224], 103, Reason::Short),
        (&[0, 3, 224, 0, 1], 103, Reason::LengthPast),
        (&[0, 0, 4], 103, Reason::Short),
        (&[0, 0, 4, 224, 4, 0, 0, 0, 0], 104, Reason::BadValue),
        (&[0, 0, 4, 224, 0], 104, Reason::BadValue),
        (&[0, 0, 4, 224, 1, 0, 9], 105, Reason::LengthPast),
        (&[0, 0, 4, 224, 1, 0, 3, 4, 2, 7], 108, Reason::LengthPast),
        (&[0, 0, 4, 224, 2, 0, 3, 4, 0, 7], 109, Reason::Trailing),
        (&[0, 0, 0, 0, 3, 0, 1, 7, 0, 0], 107, Reason::Trailing),
    ];
    for (bytes, place, reason) in cases {
        let want = DecodeFault::Bad(Bad { place, reason });
        assert!(rt; fault(rt.alloc(), bytes) == Some(want));
    }
}
