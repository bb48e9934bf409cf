//! The stand-in signer of this profile.

ghost use Rattle.std.specs.Prelude.{◌≡◌, ◌↔◌, ◌++◌, Ok, Err, IsTrue, IsSome, IfOk, IfSome, OnOk, MatchResult};
ghost use Rattle.std.specs.Option.{option_map};
ghost use Rattle.sha2.specs.Sha256.{sha256};
ghost use Rattle.wire_core.specs.Reading.{Reads};
ghost use Rattle.security_block.specs.Signers.{IsNamed};
ghost use Rattle.security_block.specs.Claims.{who_claims};
ghost use Rattle.security_block.specs.StandIn.{authority_text, key_text, role, claim, tag_of, certificate_for, role_of, role_at, user_at, claim_at, claimed, about_by, signature_by, identifies, is_signature_by, verifies_by};
ghost use Rattle.security_block.specs.Known.{AreKeysOf};

use crate::about::{About, MAX_USER};
use crate::known::{Certificates, Keys};
use crate::signer::Signer;
use reload_base::{Bytes, NoMemory};
use reload_ids::NodeId;
use sha2::{Digest, Sha256};
use std::alloc::Global;
use wire_core::{
    Bad, Cursor, Reason, Signature, SignerIdentity, Spell, allowed, given, put_bytes, put_u8,
};

/// The version of a stand-in certificate.
pub const VERSION: u8 = 1;

/// The number of SHA-256 among hash algorithms (RFC 5246, section 7.4.1.4.1).
pub const SHA_256: u8 = 4;

/// The number of stand-in signatures, from the range for private use.
pub const STAND_IN: u8 = 224;

/// The bytes of a tag.
pub const TAG: usize = 32;

/// Signs in anyone's name, by hashes alone. It isn't secure: whoever knows its two texts can forge.
/// A certificate for a user of u bytes has 51 + u bytes, and a signature 73. Certificates that it
/// made or looked at are known to it, and hashed once.
#[derive(Drop)]
pub struct StandIn {
    known: Certificates,
}

/// What a certificate says, lent from its bytes.
#[derive(Drop)]
struct Claim<'a> {
    peer: bool,
    node: NodeId,
    user: &'a [u8],
}

#[tactic(auto, unfolding(crate::specs::StandIn::authority_text))]
fn authority() -> &'static [u8]
    ensures { result.now ≡ authority_text }
{
    b"RELOAD stand-in authority"
}

#[tactic(auto, unfolding(crate::specs::StandIn::key_text))]
pub(crate) fn key() -> &'static [u8]
    ensures { result.now ≡ key_text }
{
    b"RELOAD stand-in key"
}

/// The authority's tag behind what a certificate says.
#[tactic(auto, unfolding(crate::specs::StandIn::tag_of))]
fn tag(said: &[u8]) -> [u8; 32]
    ensures { result ≡ tag_of said.now }
{
    let mut hasher = Sha256::new();
    hasher.update(authority());
    hasher.update(said);
    hasher.finalize()
}

/// The number of a role.
#[tactic(auto, unfolding(crate::specs::StandIn::role))]
fn role(peer: bool) -> u8
    ensures { result ≡ role peer }
{
    if peer { 1 } else { 2 }
}

/// Whether a role's number is that of a peer, if it is one.
#[tactic(auto, unfolding(crate::specs::StandIn::role_of))]
fn role_of(number: u8) -> Option<bool>
    ensures { result ≡ role_of number }
{
    match number {
        1 => Some(true),
        2 => Some(false),
        _ => None,
    }
}

/// Adds what a certificate says. After `NoMemory` the bytes may have a front of it.
#[tactic(auto, unfolding(crate::specs::StandIn::claim))]
fn put_claim(out: &mut Bytes, who: &About) -> Result<(), NoMemory>
    requires { IsNamed who.now }
    ensures { OnOk result (out.new ≡ out.old ++ claim who.now) }
{
    put_u8(out, VERSION)?;
    put_u8(out, role(who.peer))?;
    who.node.put(out)?;
    put_bytes(out, 1, who.user.as_slice())
}

/// Whether the role is that of a peer.
#[tactic(auto, unfolding(crate::specs::StandIn::role_at, wire_core::specs::Reading::code_at))]
fn take_role(from: &mut Cursor<'_>) -> Result<bool, Bad>
    ensures { Reads result from.new (role_at from.old) }
{
    let place = from.place();
    let number = from.take_u8()?;
    given(role_of(number), place, Reason::BadValue)
}

/// A user's name of 1 to `MAX_USER` bytes.
#[tactic(auto, unfolding(crate::specs::StandIn::user_at, wire_core::specs::Reading::vector_at, wire_core::specs::Reading::allowed))]
fn take_user<'a>(from: &mut Cursor<'a>) -> Result<&'a [u8], Bad>
    ensures { MatchResult result (λ user. user_at from.old ≡ Ok (user.now, from.new))
        (λ bad. user_at from.old ≡ Err bad) }
{
    let place = from.place();
    let mut part = from.take_part(1)?;
    let user = part.rest();
    allowed(
        1 <= user.len() && user.len() <= MAX_USER,
        place,
        Reason::BadValue,
    )?;
    Ok(user)
}

#[tactic(auto, unfolding(crate::specs::StandIn::claim_at, wire_core::specs::Ids::node_id_at))]
fn take_claim<'a>(from: &mut Cursor<'a>) -> Result<Claim<'a>, Bad>
    ensures { MatchResult result (λ c. claim_at from.old ≡ Ok (who_claims c, from.new))
        (λ bad. claim_at from.old ≡ Err bad) }
{
    from.expect(1, u32::from(VERSION))?;
    let peer = take_role(from)?;
    let node = NodeId(from.take_u128()?);
    let user = take_user(from)?;
    Ok(Claim { peer, node, user })
}

/// What bytes say that are a claim as a whole.
#[tactic(auto, unfolding(crate::specs::StandIn::claimed))]
fn claim_in(said: &[u8]) -> Option<Claim<'_>>
    ensures { option_map who_claims result ≡ claimed said.now }
{
    let mut part = Cursor::new(said, 0);
    let claim = take_claim(&mut part).ok()?;
    part.finish().ok()?;
    Some(claim)
}

/// What a certificate says, if it is one.
#[tactic(auto, unfolding(crate::specs::StandIn::about_by))]
fn claim_of(certificate: &[u8]) -> Option<Claim<'_>>
    ensures { option_map who_claims result ≡ about_by certificate.now }
{
    let (said, rest) = certificate.split_at(certificate.len().saturating_sub(TAG));
    if tag(said).as_slice() != rest {
        return None;
    }
    claim_in(said)
}

/// Whether an identity is the hash of a certificate with this fingerprint.
#[tactic(auto, unfolding(crate::specs::StandIn::identifies))]
fn is_identity(identity: &SignerIdentity, certificate: &[u8], fingerprint: &[u8; 32]) -> bool
    requires { fingerprint.now ≡ sha256 certificate.now }
    ensures { result ≡ identifies identity.now certificate.now }
{
    match identity {
        SignerIdentity::CertHash { alg, hash } => {
            *alg == SHA_256 && hash.as_slice() == fingerprint.as_slice()
        }
        SignerIdentity::CertHashNodeId { .. } | SignerIdentity::None => false,
    }
}

/// Whether a signature is the one that a certificate with these keys makes over bytes.
#[tactic(auto, unfolding(crate::specs::StandIn::is_signature_by))]
fn is_signature(certificate: &[u8], keys: Keys, bytes: &[u8], s: &Signature) -> bool
    requires { AreKeysOf certificate.now keys }
    ensures { result ≡ is_signature_by certificate.now bytes.now s.now }
{
    s.hash == SHA_256
        && s.algorithm == STAND_IN
        && is_identity(&s.identity, certificate, &keys.fingerprint)
        && s.value.as_slice() == keys.value(bytes).as_slice()
}

/// Whom a certificate is about, if it is about anyone, by its bytes alone.
fn look_at(alloc: Global, certificate: &[u8]) -> Result<Option<About>, NoMemory>
    ensures value { IfOk result (λ who. who ≡ about_by certificate.now) }
    ensures found { IfOk result
        (λ found. IfSome found (λ who. IsNamed who × (certificate.now ≡ certificate_for who))) }
{
    let Some(claim) = claim_of(certificate) else {
        return Ok(None);
    };
    let user = Bytes::from_slice(alloc, claim.user)?;
    Ok(Some(About {
        peer: claim.peer,
        node: claim.node,
        user,
    }))
}

impl StandIn {
    /// The stand-in signer, to which no certificate is known.
    pub fn new(alloc: Global) -> StandIn {
        StandIn {
            known: Certificates::new(alloc),
        }
    }

    /// The keys of a certificate, which is known from now on if it is about anyone.
    fn keys(&self, certificate: &[u8]) -> Keys
        ensures { AreKeysOf certificate.now result }
    {
        if let Some(keys) = self.known.keys_of(certificate) {
            return keys;
        }
        let keys = Keys::of(certificate);
        let _ = self.keep(certificate, &keys);
        keys
    }

    /// Knows a certificate from now on, if it is about anyone.
    fn keep(&self, certificate: &[u8], keys: &Keys) -> Result<(), NoMemory>
        requires { AreKeysOf certificate.now keys.now }
    {
        match look_at(self.known.alloc(), certificate)? {
            Some(about) => self.known.keep(certificate, &about, keys),
            None => Ok(()),
        }
    }
}

impl Signer for StandIn {
    ghost certificate_of = { λ _ who. certificate_for who };

    ghost signature_of = { λ _ certificate bytes. signature_by certificate bytes };

    ghost about_of = { λ _ certificate. about_by certificate };

    ghost verifies = { λ _ certificate bytes s. verifies_by certificate bytes s };

    ghost use Rattle.security_block.specs.Laws.StandIn.{about_by-certificate_for, verifies_by-own};

    ghost is_about = { λ _ who named node. about_by-certificate_for who named node };

    ghost own_verifies = { λ _ who bytes named node. verifies_by-own who bytes named node };

    #[tactic(auto, unfolding(crate::specs::StandIn::certificate_for))]
    fn certificate(&self, alloc: Global, who: &About) -> Result<Bytes, NoMemory> {
        if let Some(certificate) = self.known.certificate_of(alloc, who) {
            return certificate;
        }
        let mut out = Bytes::new(alloc);
        put_claim(&mut out, who)?;
        let tag = tag(out.as_slice());
        out.extend(&tag)?;
        Ok(out)
    }

    #[tactic(auto, unfolding(crate::specs::StandIn::signature_by, crate::specs::StandIn::identity_by))]
    fn sign(&self, alloc: Global, certificate: &[u8], bytes: &[u8]) -> Result<Signature, NoMemory> {
        let keys = self.keys(certificate);
        let hash = Bytes::from_slice(alloc, &keys.fingerprint)?;
        let value = keys.value(bytes);
        Ok(Signature {
            hash: SHA_256,
            algorithm: STAND_IN,
            identity: SignerIdentity::CertHash { alg: SHA_256, hash },
            value: Bytes::from_slice(alloc, &value)?,
        })
    }

    fn about(&self, alloc: Global, certificate: &[u8]) -> Result<Option<About>, NoMemory>
        ensures value { IfOk result (λ who. who ≡ about_by certificate.now) }
        // It is about no other than the one whose certificate these bytes are.
        ensures found { IfOk result
            (λ found. IfSome found (λ who. IsNamed who × (certificate.now ≡ certificate_for who))) }
    {
        match self.known.about(alloc, certificate) {
            Some(who) => Ok(Some(who?)),
            None => look_at(alloc, certificate),
        }
    }

    #[tactic(auto, unfolding(crate::specs::StandIn::verifies_by))]
    fn verify(&self, certificate: &[u8], bytes: &[u8], s: &Signature) -> bool
        ensures value { result ≡ verifies_by certificate.now bytes.now s.now }
        ensures exact { IsTrue result ↔
            (IsSome (about_by certificate.now) × (s.now ≡ signature_by certificate.now bytes.now)) }
    {
        match self.known.keys_of(certificate) {
            Some(keys) => is_signature(certificate, keys, bytes, s),
            None => {
                claim_of(certificate).is_some()
                    && is_signature(certificate, self.keys(certificate), bytes, s)
            }
        }
    }
}
