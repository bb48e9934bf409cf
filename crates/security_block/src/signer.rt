//! Who signs, and who signed.

ghost use Rattle.std.specs.Prelude.{◌≡◌, ◌^◌, ◌<◌, ℕ, Bool, true, List, Option, Some, IfOk};
ghost use Rattle.std.specs.Option.{option_copied};
ghost use Rattle.wire_core.specs.declared.signature.Signature.{Signature};
ghost use Rattle.security_block.specs.declared.about.About.{About};
ghost use Rattle.security_block.specs.Signers.{IsNamed, first_verifying, signer_among, alone};

use crate::about::About;
use crate::certificate::Certificate;
use reload_base::{Bytes, List, NoMemory};
use std::alloc::Global;
use wire_core::Signature;

/// The type of certificates by which nodes of this profile sign, from the range for private use.
pub const SIGNING: u8 = 224;

/// Makes certificates and signatures, and looks at those that others made.
pub trait Signer {
    /// The certificate of a node and its user.
    ghost certificate_of: { Self → About → List ℕ };

    /// The signature of a certificate over bytes.
    ghost signature_of: { Self → List ℕ → List ℕ → Signature };

    /// Whom a certificate is about.
    ghost about_of: { Self → List ℕ → Option About };

    /// Whether a signature of a certificate over bytes verifies.
    ghost verifies: { Self → List ℕ → List ℕ → Signature → Bool };

    /// A certificate for a node whose user has a name of 1 to `MAX_USER` bytes.
    fn certificate(&self, alloc: Global, who: &About) -> Result<Bytes, NoMemory>
        requires { IsNamed who.now }
        ensures { IfOk result (λ certificate. certificate ≡ certificate_of self.now who.now) };

    /// Signs bytes, and behind them the spelling of the identity that the signature names.
    fn sign(&self, alloc: Global, certificate: &[u8], bytes: &[u8]) -> Result<Signature, NoMemory>
        ensures { IfOk result (λ s. s ≡ signature_of self.now certificate.now bytes.now) };

    /// Whom a certificate is about, if it is about anyone.
    fn about(&self, alloc: Global, certificate: &[u8]) -> Result<Option<About>, NoMemory>
        ensures { IfOk result (λ who. who ≡ about_of self.now certificate.now) };

    /// Whether a signature is one of a certificate over bytes, and behind them the spelling of its
    /// identity.
    fn verify(&self, certificate: &[u8], bytes: &[u8], s: &Signature) -> bool
        ensures { result ≡ verifies self.now certificate.now bytes.now s.now };

    /// A certificate that was made for someone is about that one.
    ghost is_about: { (g : Self) (who : About) → IsNamed who → who.node.0 < 2 ^ 128
        → about_of g (certificate_of g who) ≡ Some who };

    /// What is signed with such a certificate verifies with it over the same bytes.
    ghost own_verifies: { (g : Self) (who : About) (bytes : List ℕ) → IsNamed who
        → who.node.0 < 2 ^ 128
        → verifies g (certificate_of g who) bytes (signature_of g (certificate_of g who) bytes)
        ≡ true };
}

#[tactic(auto, unfolding(crate::specs::Signers::first_verifying))]
fn verifying<'a, G: Signer>(
    g: &G,
    certificates: &'a List<Certificate>,
    bytes: &[u8],
    s: &Signature,
) -> Option<&'a Certificate>
    ensures { option_copied result ≡ first_verifying (λ c. G.verifies g.now c bytes.now s.now)
        certificates.now }
{
    certificates.as_slice().iter().find(|c| c.code == SIGNING
        && g.verify(c.body.as_slice(), bytes, s))
}

/// Whom the first certificate of code `SIGNING` is about with which a signature over bytes
/// verifies. Other codes are passed over.
#[tactic(auto, unfolding(crate::specs::Signers::signer_among))]
pub fn signer_of<G: Signer>(
    alloc: Global,
    g: &G,
    certificates: &List<Certificate>,
    bytes: &[u8],
    s: &Signature,
) -> Result<Option<About>, NoMemory>
    ensures { IfOk result (λ who. who ≡ signer_among (λ c. G.verifies g.now c bytes.now s.now)
        (G.about_of g.now) certificates.now) }
{
    match verifying(g, certificates, bytes, s) {
        Some(certificate) => g.about(alloc, certificate.body.as_slice()),
        None => Ok(None),
    }
}

/// What a node signed verifies as that node's, wherever its certificate stands alone: `signer_of`
/// then answers the node, or `NoMemory`.
pub fn verifies_as_own<G: Signer>()
    ensures { (g : G) (who : About) (bytes : List ℕ) → IsNamed who → who.node.0 < 2 ^ 128
        → signer_among (λ c. G.verifies g c bytes (G.signature_of g (G.certificate_of g who) bytes))
        (G.about_of g) (alone (G.certificate_of g who)) ≡ Some who }
{}
