//! Certificates that the stand-in looked at before.

ghost use Rattle.std.specs.Prelude.{◌≡◌, ℕ, List, IsTrue, IsSome, IfOk, IfSome};
ghost use Rattle.security_block.specs.StandIn.{certificate_for, about_by, value_by};
ghost use Rattle.security_block.specs.Known.{IsCertificateOf, AreKeysOf};

use crate::about::About;
use crate::stand_in::{SHA_256, key};
use ordered_tables::NumberTable;
use reload_base::{Bytes, NoMemory, TryCopy};
use sha2::{Digest, Sha256};
use std::alloc::Global;
use std::cell::RefCell;
use std::marker::Model;
use wire_core::Cursor;

/// What the signatures of a certificate are made with: its hash, and a hasher that holds the text
/// and the certificate with which the value of each begins.
#[derive(Drop)]
pub(crate) struct Keys {
    pub(crate) fingerprint: [u8; 32],
    front: Sha256,
}

impl Keys {
    /// Those of a certificate.
    pub(crate) fn of(certificate: &[u8]) -> Keys
        ensures { AreKeysOf certificate.now result }
    {
        let mut front = Sha256::new();
        front.update(key());
        front.update(certificate);
        Keys {
            fingerprint: Sha256::digest(certificate),
            front,
        }
    }

    /// The same keys once more, unless memory runs out.
    fn copied(&self) -> Option<Keys>
        ensures { IfSome result (λ keys. (certificate : List ℕ) → AreKeysOf certificate self.now
            → AreKeysOf certificate keys) }
    {
        Some(Keys {
            fingerprint: self.fingerprint,
            front: self.front.clone().ok()?,
        })
    }

    /// The value of a certificate's signature over bytes and its own identity.
    pub(crate) fn value(self, bytes: &[u8]) -> [u8; 32]
        ensures { (certificate : List ℕ) → AreKeysOf certificate self
            → result ≡ value_by certificate bytes.now }
    {
        let Keys {
            fingerprint,
            front: mut hasher,
        } = self;
        hasher.update(bytes);
        // The identity: its type, the length of its part, and the hash behind its algorithm and
        // length.
        hasher.update(&[1u8, 0, 34, SHA_256, 32]);
        hasher.update(&fingerprint);
        hasher.finalize()
    }
}

/// A certificate that is about someone. Contracts see whom.
#[derive(Drop)]
pub(crate) struct Known {
    certificate: Bytes,
    about: About,
    keys: Keys,
}

impl Model for Known {
    ghost use Rattle.security_block.specs.declared.about.About.{About};
    ghost use Rattle.security_block.specs.contracts.about.About as of_about;
    ghost use Rattle.security_block.specs.Known.{IsCertificateOf, AreKeysOf};

    ghost Value = { About };

    ghost coded = { of_about.the_row.coded };

    ghost view = { λ k. k.about };

    ghost invariant = { λ k. IsCertificateOf k.certificate k.about
        × AreKeysOf k.certificate k.keys };
}

impl Known {
    /// A certificate, whom it is about, and its keys.
    fn new(
        alloc: Global,
        certificate: &[u8],
        about: &About,
        keys: &Keys,
    ) -> Result<Option<Known>, NoMemory>
        requires certificate { IsCertificateOf certificate.now about.now }
        requires keys { AreKeysOf certificate.now keys.now }
        ensures { IfOk result (λ known. IfSome known (λ k. k ≡ about.now)) }
    {
        let Some(keys) = keys.copied() else {
            return Ok(None);
        };
        Ok(Some(Known {
            certificate: Bytes::from_slice(alloc, certificate)?,
            about: about.copy(alloc)?,
            keys,
        }))
    }

    /// The certificate itself.
    fn certificate(&self) -> &[u8]
        ensures { result.now ≡ certificate_for self.now }
    {
        self.certificate.as_slice()
    }
}

/// The most certificates that are known.
const MAX_KNOWN: usize = 4_096;

/// Certificates that were looked at, by the Node-IDs that they name: at most `MAX_KNOWN`. What is
/// known of one isn't computed again.
#[derive(Drop)]
pub(crate) struct Certificates {
    alloc: Global,
    table: RefCell<NumberTable<Known>>,
}

/// The Node-ID that a certificate names, if it is one: it stands behind the version and the role.
fn place_of(certificate: &[u8]) -> u128 {
    let mut from = Cursor::new(certificate, 0);
    let _ = from.take_u16();
    from.take_u128().unwrap_or(0)
}

impl Certificates {
    /// None is known.
    pub(crate) fn new(alloc: Global) -> Certificates {
        Certificates {
            alloc,
            table: RefCell::new(NumberTable::new(alloc)),
        }
    }

    /// Where memory for them comes from.
    pub(crate) fn alloc(&self) -> Global {
        self.alloc
    }

    /// The keys of a certificate, if it is known; then it is about someone.
    pub(crate) fn keys_of(&self, certificate: &[u8]) -> Option<Keys>
        ensures about { IfSome result (λ _. IsSome (about_by certificate.now)) }
        ensures keys { IfSome result (AreKeysOf certificate.now) }
    {
        let table = self.table.try_borrow().ok()?;
        let known = table.get(place_of(certificate))?;
        if known.certificate() != certificate {
            return None;
        }
        known.keys.copied()
    }

    /// Whom a certificate is about, if it is known.
    pub(crate) fn about(&self, alloc: Global, certificate: &[u8]) -> Option<Result<About, NoMemory>>
        ensures { IfSome result (λ r. IfOk r (IsCertificateOf certificate.now)) }
    {
        let table = self.table.try_borrow().ok()?;
        let known = table.get(place_of(certificate))?;
        if known.certificate() != certificate {
            return None;
        }
        Some(known.about.copy(alloc))
    }

    /// The certificate for a node and its user, if it is known.
    pub(crate) fn certificate_of(
        &self,
        alloc: Global,
        who: &About,
    ) -> Option<Result<Bytes, NoMemory>>
        ensures { IfSome result (λ r. IfOk r (λ c. c ≡ certificate_for who.now)) }
    {
        let table = self.table.try_borrow().ok()?;
        let known = table.get(who.node.0)?;
        if !is_same(&known.about, who) {
            return None;
        }
        Some(Bytes::from_slice(alloc, known.certificate()))
    }

    /// Knows a certificate from now on, where there is room and memory.
    pub(crate) fn keep(
        &self,
        certificate: &[u8],
        about: &About,
        keys: &Keys,
    ) -> Result<(), NoMemory>
        requires certificate { IsCertificateOf certificate.now about.now }
        requires keys { AreKeysOf certificate.now keys.now }
    {
        let Ok(mut table) = self.table.try_borrow_mut() else {
            return Ok(());
        };
        if table.len() >= MAX_KNOWN {
            return Ok(());
        }
        if let Some(known) = Known::new(self.alloc, certificate, about, keys)? {
            table.insert(about.node.0, known)?;
        }
        Ok(())
    }
}

/// Whether two are the same node of the same user in the same role.
fn is_same(a: &About, b: &About) -> bool
    ensures { IsTrue result → a.now ≡ b.now }
{
    a.peer == b.peer && a.node == b.node && a.user.as_slice() == b.user.as_slice()
}
