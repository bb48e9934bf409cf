//! The kinds of a Store, whose values are signed (RFC 6940, section 7.1).

use data_models::{KindValues, StoreKind, StoredData, signed_bytes};
use reload_base::{Bytes, List, NoMemory, TryCopy};
use reload_ids::ResourceId;
use request_words::{Data, GroupWords, ValueWord};
use security_block::{Signer, StandIn};
use std::alloc::Global;
use wire_core::{Signature, SignerIdentity};

/// Who signs values: nobody where there is no certificate.
#[derive(Clone, Copy)]
pub(crate) struct ValueSigner<'a> {
    pub(crate) certificate: Option<&'a [u8]>,
    pub(crate) resource: ResourceId,
}

fn bytes_of(alloc: Global, data: &Data) -> Result<Bytes, NoMemory> {
    match data {
        Data::Nonexistent => Ok(Bytes::new(alloc)),
        Data::Bytes(bytes) => bytes.copy(alloc),
        Data::Fill(count) => Ok(Bytes::from_vec(vec![in alloc; b'a'; *count as usize]?)),
    }
}

/// A value as a word tells it, without a signature.
fn unsigned(alloc: Global, word: &ValueWord) -> Result<StoredData, NoMemory> {
    Ok(StoredData {
        key: word.key.copy(alloc)?,
        storage_time: word.storage_time,
        lifetime: word.lifetime,
        present: !matches!(&word.value, Data::Nonexistent),
        value: bytes_of(alloc, &word.value)?,
        signature: Signature {
            hash: 0,
            algorithm: 0,
            identity: SignerIdentity::None,
            value: Bytes::new(alloc),
        },
    })
}

impl ValueSigner<'_> {
    fn signed(&self, alloc: Global, kind: u32, word: &ValueWord) -> Result<StoredData, NoMemory> {
        let stored = unsigned(alloc, word)?;
        let Some(certificate) = self.certificate else {
            return Ok(stored);
        };
        if !stored.value_fits() {
            return Ok(stored);
        }
        let bytes = signed_bytes(alloc, self.resource, kind, &stored)?;
        let signature = StandIn::new(alloc).sign(alloc, certificate, bytes.as_slice())?;
        Ok(StoredData {
            signature,
            ..stored
        })
    }

    fn kind(&self, alloc: Global, group: &GroupWords) -> Result<StoreKind, NoMemory> {
        let mut values = List::new(alloc);
        for word in group.values.as_slice() {
            values.push(self.signed(alloc, group.kind, word)?)?;
        }
        Ok(StoreKind {
            kind: group.kind,
            generation: group.generation,
            values: KindValues::Known(values),
        })
    }

    /// The kinds that words say.
    pub(crate) fn kinds(
        &self,
        alloc: Global,
        groups: &List<GroupWords>,
    ) -> Result<List<StoreKind>, NoMemory> {
        let mut kinds = List::new(alloc);
        for group in groups.as_slice() {
            kinds.push(self.kind(alloc, group)?)?;
        }
        Ok(kinds)
    }
}
