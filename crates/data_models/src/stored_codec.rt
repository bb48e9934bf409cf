//! StoredData on the wire (RFC 6940, section 7).

ghost use Rattle.std.specs.Prelude.{◌≡◌, ◌+◌, ◌-◌, ◌^◌, ◌++◌, ◌↔◌, IsTrue, IfOk, OnOk, OnErr, length, min, take};
ghost use Rattle.wire_core.specs.Reading.{Decodes};
ghost use Rattle.wire_core.specs.Signature.{signature};
ghost use Rattle.data_models.specs.declared.stored_data.SlotKey.{SlotKey};
ghost use Rattle.data_models.specs.declared.stored_data.StoredData.{StoredData};
ghost use Rattle.data_models.specs.Stored.{IsSpelledValue, signed_part, stored_value, stored_content, stored_content_at, stored, stored_at, IsSpelledStored, IsStoredInRange, IsStoredOf, stored_size, key_size, IsSpelledKey, gap};
ghost use Rattle.data_models.specs.Laws.Stored.{stored_is_layout, stored-some};

use crate::config::DataModel;
use crate::data_value::{data_fits, put_data_value, take_data_value};
use crate::slot_key::{key_fits, key_len, put_key, take_key};
use crate::stored_data::{SlotKey, StoredData};
use reload_base::{Bytes, NoMemory};
use reload_ids::ResourceId;
use std::alloc::Global;
use wire_core::{
    Cursor, DecodeFault, Decoder, Layout, Signature, Spell, put_length, put_u32, put_u64, put_u128,
};

impl Spell for StoredData {
    ghost spelling = { stored };

    ghost is_spelled = { IsSpelledStored };

    fn fits(&self) -> bool {
        self.value_fits() && self.signature.fits() && content_len(self) < 0x1_0000_0000
    }

    #[tactic(auto, using(crate::proofs::Lengths::laws))]
    fn len(&self) -> u64 {
        content_len(self).saturating_add(4)
    }

    #[tactic(auto, using(wire_core::proofs::Puts::fronts), unfolding(crate::specs::Stored::stored))]
    fn put(&self, out: &mut Bytes) -> Result<(), NoMemory> {
        put_length(out, 4, content_len(self))?;
        put_content(out, self)
    }

    ghost has_a_byte = { λ v _. stored-some v };
}

/// A StoredData is read by the model of its kind.
impl Decoder<StoredData> for DataModel {
    ghost in_range = { λ model v. IsStoredInRange v × IsStoredOf model v };

    ghost reading = { stored_at };

    #[tactic(auto, unfolding(crate::specs::Stored::stored_at, wire_core::specs::Reading::vector_at))]
    fn take(&self, alloc: Global, from: &mut Cursor<'_>) -> Result<StoredData, DecodeFault> {
        let mut part = from.take_part(4)?;
        let stored = take_content(alloc, *self, &mut part)?;
        part.finish()?;
        Ok(stored)
    }

    ghost is_layout = { stored_is_layout };
}

/// What the length of a StoredData counts.
#[tactic(auto, unfolding(crate::specs::Stored::stored_content_at))]
fn take_content(
    alloc: Global,
    model: DataModel,
    from: &mut Cursor<'_>,
) -> Result<StoredData, DecodeFault>
    ensures { Decodes result from.new (stored_content_at model from.old) }
{
    let storage_time = from.take_u64()?;
    let lifetime = from.take_u32()?;
    let key = take_key(alloc, model, from)?;
    let (present, value) = take_data_value(alloc, from)?;
    let signature = Signature::take(alloc, from)?;
    Ok(StoredData {
        key,
        storage_time,
        lifetime,
        present,
        value,
        signature,
    })
}

/// The number that the length of a StoredData is, or `u64::MAX` where it is more.
#[tactic(auto, using(crate::proofs::Lengths::laws))]
fn content_len(v: &StoredData) -> u64
    ensures { result ≡ min (length (stored_content v.now)) (2 ^ 64 - 1) }
{
    key_len(&v.key)
        .saturating_add(v.value.len() as u64)
        .saturating_add(v.signature.len())
        .saturating_add(17)
}

/// Adds what the length of a StoredData counts. After `NoMemory` the bytes still begin with what
/// was there.
#[tactic(auto, using(wire_core::proofs::Puts::fronts), unfolding(crate::specs::Stored::stored_content))]
fn put_content(out: &mut Bytes, v: &StoredData) -> Result<(), NoMemory>
    requires { IsSpelledStored v.now }
    ensures ok { OnOk result (out.new ≡ out.old ++ stored_content v.now) }
    ensures err { OnErr result (take (length out.old) out.new ≡ out.old) }
{
    put_u64(out, v.storage_time)?;
    put_u32(out, v.lifetime)?;
    put_stored_value(out, v)?;
    v.signature.put(out)
}

/// Adds a StoredDataValue. After `NoMemory` the bytes still begin with what was there.
#[tactic(auto, using(wire_core::proofs::Puts::fronts), unfolding(crate::specs::Stored::stored_value))]
fn put_stored_value(out: &mut Bytes, v: &StoredData) -> Result<(), NoMemory>
    requires { IsSpelledValue v.now }
    ensures ok { OnOk result (out.new ≡ out.old ++ stored_value v.now) }
    ensures err { OnErr result (take (length out.old) out.new ≡ out.old) }
{
    put_key(out, &v.key)?;
    put_data_value(out, v.present, &v.value)
}

impl StoredData {
    /// Whether its StoredDataValue has a spelling, so that it can be signed.
    pub fn value_fits(&self) -> bool
        ensures { IsTrue result ↔ IsSpelledValue self.now }
    {
        key_fits(&self.key) && data_fits(self.present, &self.value)
    }

    /// The bytes of the whole StoredData. `fits` says whether it has a spelling.
    #[tactic(auto, using(crate::proofs::Lengths::laws))]
    pub fn size(&self) -> u64
        requires { IsSpelledStored self.now }
        ensures { result ≡ stored_size self.now }
    {
        self.len()
    }
}

/// The size of what a Fetch gives for a slot where no value is. It takes no memory.
#[tactic(auto, using(crate::proofs::Lengths::laws))]
pub fn gap_size(key: &SlotKey) -> u64
    requires { IsSpelledKey key.now }
    ensures { result ≡ stored_size (gap key.now) }
{
    28 + key_len(key)
}

/// With a signature of 73 bytes, as the stand-in signer's, a StoredData has 94 bytes in a single
/// kind, 98 in an array, and 96 and its key's in a dictionary, each beside its value's. A gap has
/// 28, 32, and 30 and its key's.
pub fn sizes()
    ensures stored { (v : StoredData) → length (signature v.signature) ≡ 73
        → stored_size v ≡ 94 + key_size v.key + length v.value }
    ensures gaps { (key : SlotKey) → stored_size (gap key) ≡ 28 + key_size key }
{}

/// What the signature of a value signs, up to the SignerIdentity, which a signer adds (RFC 6940,
/// section 7.1): the Resource-ID without its length, the Kind-ID, the storage time and the
/// StoredDataValue. `StoredData::value_fits` says whether that has a spelling.
#[tactic(auto, using(wire_core::proofs::Puts::fronts), unfolding(crate::specs::Stored::signed_part))]
pub fn signed_bytes(
    alloc: Global,
    resource: ResourceId,
    kind: u32,
    v: &StoredData,
) -> Result<Bytes, NoMemory>
    requires { IsSpelledValue v.now }
    ensures { IfOk result (λ bytes. bytes ≡ signed_part resource.0 kind v.now) }
{
    let mut out = Bytes::new(alloc);
    put_u128(&mut out, resource.0)?;
    put_u32(&mut out, kind)?;
    put_u64(&mut out, v.storage_time)?;
    put_stored_value(&mut out, v)?;
    Ok(out)
}
