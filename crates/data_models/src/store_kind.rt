//! Kinds with their values on the wire (RFC 6940, sections 7.4.1.1 and 7.4.2.2).

ghost use Rattle.std.specs.Prelude.{◌≡◌, ◌-◌, ◌≤◌, ◌^◌, ◌++◌, ◌↔◌, ℕ, List, Ok, Err, IsTrue, IfOk, OnOk, OnErr, length, min, take};
ghost use Rattle.wire_core.specs.declared.bad.Bad.{Bad};
ghost use Rattle.wire_core.specs.declared.bad.DecodeFault.TheVariants as faults;
ghost use Rattle.wire_core.specs.Layout.{Follows, behind_text};
ghost use Rattle.wire_core.specs.Part.{end_of};
ghost use Rattle.wire_core.specs.Reading.{Decodes};
ghost use Rattle.data_models.specs.declared.fetched.StoreKind.{StoreKind};
ghost use Rattle.data_models.specs.StoreKinds.{values, values_at, AreSpelledValues, store_kind, store_kind_at, IsSpelledStoreKind, IsStoreKindInRange, IsStoreKindOf};
ghost use Rattle.data_models.specs.Laws.StoreKinds.{store_kind_is_layout, store_kind-some};

use crate::config::{Config, DataModel};
use crate::fetched::{KindValues, StoreKind};
use reload_base::{Bytes, NoMemory};
use std::alloc::Global;
use wire_core::{
    Cursor, DecodeFault, Decoder, Spell, decode_by, list_fits, list_len, put_length, put_list,
    put_u32, put_u64, put_whole, take_list_by, take_rest,
};

impl Spell for StoreKind {
    ghost spelling = { store_kind };

    ghost is_spelled = { IsSpelledStoreKind };

    fn fits(&self) -> bool {
        values_fit(&self.values) && values_len(&self.values) < 0x1_0000_0000
    }

    #[tactic(auto, using(crate::proofs::Lengths::laws))]
    fn len(&self) -> u64 {
        values_len(&self.values).saturating_add(16)
    }

    #[tactic(auto, using(wire_core::proofs::Puts::fronts), unfolding(crate::specs::StoreKinds::store_kind))]
    fn put(&self, out: &mut Bytes) -> Result<(), NoMemory> {
        put_u32(out, self.kind)?;
        put_u64(out, self.generation)?;
        put_length(out, 4, values_len(&self.values))?;
        put_values(out, &self.values)
    }

    ghost has_a_byte = { λ v _. store_kind-some v };
}

/// Values of a kind that a configuration defines are read by its model, and those of another kind
/// are any bytes.
impl Decoder<StoreKind> for Config {
    ghost in_range = { λ config v. IsStoreKindInRange v × IsStoreKindOf config v };

    ghost reading = { store_kind_at };

    #[tactic(auto, unfolding(crate::specs::StoreKinds::store_kind_at, wire_core::specs::Reading::vector_at))]
    fn take(&self, alloc: Global, from: &mut Cursor<'_>) -> Result<StoreKind, DecodeFault> {
        let kind = from.take_u32()?;
        let generation = from.take_u64()?;
        let mut part = from.take_part(4)?;
        let values = take_values(alloc, self.model(kind), &mut part)?;
        part.finish()?;
        Ok(StoreKind {
            kind,
            generation,
            values,
        })
    }

    ghost is_layout = { store_kind_is_layout };
}

/// Takes the values that fill a part, of a kind with a model, or without a definition.
#[tactic(auto, unfolding(crate::specs::StoreKinds::values_at))]
fn take_values(
    alloc: Global,
    model: Option<DataModel>,
    from: &mut Cursor<'_>,
) -> Result<KindValues, DecodeFault>
    ensures { Decodes result from.new (values_at model from.old) }
{
    match model {
        Some(model) => Ok(KindValues::Known(take_list_by(alloc, &model, from)?)),
        None => Ok(KindValues::Raw(take_rest(alloc, from)?)),
    }
}

fn values_fit(v: &KindValues) -> bool
    ensures { IsTrue result ↔ AreSpelledValues v.now }
{
    match v {
        KindValues::Known(list) => list_fits(list),
        KindValues::Raw(_) => true,
    }
}

/// The number of bytes of values, or `u64::MAX` where there are more.
#[tactic(auto, unfolding(crate::specs::StoreKinds::values))]
fn values_len(v: &KindValues) -> u64
    ensures { result ≡ min (length (values v.now)) (2 ^ 64 - 1) }
{
    match v {
        KindValues::Known(list) => list_len(list),
        KindValues::Raw(bytes) => bytes.len() as u64,
    }
}

/// Adds the bytes of values. After `NoMemory` the bytes still begin with what was there.
#[tactic(auto, using(wire_core::proofs::Puts::fronts), unfolding(crate::specs::StoreKinds::values))]
fn put_values(out: &mut Bytes, v: &KindValues) -> Result<(), NoMemory>
    requires { AreSpelledValues v.now }
    ensures ok { OnOk result (out.new ≡ out.old ++ values v.now) }
    ensures err { OnErr result (take (length out.old) out.new ≡ out.old) }
{
    match v {
        KindValues::Known(list) => put_list(out, list),
        KindValues::Raw(bytes) => out.extend(bytes.as_slice()),
    }
}

/// Takes a kind of a Store from the front of a part. Any bytes are values of a kind that the
/// configuration lacks, and are read again as they are only under one that lacks it. After a
/// refusal the place of the cursor is open.
pub fn take_store_kind(
    alloc: Global,
    config: &Config,
    c: &mut Cursor<'_>,
) -> Result<StoreKind, DecodeFault>
    // What is read is spelled so, and is of this configuration.
    ensures found { IfOk result (λ v.
        (IsSpelledStoreKind v × (IsStoreKindInRange v × IsStoreKindOf config.now v))
        × Follows c.old (store_kind v) c.new) }
    // What is spelled so and is of this configuration is read, unless memory runs out.
    ensures only { (v : StoreKind) (rest : List ℕ) → IsSpelledStoreKind v
        → IsStoreKindInRange v × IsStoreKindOf config.now v → c.old.bytes ≡ store_kind v ++ rest
        → Decodes result c.new (Ok (v, behind_text (store_kind v) rest c.old)) }
    // Which kind or fault it is.
    ensures exact { Decodes result c.new (store_kind_at config.now c.old) }
    // A fault lies in the part, or at its end.
    ensures within { (bad : Bad) → result ≡ Err (faults.Bad bad) → bad.place ≤ end_of c.old }
{
    decode_by(alloc, config, c)
}

/// Adds a kind with its values, each of which is spelled by its key. `fits` says whether it has a
/// spelling. After `NoMemory` the bytes are as before.
pub fn put_store_kind(out: &mut Bytes, v: &StoreKind) -> Result<(), NoMemory>
    requires { IsSpelledStoreKind v.now }
    ensures ok { OnOk result (out.new ≡ out.old ++ store_kind v.now) }
    ensures err { OnErr result (out.new ≡ out.old) }
{
    put_whole(out, v)
}
