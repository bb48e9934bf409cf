//! Which values of a kind are asked for, on the wire (RFC 6940, section 7.4.2.1).

ghost use Rattle.std.specs.Prelude.{◌≡◌, ◌-◌, ◌≤◌, ◌^◌, ◌++◌, ◌↔◌, ℕ, List, Ok, Err, IsTrue, IfOk, OnOk, OnErr, length, min, take};
ghost use Rattle.wire_core.specs.declared.bad.Bad.{Bad};
ghost use Rattle.wire_core.specs.declared.bad.DecodeFault.TheVariants as faults;
ghost use Rattle.wire_core.specs.Layout.{Follows, behind_text};
ghost use Rattle.wire_core.specs.Part.{end_of};
ghost use Rattle.wire_core.specs.Reading.{Decodes};
ghost use Rattle.data_models.specs.declared.fetched.Specifier.{Specifier};
ghost use Rattle.data_models.specs.Specifiers.{selector, selector_at, IsSpelledSelector, specifier, specifier_at, IsSpelledSpecifier, IsSpecifierInRange, IsSpecifierOf};
ghost use Rattle.data_models.specs.Laws.Specifiers.{specifier_is_layout, specifier-some};

use crate::config::{Config, DataModel};
use crate::fetched::{Selector, Specifier};
use reload_base::{Bytes, NoMemory};
use std::alloc::Global;
use wire_core::{
    Cursor, DecodeFault, Decoder, Spell, decode_by, list_fits, list_len, put_length, put_u32,
    put_u64, put_vector, put_whole, take_rest, take_vector,
};

impl Spell for Specifier {
    ghost spelling = { specifier };

    ghost is_spelled = { IsSpelledSpecifier };

    fn fits(&self) -> bool {
        selector_fits(&self.selector) && selector_len(&self.selector) < 0x1_0000
    }

    #[tactic(auto, using(crate::proofs::Lengths::laws))]
    fn len(&self) -> u64 {
        selector_len(&self.selector).saturating_add(14)
    }

    #[tactic(auto, using(wire_core::proofs::Puts::fronts), unfolding(crate::specs::Specifiers::specifier))]
    fn put(&self, out: &mut Bytes) -> Result<(), NoMemory> {
        put_u32(out, self.kind)?;
        put_u64(out, self.generation)?;
        put_length(out, 2, selector_len(&self.selector))?;
        put_selector(out, &self.selector)
    }

    ghost has_a_byte = { λ v _. specifier-some v };
}

/// A selector of a kind that a configuration defines is read by its model, and that of another kind
/// is any bytes.
impl Decoder<Specifier> for Config {
    ghost in_range = { λ config v. IsSpecifierInRange v × IsSpecifierOf config v };

    ghost reading = { specifier_at };

    #[tactic(auto, unfolding(crate::specs::Specifiers::specifier_at, wire_core::specs::Reading::vector_at))]
    fn take(&self, alloc: Global, from: &mut Cursor<'_>) -> Result<Specifier, DecodeFault> {
        let kind = from.take_u32()?;
        let generation = from.take_u64()?;
        let mut part = from.take_part(2)?;
        let selector = take_selector(alloc, self.model(kind), &mut part)?;
        part.finish()?;
        Ok(Specifier {
            kind,
            generation,
            selector,
        })
    }

    ghost is_layout = { specifier_is_layout };
}

/// Takes the selector that fills a part, of a kind with a model, or without a definition.
#[tactic(auto, unfolding(crate::specs::Specifiers::selector_at))]
fn take_selector(
    alloc: Global,
    model: Option<DataModel>,
    from: &mut Cursor<'_>,
) -> Result<Selector, DecodeFault>
    ensures { Decodes result from.new (selector_at model from.old) }
{
    match model {
        Some(DataModel::Single) => Ok(Selector::Whole),
        Some(DataModel::Array) => Ok(Selector::Ranges(take_vector(alloc, from, 2)?)),
        Some(DataModel::Dictionary) => Ok(Selector::Names(take_vector(alloc, from, 2)?)),
        None => Ok(Selector::Raw(take_rest(alloc, from)?)),
    }
}

fn selector_fits(v: &Selector) -> bool
    ensures { IsTrue result ↔ IsSpelledSelector v.now }
{
    match v {
        Selector::Whole | Selector::Raw(_) => true,
        Selector::Ranges(list) => list_len(list) < 0x1_0000,
        Selector::Names(list) => list_len(list) < 0x1_0000 && list_fits(list),
    }
}

/// The number of bytes of a selector, or `u64::MAX` where there are more.
#[tactic(auto, using(wire_core::proofs::Puts::lengths), unfolding(crate::specs::Specifiers::selector))]
fn selector_len(v: &Selector) -> u64
    ensures { result ≡ min (length (selector v.now)) (2 ^ 64 - 1) }
{
    match v {
        Selector::Whole => 0,
        Selector::Ranges(list) => list_len(list).saturating_add(2),
        Selector::Names(list) => list_len(list).saturating_add(2),
        Selector::Raw(bytes) => bytes.len() as u64,
    }
}

/// Adds the bytes of a selector. After `NoMemory` the bytes still begin with what was there.
#[tactic(auto, using(wire_core::proofs::Puts::fronts), unfolding(crate::specs::Specifiers::selector))]
fn put_selector(out: &mut Bytes, v: &Selector) -> Result<(), NoMemory>
    requires { IsSpelledSelector v.now }
    ensures ok { OnOk result (out.new ≡ out.old ++ selector v.now) }
    ensures err { OnErr result (take (length out.old) out.new ≡ out.old) }
{
    match v {
        Selector::Whole => Ok(()),
        Selector::Ranges(list) => put_vector(out, 2, list),
        Selector::Names(list) => put_vector(out, 2, list),
        Selector::Raw(bytes) => out.extend(bytes.as_slice()),
    }
}

/// Takes a specifier from the front of a part. Any bytes are a selector of a kind that the
/// configuration lacks, and are read again as they are only under one that lacks it. After a
/// refusal the place of the cursor is open.
pub fn take_specifier(
    alloc: Global,
    config: &Config,
    c: &mut Cursor<'_>,
) -> Result<Specifier, DecodeFault>
    // What is read is spelled so, and is of this configuration.
    ensures found { IfOk result (λ v.
        (IsSpelledSpecifier v × (IsSpecifierInRange v × IsSpecifierOf config.now v))
        × Follows c.old (specifier v) c.new) }
    // What is spelled so and is of this configuration is read, unless memory runs out.
    ensures only { (v : Specifier) (rest : List ℕ) → IsSpelledSpecifier v
        → IsSpecifierInRange v × IsSpecifierOf config.now v → c.old.bytes ≡ specifier v ++ rest
        → Decodes result c.new (Ok (v, behind_text (specifier v) rest c.old)) }
    // Which specifier or fault it is.
    ensures exact { Decodes result c.new (specifier_at config.now c.old) }
    // A fault lies in the part, or at its end.
    ensures within { (bad : Bad) → result ≡ Err (faults.Bad bad) → bad.place ≤ end_of c.old }
{
    decode_by(alloc, config, c)
}

/// Adds a specifier, which is spelled by its selector. `fits` says whether it has a spelling. After
/// `NoMemory` the bytes are as before.
pub fn put_specifier(out: &mut Bytes, v: &Specifier) -> Result<(), NoMemory>
    requires { IsSpelledSpecifier v.now }
    ensures ok { OnOk result (out.new ≡ out.old ++ specifier v.now) }
    ensures err { OnErr result (out.new ≡ out.old) }
{
    put_whole(out, v)
}
