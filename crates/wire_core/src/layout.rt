//! Structures of the wire: what they spell, and how they are read.
//!
//! How a layout is added, with `SecurityBlock` and its certificates as the model:
//!
//! 1. Its definitions, in `specs/`: its spelling (`joined`, one field after the other in the order
//!    of its table, a vector as `vector n (flat_map entry entries)`), whether each length fits its
//!    field, whether each number is one of its type, and its reading (a `do` chain of words, field
//!    by field, a vector as `vector_at n (list_at entry_at)`).
//! 2. `impl Spell` and `impl Layout`, whose `put` and `take` are the same chains of `?`.
//! 3. Its law, in `specs/Laws/`: the fields put together by `seq`, each with the law of its word
//!    (`number_laid`, `vector_laid`, `vector_of`, `known` for a structure), ended by `done_laid`.
//!    A value of several forms behind a code has `forms_laid`, with one line a form. The place of
//!    faults comes along.
//! 4. Its public calls: `decode`, `decode_whole`, `put_whole` and `encode` give them, and the
//!    contracts follow from the laws.
//!
//! Where a layout depends on more than its bytes, `Decoder` stands in the place of `Layout`.

ghost use Rattle.std.specs.Prelude.{◌≡◌, ◌+◌, ◌-◌, ◌^◌, ◌<◌, ◌≤◌, ◌↔◌, ◌++◌, ℕ, List, length, min, take, Result, Ok, Err, IsTrue, IfOk, OnOk, OnErr};
ghost use Rattle.wire_core.specs.declared.bad.Bad.{Bad};
ghost use Rattle.wire_core.specs.declared.bad.DecodeFault.TheVariants as faults;
ghost use Rattle.wire_core.specs.Layout.{Follows, behind_text, IsLayout};
ghost use Rattle.wire_core.specs.Part.{Part, end_of};
ghost use Rattle.wire_core.specs.Reading.{Decodes, Gives, whole_of};

use crate::bad::DecodeFault;
use crate::cursor::Cursor;
use crate::put::cut_back;
use reload_base::{Bytes, NoMemory};
use std::alloc::Global;

/// A structure with one spelling, of a byte at least.
pub trait Spell: Sized + Drop {
    /// Its bytes.
    ghost spelling: { Self → List ℕ };

    /// Whether it has any: whether each of its vectors is short enough for its length.
    ghost is_spelled: { Self → Type 0 };

    /// Whether it has a spelling.
    fn fits(&self) -> bool
        ensures { IsTrue result ↔ is_spelled self.now };

    /// The number of bytes of its spelling, or `u64::MAX` where there are more.
    fn len(&self) -> u64
        ensures { result ≡ min (length (spelling self.now)) (2 ^ 64 - 1) };

    /// Adds its spelling. After `NoMemory` the bytes still begin with what was there.
    fn put(&self, out: &mut Bytes) -> Result<(), NoMemory>
        requires { is_spelled self.now }
        ensures ok { OnOk result (out.new ≡ out.old ++ spelling self.now) }
        ensures err { OnErr result (take (length out.old) out.new ≡ out.old) };

    /// Its spelling has a byte at least.
    ghost has_a_byte: { (x : Self) → is_spelled x → 0 < length (spelling x) };
}

/// A structure that is read from the front of a part.
pub trait Layout: Spell {
    /// Whether each of its numbers is one of its type.
    ghost in_range: { Self → Type 0 };

    /// What the front of a part spells, or the first fault.
    ghost reading: { Part → Result (Self × Part) Bad };

    /// Takes one from the front of a part.
    fn take(alloc: Global, from: &mut Cursor<'_>) -> Result<Self, DecodeFault>
        ensures { Decodes result from.new (reading from.old) };

    /// It is read as it is spelled, and nothing else is.
    ghost is_layout: { IsLayout (λ x. Self.is_spelled x × in_range x) Self.spelling reading };
}

/// What reads a structure whose layout depends on more than its bytes, as on a configuration.
pub trait Decoder<T: Spell> {
    /// Whether each number of a structure is one of its type, and the structure one that is read
    /// so.
    ghost in_range: { Self → T → Type 0 };

    /// What the front of a part spells, or the first fault.
    ghost reading: { Self → Part → Result (T × Part) Bad };

    /// Takes one from the front of a part.
    fn take(&self, alloc: Global, from: &mut Cursor<'_>) -> Result<T, DecodeFault>
        ensures { Decodes result from.new (reading self.now from.old) };

    /// It is read as it is spelled, and nothing else is.
    ghost is_layout: { (d : Self) →
        IsLayout (λ x. T.is_spelled x × in_range d x) T.spelling (reading d) };
}

/// Reads each structure by its own layout.
#[derive(Clone, Copy, Debug)]
pub struct Plain;

impl<T: Layout> Decoder<T> for Plain {
    ghost in_range = { λ _. T.in_range };

    ghost reading = { λ _. T.reading };

    fn take(&self, alloc: Global, from: &mut Cursor<'_>) -> Result<T, DecodeFault> {
        T::take(alloc, from)
    }

    ghost is_layout = { λ _. T.is_layout };
}

/// Takes a structure from the front of a part, by a decoder. After a refusal the place of the
/// cursor is open.
pub fn decode_by<T: Spell, D: Decoder<T>>(
    alloc: Global,
    decoder: &D,
    from: &mut Cursor<'_>,
) -> Result<T, DecodeFault>
    // What is read is spelled so.
    ensures found { IfOk result (λ x. (T.is_spelled x × D.in_range decoder.now x)
        × Follows from.old (T.spelling x) from.new) }
    // What is spelled so is read, unless memory runs out.
    ensures only { (x : T) (rest : List ℕ) → T.is_spelled x → D.in_range decoder.now x
        → from.old.bytes ≡ T.spelling x ++ rest
        → Decodes result from.new (Ok (x, behind_text (T.spelling x) rest from.old)) }
    // Which structure or fault it is.
    ensures exact { Decodes result from.new (D.reading decoder.now from.old) }
    // A fault lies in the part, or at its end.
    ensures within { (bad : Bad) → result ≡ Err (faults.Bad bad) → bad.place ≤ end_of from.old }
{
    from.are_bytes();
    decoder.take(alloc, from)
}

/// Takes a structure from the front of a part. After a refusal the place of the cursor is open.
pub fn decode<T: Layout>(alloc: Global, from: &mut Cursor<'_>) -> Result<T, DecodeFault>
    // What is read is spelled so.
    ensures found { IfOk result (λ x. (T.is_spelled x × T.in_range x)
        × Follows from.old (T.spelling x) from.new) }
    // What is spelled so is read, unless memory runs out.
    ensures only { (x : T) (rest : List ℕ) → T.is_spelled x → T.in_range x
        → from.old.bytes ≡ T.spelling x ++ rest
        → Decodes result from.new (Ok (x, behind_text (T.spelling x) rest from.old)) }
    // Which structure or fault it is.
    ensures exact { Decodes result from.new (T.reading from.old) }
    // A fault lies in the part, or at its end.
    ensures within { (bad : Bad) → result ≡ Err (faults.Bad bad) → bad.place ≤ end_of from.old }
{
    decode_by(alloc, &Plain, from)
}

fn take_all<T: Layout>(alloc: Global, bytes: &[u8]) -> Result<T, DecodeFault>
    ensures { Gives result (whole_of T.reading bytes.now) }
{
    let mut from = Cursor::new(bytes, 0);
    let value = T::take(alloc, &mut from)?;
    from.finish()?;
    Ok(value)
}

/// Takes a structure that some bytes are as a whole. Faults count their place from the first of
/// them.
pub fn decode_whole<T: Layout>(alloc: Global, bytes: &[u8]) -> Result<T, DecodeFault>
    // What is read is spelled so.
    ensures found { IfOk result (λ x. (T.is_spelled x × T.in_range x)
        × (bytes.now ≡ T.spelling x)) }
    // What is spelled so is read, unless memory runs out.
    ensures only { (x : T) → T.is_spelled x → T.in_range x → bytes.now ≡ T.spelling x
        → Gives result (Ok x) }
    // Which structure or fault it is.
    ensures exact { Gives result (whole_of T.reading bytes.now) }
    // A fault lies in the bytes, or at their end.
    ensures within { (bad : Bad) → result ≡ Err (faults.Bad bad) → bad.place ≤ length bytes.now }
{
    take_all(alloc, bytes)
}

/// Adds a structure's spelling. After `NoMemory` the bytes are as before.
pub fn put_whole<T: Spell>(out: &mut Bytes, value: &T) -> Result<(), NoMemory>
    requires { T.is_spelled value.now }
    ensures ok { OnOk result (out.new ≡ out.old ++ T.spelling value.now) }
    ensures err { OnErr result (out.new ≡ out.old) }
{
    let len = out.len();
    let put = value.put(out);
    cut_back(out, len, put)
}

/// The one spelling of a structure.
pub fn encode<T: Spell>(alloc: Global, value: &T) -> Result<Bytes, NoMemory>
    requires { T.is_spelled value.now }
    ensures { IfOk result (λ bytes. bytes ≡ T.spelling value.now) }
{
    let mut out = Bytes::new(alloc);
    value.put(&mut out)?;
    Ok(out)
}
