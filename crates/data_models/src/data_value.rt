//! Values, and whether they exist (RFC 6940, section 7.2).

ghost use Rattle.std.specs.Prelude.{◌≡◌, ◌+◌, ◌^◌, ◌<◌, ◌≤◌, ◌↔◌, ◌++◌, ℕ, Bool, List, IsTrue, IfOk, OnOk, OnErr, Ok, Err, length, take};
ghost use Rattle.wire_core.specs.declared.bad.Bad.{Bad};
ghost use Rattle.wire_core.specs.declared.bad.DecodeFault.TheVariants as faults;
ghost use Rattle.wire_core.specs.Layout.{Follows, behind_text};
ghost use Rattle.wire_core.specs.Part.{end_of};
ghost use Rattle.wire_core.specs.Reading.{Decodes};
ghost use Rattle.wire_core.specs.Spelling.{AreBytes};
ghost use Rattle.data_models.specs.Stored.{data_value, data_value_at, IsSpelledData};

use reload_base::{Bytes, NoMemory};
use std::alloc::Global;
use wire_core::{Cursor, DecodeFault, Reason, allowed, put_boolean, put_bytes, take_bytes};

#[tactic(auto, unfolding(crate::specs::Stored::data_value_at))]
fn read_data_value(alloc: Global, c: &mut Cursor<'_>) -> Result<(bool, Bytes), DecodeFault>
    ensures { Decodes result c.new (data_value_at c.old) }
{
    let present = c.take_boolean()?;
    let place = c.place();
    let value = take_bytes(alloc, c, 4)?;
    allowed(present || value.is_empty(), place, Reason::BadValue)?;
    Ok((present, value))
}

/// Takes a DataValue from the front of a part: whether there is a value, and its bytes, which are
/// none where it doesn't exist. After a refusal the place of the cursor is open.
pub fn take_data_value(alloc: Global, c: &mut Cursor<'_>) -> Result<(bool, Bytes), DecodeFault>
    // What is read is spelled so.
    ensures found { IfOk result (λ datum. (IsSpelledData datum × AreBytes datum.1)
        × Follows c.old (data_value datum) c.new) }
    // What is spelled so is read, unless memory runs out.
    ensures only { (datum : Bool × List ℕ) (rest : List ℕ) → IsSpelledData datum → AreBytes datum.1
        → c.old.bytes ≡ data_value datum ++ rest
        → Decodes result c.new (Ok (datum, behind_text (data_value datum) rest c.old)) }
    // Which value or fault it is.
    ensures exact { Decodes result c.new (data_value_at c.old) }
    // A fault lies in the part, or at its end.
    ensures within { (bad : Bad) → result ≡ Err (faults.Bad bad) → bad.place ≤ end_of c.old }
{
    c.are_bytes();
    read_data_value(alloc, c)
}

/// Whether a value has a spelling.
pub(crate) fn data_fits(present: bool, value: &Bytes) -> bool
    ensures { IsTrue result ↔ IsSpelledData (present, value.now) }
{
    value.len() < 0x1_0000_0000 && (present || value.is_empty())
}

/// Adds a DataValue. After `NoMemory` the bytes still begin with what was there.
#[tactic(auto, using(wire_core::proofs::Puts::fronts), unfolding(crate::specs::Stored::data_value))]
pub(crate) fn put_data_value(out: &mut Bytes, present: bool, value: &Bytes) -> Result<(), NoMemory>
    requires { IsSpelledData (present, value.now) }
    ensures ok { OnOk result (out.new ≡ out.old ++ data_value (present, value.now)) }
    ensures err { OnErr result (take (length out.old) out.new ≡ out.old) }
{
    put_boolean(out, present)?;
    put_bytes(out, 4, value.as_slice())
}
