//! Reading and writing the contents of a message.

ghost use Rattle.std.specs.Prelude.{◌≡◌, ◌≤◌, ◌++◌, ℕ, List, IfOk, Ok, Err};
ghost use Rattle.wire_core.specs.declared.bad.Bad.{Bad};
ghost use Rattle.wire_core.specs.declared.bad.DecodeFault.TheVariants as faults;
ghost use Rattle.wire_core.specs.Layout.{Follows, behind_text};
ghost use Rattle.wire_core.specs.Part.{end_of};
ghost use Rattle.wire_core.specs.Reading.{Decodes};
ghost use Rattle.message_bodies.specs.declared.contents.Contents.{Contents};
ghost use Rattle.message_bodies.specs.Contents.{contents, contents_at, IsSpelledContents, IsContentsInRange, IsContentsOf};

use crate::contents::Contents;
use data_models::Config;
use reload_base::{Bytes, NoMemory};
use std::alloc::Global;
use wire_core::{Cursor, DecodeFault, decode_by, encode};

/// Takes the contents of a message from the front of a part. After a refusal the place of the
/// cursor is open.
pub fn decode_contents(
    alloc: Global,
    config: &Config,
    c: &mut Cursor<'_>,
) -> Result<Contents, DecodeFault>
    // What is read is spelled so, and is of this configuration.
    ensures found { IfOk result (λ v. (IsSpelledContents v × (IsContentsInRange v
        × IsContentsOf config.now v))
        × Follows c.old (contents v) c.new) }
    // What is spelled so and is of this configuration is read, unless memory runs out.
    ensures only { (v : Contents) (rest : List ℕ) → IsSpelledContents v → IsContentsInRange v
        × IsContentsOf config.now v
        → c.old.bytes ≡ contents v ++ rest → Decodes result c.new (Ok (
          v,
          behind_text
              (contents v) rest c.old,
        )) }
    // Which contents or fault it is.
    ensures exact { Decodes result c.new (contents_at config.now c.old) }
    // A fault lies in the part, or at its end.
    ensures within { (bad : Bad) → result ≡ Err (faults.Bad bad) → bad.place ≤ end_of c.old }
{
    decode_by(alloc, config, c)
}

/// The one spelling of the contents of a message. `Contents::fits` says whether they have one.
pub fn encode_contents(alloc: Global, v: &Contents) -> Result<Bytes, NoMemory>
    requires { IsSpelledContents v.now }
    ensures { IfOk result (λ bytes. bytes ≡ contents v.now) }
{
    encode(alloc, v)
}
