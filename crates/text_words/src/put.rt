//! Texts that are appended whole or not at all.

ghost use Rattle.std.specs.Prelude.{◌≡◌, length, take, OnOk, OnErr};

use reload_base::{Bytes, NoMemory};

/// Ends a call that appended a text in parts: where memory was missing for one, those before it are
/// cut off again, down to the length from before the call.
pub fn all_or_nothing(
    out: &mut Bytes,
    before: usize,
    appended: Result<(), NoMemory>,
) -> Result<(), NoMemory>
    ensures same { result ≡ appended }
    ensures ok { OnOk result (out.new ≡ out.old) }
    ensures err { OnErr result (out.new ≡ take before out.old) }
{
    if appended.is_err() {
        out.truncate(before);
    }
    appended
}
