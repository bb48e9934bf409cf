//! Reading and writing the bytes of a note.

ghost use Rattle.std.specs.Prelude.{◌≡◌, ◌≤◌, length, IfOk, Ok, Err};
ghost use Rattle.wire_core.specs.declared.bad.Bad.{Bad};
ghost use Rattle.wire_core.specs.declared.bad.DecodeFault.TheVariants as faults;
ghost use Rattle.wire_core.specs.Reading.{Gives, whole_of};
ghost use Rattle.peer_note.specs.declared.note.PeerNote.{PeerNote};
ghost use Rattle.peer_note.specs.Notes.{note, note_at, IsSpelledNote, IsNoteInRange};

use crate::note::PeerNote;
use reload_base::{Bytes, NoMemory};
use std::alloc::Global;
use wire_core::{DecodeFault, decode_whole, encode};

/// The note that some bytes are. A fault's place is counted from their front. Whether the note
/// agrees with its message is left to who uses it.
pub fn decode_note(alloc: Global, bytes: &[u8]) -> Result<PeerNote, DecodeFault>
    // What is read is spelled so.
    ensures found { IfOk result (λ n. (IsSpelledNote n × IsNoteInRange n) × (bytes.now ≡ note n)) }
    // What is spelled so is read, unless memory runs out.
    ensures only { (n : PeerNote) → IsSpelledNote n → IsNoteInRange n → bytes.now ≡ note n
        → Gives result (Ok n) }
    // Which note or fault it is.
    ensures exact { Gives result (whole_of note_at bytes.now) }
    // A fault lies in the bytes, or at their end.
    ensures within { (bad : Bad) → result ≡ Err (faults.Bad bad) → bad.place ≤ length bytes.now }
{
    decode_whole(alloc, bytes)
}

/// The one spelling of a note. `PeerNote::fits` says whether it has one: its turn and the
/// generations of its kinds are below `TURN_LIMIT`, and its lists within their lengths.
pub fn encode_note(alloc: Global, n: &PeerNote) -> Result<Bytes, NoMemory>
    requires { IsSpelledNote n.now }
    ensures { IfOk result (λ bytes. bytes ≡ note n.now) }
{
    encode(alloc, n)
}
