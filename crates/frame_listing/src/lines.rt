//! The lines of a listing, each ended by a line feed. Where memory is missing, a part of the line
//! may stand in `out`.

ghost use Rattle.std.specs.Prelude.{◌≡◌, ◌++◌, OnOk};
ghost use Rattle.text_words.specs.Lines.{ended};
ghost use Rattle.frame_listing.specs.Lines.{field, payload_line, ack_line, end_line, fault_line};

use crate::label::{Label, name_of};
use reload_base::{Bytes, NoMemory};
use text_words::{put_decimal, put_number_in_hex};
use wire_core::Bad;

/// Appends a decimal behind its label.
#[tactic(auto, unfolding(crate::specs::Lines::field))]
pub(crate) fn put_field(out: &mut Bytes, label: Label, n: u64) -> Result<(), NoMemory>
    ensures { OnOk result (out.new ≡ out.old ++ field label n) }
{
    out.extend(label.text())?;
    put_decimal(out, n)
}

/// Appends `frame PLACE payload SEQ LENGTH`.
#[tactic(auto, unfolding(crate::specs::Lines::payload_line))]
pub(crate) fn put_payload_line(
    out: &mut Bytes,
    place: u64,
    sequence: u32,
    len: u64,
) -> Result<(), NoMemory>
    ensures { OnOk result (out.new ≡ out.old ++ ended (payload_line place sequence len)) }
{
    put_field(out, Label::Frame, place)?;
    put_field(out, Label::Payload, u64::from(sequence))?;
    out.push(b' ')?;
    put_decimal(out, len)?;
    out.push(b'\n')
}

/// Appends `frame PLACE ack SEQ MASK`.
#[tactic(auto, unfolding(crate::specs::Lines::ack_line))]
pub(crate) fn put_ack_line(
    out: &mut Bytes,
    place: u64,
    sequence: u32,
    received: u32,
) -> Result<(), NoMemory>
    ensures { OnOk result (out.new ≡ out.old ++ ended (ack_line place sequence received)) }
{
    put_field(out, Label::Frame, place)?;
    put_field(out, Label::Ack, u64::from(sequence))?;
    out.push(b' ')?;
    put_number_in_hex(out, received)?;
    out.push(b'\n')
}

/// Appends `end FRAMES BYTES`.
#[tactic(auto, unfolding(crate::specs::Lines::end_line))]
pub(crate) fn put_end_line(out: &mut Bytes, frames: u64, bytes: u64) -> Result<(), NoMemory>
    ensures { OnOk result (out.new ≡ out.old ++ ended (end_line frames bytes)) }
{
    put_field(out, Label::End, frames)?;
    out.push(b' ')?;
    put_decimal(out, bytes)?;
    out.push(b'\n')
}

/// Appends `bad PLACE REASON`.
#[tactic(auto, unfolding(crate::specs::Lines::fault_line))]
pub(crate) fn put_fault_line(out: &mut Bytes, fault: Bad) -> Result<(), NoMemory>
    ensures { OnOk result (out.new ≡ out.old ++ ended (fault_line fault)) }
{
    put_field(out, Label::Bad, fault.place)?;
    out.push(b' ')?;
    out.extend(name_of(fault.reason))?;
    out.push(b'\n')
}
