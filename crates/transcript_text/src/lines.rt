//! The last lines of a command that doesn't come to its end.

ghost use Rattle.std.specs.Prelude.{◌≡◌};
ghost use Rattle.text_words.specs.Codec.{Appended, AppendedSome};
ghost use Rattle.text_words.specs.Lines.{ended};
ghost use Rattle.transcript_text.specs.Transcript.{bad_line, air_full_line, node_full_line};

use reload_base::{Bytes, NoMemory};
use text_words::{all_or_nothing, put_decimal};

#[tactic(auto, unfolding(crate::specs::Transcript::bad_line))]
fn put_bad_words(out: &mut Bytes, n: u64) -> Result<(), NoMemory>
    ensures { AppendedSome out.old out.new (ended (bad_line n)) result }
{
    out.extend(b"bad line ")?;
    put_decimal(out, n)?;
    out.extend(b"\n")
}

/// Appends `bad line N`.
pub fn put_bad_line(out: &mut Bytes, n: u64) -> Result<(), NoMemory>
    ensures { Appended out.old out.new (ended (bad_line n)) result }
{
    let before = out.len();
    let appended = put_bad_words(out, n);
    all_or_nothing(out, before, appended)
}

#[tactic(auto, unfolding(crate::specs::Transcript::air_full_line))]
fn put_air_full_words(out: &mut Bytes, bytes: u64) -> Result<(), NoMemory>
    ensures { AppendedSome out.old out.new (ended (air_full_line bytes)) result }
{
    out.extend(b"air full ")?;
    put_decimal(out, bytes)?;
    out.extend(b"\n")
}

/// Appends `air full B`: B bytes were sent.
pub fn put_air_full_line(out: &mut Bytes, bytes: u64) -> Result<(), NoMemory>
    ensures { Appended out.old out.new (ended (air_full_line bytes)) result }
{
    let before = out.len();
    let appended = put_air_full_words(out, bytes);
    all_or_nothing(out, before, appended)
}

#[tactic(auto, unfolding(crate::specs::Transcript::node_full_line))]
fn put_node_full_words(out: &mut Bytes, number: u32) -> Result<(), NoMemory>
    ensures { AppendedSome out.old out.new (ended (node_full_line number)) result }
{
    out.extend(b"node full ")?;
    put_decimal(out, u64::from(number))?;
    out.extend(b"\n")
}

/// Appends `node full N`: the node with the number N has a full load.
pub fn put_node_full_line(out: &mut Bytes, number: u32) -> Result<(), NoMemory>
    ensures { Appended out.old out.new (ended (node_full_line number)) result }
{
    let before = out.len();
    let appended = put_node_full_words(out, number);
    all_or_nothing(out, before, appended)
}
