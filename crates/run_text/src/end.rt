//! The end of a run.

ghost use Rattle.std.specs.Prelude.{◌≡◌};
ghost use Rattle.text_words.specs.Codec.{Appended, AppendedSome};
ghost use Rattle.text_words.specs.Lines.{ended, spaced};
ghost use Rattle.run_text.specs.Lines.{counts_text, end_line, settled_text};

use reload_base::{Bytes, NoMemory};
use text_words::{all_or_nothing, put_labelled};

// Appends end frames=F bytes=B clock=T.
#[tactic(auto, unfolding(crate::specs::Lines::counts_text))]
fn put_counts(out: &mut Bytes, frames: u64, bytes: u64, clock: u64) -> Result<(), NoMemory>
    ensures { AppendedSome out.old out.new (counts_text frames bytes clock) result }
{
    out.extend(b"end ")?;
    put_labelled(out, b"frames=", frames)?;
    out.extend(b" ")?;
    put_labelled(out, b"bytes=", bytes)?;
    out.extend(b" ")?;
    put_labelled(out, b"clock=", clock)
}

// Appends whether the run is settled, behind a space.
fn put_settled(out: &mut Bytes, settled: bool) -> Result<(), NoMemory>
    ensures { AppendedSome out.old out.new (spaced (settled_text settled)) result }
{
    if settled {
        out.extend(b" settled=yes")
    } else {
        out.extend(b" settled=no")
    }
}

#[tactic(auto, unfolding(crate::specs::Lines::end_line))]
fn put_end_words(
    out: &mut Bytes,
    frames: u64,
    bytes: u64,
    clock: u64,
    settled: bool,
) -> Result<(), NoMemory>
    ensures { AppendedSome out.old out.new (ended (end_line frames bytes clock settled)) result }
{
    put_counts(out, frames, bytes, clock)?;
    put_settled(out, settled)?;
    out.extend(b"\n")
}

/// Appends `end frames=F bytes=B clock=T settled=yes`, or `no`: how many frames were sent, how many
/// bytes they have together, the clock in milliseconds, and whether the world is settled.
pub fn put_end(
    out: &mut Bytes,
    frames: u64,
    bytes: u64,
    clock: u64,
    settled: bool,
) -> Result<(), NoMemory>
    ensures { Appended out.old out.new (ended (end_line frames bytes clock settled)) result }
{
    let before = out.len();
    let appended = put_end_words(out, frames, bytes, clock, settled);
    all_or_nothing(out, before, appended)
}
