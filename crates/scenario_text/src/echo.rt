//! The lines that declare a scenario, as its transcript begins with them.

ghost use Rattle.std.specs.Prelude.{◌≡◌};
ghost use Rattle.std.specs.List.{flat_map};
ghost use Rattle.text_words.specs.Codec.{Appended, AppendedSome};
ghost use Rattle.text_words.specs.Lines.{ended};
ghost use Rattle.scenario_text.specs.Echo.{echo};

use crate::scenario::Scenario;
use reload_base::{Bytes, NoMemory};
use text_words::all_or_nothing;

fn put_line(out: &mut Bytes, line: &Bytes) -> Result<(), NoMemory>
    ensures { AppendedSome out.old out.new (ended line.now) result }
{
    out.extend(line.as_slice())?;
    out.extend(b"\n")
}

fn put_lines(out: &mut Bytes, lines: &[Bytes]) -> Result<(), NoMemory>
    ensures { AppendedSome out.old out.new (flat_map ended lines.now) result }
{
    for line in lines {
        put_line(out, line)?;
    }
    Ok(())
}

/// Appends the lines that declare a scenario.
#[tactic(auto, unfolding(crate::specs::Echo::echo))]
pub fn put_echo(out: &mut Bytes, s: &Scenario) -> Result<(), NoMemory>
    ensures { Appended out.old out.new (echo s.now) result }
{
    let before = out.len();
    let appended = put_lines(out, s.declarations.as_slice());
    all_or_nothing(out, before, appended)
}
