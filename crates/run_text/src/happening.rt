//! What happens in a run: decisions, answers that clients take, requests that time out, and events
//! that are refused.

ghost use Rattle.std.specs.Prelude.{◌≡◌, ◌++◌, codes};
ghost use Rattle.std.specs.List.{flat_map};
ghost use Rattle.std.specs.Fmt.{decimal};
ghost use Rattle.text_words.specs.Codec.{Appended, AppendedSome};
ghost use Rattle.text_words.specs.Lines.{ended, spaced, spaced_by};
ghost use Rattle.transcript_text.specs.Words.{counter_text};
ghost use Rattle.run_text.specs.Lines.{answer_line, ended_by, happening_line, no_such_frame, notice_line, refused_line, timeout_line, told_text, unknown_node};

use node_model::{Notice, Told};
use reload_base::{Bytes, NoMemory};
use request_words::DeclaredNode;
use run_model::Happening;
use text_words::{all_or_nothing, put_decimal, put_transaction};
use transcript_text::{DecisionLine, put_counters, put_decide_line, put_found_kinds};

// Appends ok K:G.., each word behind a space.
fn put_stored(out: &mut Bytes, counters: &[(u32, u64)]) -> Result<(), NoMemory>
    ensures { AppendedSome out.old out.new (spaced (codes "ok")
        ++ flat_map (spaced_by counter_text) counters.now) result }
{
    out.extend(b" ok")?;
    put_counters(out, counters)
}

// Appends error N K:G.., each word behind a space.
fn put_failed(out: &mut Bytes, code: u16, counters: &[(u32, u64)]) -> Result<(), NoMemory>
    ensures { AppendedSome out.old out.new (spaced (codes "error") ++ spaced (decimal code)
        ++ flat_map (spaced_by counter_text) counters.now) result }
{
    out.extend(b" error ")?;
    put_decimal(out, u64::from(code))?;
    put_counters(out, counters)
}

// Appends the answer that a client took, each word behind a space.
#[tactic(auto, unfolding(crate::specs::Lines::told_text))]
fn put_told(out: &mut Bytes, told: &Told) -> Result<(), NoMemory>
    ensures { AppendedSome out.old out.new (told_text told.now) result }
{
    match told {
        Told::Stored { counters } => put_stored(out, counters.as_slice()),
        Told::Fetched { kinds } => put_found_kinds(out, kinds.as_slice()),
        Told::Failed { code, counters } => put_failed(out, *code, counters.as_slice()),
    }
}

// Appends answer H.L ANSWER.
#[tactic(auto, unfolding(crate::specs::Lines::answer_line))]
fn put_answer(out: &mut Bytes, id: u64, told: &Told) -> Result<(), NoMemory>
    ensures { AppendedSome out.old out.new (ended (answer_line id told.now)) result }
{
    out.extend(b"answer ")?;
    put_transaction(out, id)?;
    put_told(out, told)?;
    out.extend(b"\n")
}

// Appends timeout H.L.
#[tactic(auto, unfolding(crate::specs::Lines::timeout_line))]
fn put_timeout(out: &mut Bytes, id: u64) -> Result<(), NoMemory>
    ensures { AppendedSome out.old out.new (ended (timeout_line id)) result }
{
    out.extend(b"timeout ")?;
    put_transaction(out, id)?;
    out.extend(b"\n")
}

// Appends what the node with a number tells.
#[tactic(auto, unfolding(crate::specs::Lines::notice_line))]
fn put_notice(
    out: &mut Bytes,
    names: &[DeclaredNode],
    number: u32,
    notice: &Notice,
) -> Result<(), NoMemory>
    ensures { AppendedSome out.old out.new
        (ended (notice_line names.now number notice.now)) result }
{
    match notice {
        Notice::Decision {
            time,
            resource,
            origin,
            id,
            asked,
            answer,
            ..
        } => {
            let line = DecisionLine {
                peer: number,
                time: *time,
                resource: *resource,
                origin: *origin,
                id: *id,
                asked,
                answer,
            };
            put_decide_line(out, names, &line)
        }
        Notice::Answered { id, told } => put_answer(out, *id, told),
        Notice::TimedOut { id } => put_timeout(out, *id),
    }
}

// Appends refused L WORD.
#[tactic(auto, unfolding(crate::specs::Lines::refused_line))]
fn put_refused(out: &mut Bytes, line: u64, word: &[u8]) -> Result<(), NoMemory>
    ensures { AppendedSome out.old out.new (ended (refused_line line word.now)) result }
{
    out.extend(b"refused ")?;
    put_decimal(out, line)?;
    out.extend(b" ")?;
    out.extend(word)?;
    out.extend(b"\n")
}

// The word for a frame that wasn't sent.
#[tactic(auto, unfolding(crate::specs::Lines::no_such_frame))]
fn no_such_frame() -> &'static [u8]
    ensures { result.now ≡ no_such_frame }
{
    b"no-such-frame"
}

// The word for a node that isn't there, or that doesn't ask or isn't asked.
#[tactic(auto, unfolding(crate::specs::Lines::unknown_node))]
fn unknown_node() -> &'static [u8]
    ensures { result.now ≡ unknown_node }
{
    b"unknown-node"
}

// Appends what happens, as a line, and where memory is missing a part of it.
#[tactic(auto, unfolding(crate::specs::Lines::happening_line, crate::specs::Lines::ended_by))]
fn put_line(out: &mut Bytes, names: &[DeclaredNode], happening: &Happening) -> Result<(), NoMemory>
    ensures { AppendedSome out.old out.new
        (ended_by (happening_line names.now) happening.now) result }
{
    match happening {
        Happening::Tells { number, notice } => put_notice(out, names, *number, notice),
        Happening::NoSuchFrame { line } => put_refused(out, *line, no_such_frame()),
        Happening::UnknownNode { line } => put_refused(out, *line, unknown_node()),
        Happening::Busy { line } => put_refused(out, *line, b"busy"),
    }
}

/// Appends a line for what happens: `decide P T RES REQUEST -> ANSWER`, `answer H.L ANSWER`,
/// `timeout H.L`, or `refused L WORD`, where WORD is `no-such-frame`, `unknown-node` or `busy`. Nodes
/// have the numbers of their names; one without a name is `?`.
pub fn put_happening(
    out: &mut Bytes,
    names: &[DeclaredNode],
    happening: &Happening,
) -> Result<(), NoMemory>
    ensures { Appended out.old out.new (ended_by (happening_line names.now) happening.now) result }
{
    let before = out.len();
    let appended = put_line(out, names, happening);
    all_or_nothing(out, before, appended)
}
