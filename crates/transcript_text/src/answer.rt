//! The answer to a request.

ghost use Rattle.std.specs.Prelude.{◌≡◌, ◌++◌};
ghost use Rattle.std.specs.List.{flat_map};
ghost use Rattle.text_words.specs.Codec.{Appended, AppendedSome};
ghost use Rattle.text_words.specs.Lines.{spaced_by};
ghost use Rattle.transcript_text.specs.Transcript.{answer_text, code_text, found_kind, found_values};
ghost use Rattle.transcript_text.specs.Words.{counter_text};

use crate::value::{put_all_stored, put_head, put_next_raw};
use data_models::{KindValues, StoreKind};
use reload_base::{Bytes, NoMemory};
use storage_model::Answer;
use text_words::{all_or_nothing, put_decimal};

#[tactic(auto, unfolding(crate::specs::Words::counter_text))]
fn put_counter(out: &mut Bytes, counter: (u32, u64)) -> Result<(), NoMemory>
    ensures { AppendedSome out.old out.new (counter_text counter) result }
{
    put_decimal(out, u64::from(counter.0))?;
    out.extend(b":")?;
    put_decimal(out, counter.1)
}

#[tactic(auto, unfolding(text_words::specs::Lines::spaced_by))]
fn put_next_counter(out: &mut Bytes, counter: (u32, u64)) -> Result<(), NoMemory>
    ensures { AppendedSome out.old out.new (spaced_by counter_text counter) result }
{
    out.extend(b" ")?;
    put_counter(out, counter)
}

fn put_all_counters(out: &mut Bytes, counters: &[(u32, u64)]) -> Result<(), NoMemory>
    ensures { AppendedSome out.old out.new (flat_map (spaced_by counter_text) counters.now) result }
{
    for counter in counters {
        put_next_counter(out, *counter)?;
    }
    Ok(())
}

/// Appends `K:G` for each Kind-ID and its generation counter, each word behind a space.
pub fn put_counters(out: &mut Bytes, counters: &[(u32, u64)]) -> Result<(), NoMemory>
    ensures { Appended out.old out.new (flat_map (spaced_by counter_text) counters.now) result }
{
    let before = out.len();
    let appended = put_all_counters(out, counters);
    all_or_nothing(out, before, appended)
}

#[tactic(auto, unfolding(crate::specs::Transcript::code_text))]
fn put_code(out: &mut Bytes, code: u16) -> Result<(), NoMemory>
    ensures { AppendedSome out.old out.new (code_text code) result }
{
    if code == 0 {
        return out.extend(b" ok");
    }
    out.extend(b" error")?;
    out.extend(b" ")?;
    put_decimal(out, u64::from(code))
}

fn put_decided(out: &mut Bytes, code: u16, counters: &[(u32, u64)]) -> Result<(), NoMemory>
    ensures { AppendedSome out.old out.new (code_text code
        ++ flat_map (spaced_by counter_text) counters.now) result }
{
    put_code(out, code)?;
    put_counters(out, counters)
}

// Appends kind=ID/GEN and the values that were found.
#[tactic(auto, unfolding(crate::specs::Transcript::found_kind))]
fn put_found_kind(out: &mut Bytes, kind: &StoreKind) -> Result<(), NoMemory>
    ensures { AppendedSome out.old out.new (found_kind kind.now) result }
{
    put_head(out, kind.kind, kind.generation)?;
    match &kind.values {
        KindValues::Known(values) => put_all_stored(out, values.as_slice()),
        KindValues::Raw(bytes) => put_next_raw(out, bytes.as_slice()),
    }
}

#[tactic(auto, unfolding(text_words::specs::Lines::spaced_by))]
fn put_next_kind(out: &mut Bytes, kind: &StoreKind) -> Result<(), NoMemory>
    ensures { AppendedSome out.old out.new (spaced_by found_kind kind.now) result }
{
    out.extend(b" ")?;
    put_found_kind(out, kind)
}

fn put_all_kinds(out: &mut Bytes, kinds: &[StoreKind]) -> Result<(), NoMemory>
    ensures { AppendedSome out.old out.new (flat_map (spaced_by found_kind) kinds.now) result }
{
    for kind in kinds {
        put_next_kind(out, kind)?;
    }
    Ok(())
}

/// Appends `kind=ID/GEN` and the values that were found of each kind, each word behind a space.
pub fn put_found_kinds(out: &mut Bytes, kinds: &[StoreKind]) -> Result<(), NoMemory>
    ensures { Appended out.old out.new (flat_map (spaced_by found_kind) kinds.now) result }
{
    let before = out.len();
    let appended = put_all_kinds(out, kinds);
    all_or_nothing(out, before, appended)
}

/// Appends ANSWER, each word behind a space.
#[tactic(auto, unfolding(crate::specs::Transcript::answer_text))]
pub fn put_answer(out: &mut Bytes, answer: &Answer) -> Result<(), NoMemory>
    ensures { AppendedSome out.old out.new (answer_text answer.now) result }
{
    match answer {
        Answer::Decided { code, counters } => put_decided(out, *code, counters.as_slice()),
        Answer::Found { kinds } => put_found_kinds(out, kinds.as_slice()),
        Answer::Joined => out.extend(b" joined"),
    }
}
