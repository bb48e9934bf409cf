//! Words that list others, with a comma between each two.

ghost use Rattle.std.specs.Prelude.{◌≡◌, ◌≤◌, ◌<◌, ◌^◌, length, IfOk};
ghost use Rattle.std.specs.List.{flat_map, AllByRecursion};
ghost use Rattle.text_words.specs.Codec.{Appended, AppendedSome, Spells};
ghost use Rattle.text_words.specs.Labelled.{key_name, key_name_of};
ghost use Rattle.text_words.specs.Listed.{AreNames, AreRanges, behind_comma, key_names_of, key_names_text, range_of, range_text, ranges_of, ranges_text};
ghost use Rattle.text_words.specs.Steps.{each_of};

use crate::decimal::{decimal_of, put_decimal};
use crate::labelled::{key_name_of, put_key_name};
use crate::pieces::Pieces;
use crate::put::all_or_nothing;
use crate::separator::upto;
use reload_base::{Bytes, List, NoMemory};
use std::alloc::Global;

// A range by the numbers on both sides of its dash.
#[tactic(auto, unfolding(crate::specs::Listed::range_of))]
fn range_of(word: &[u8]) -> Option<(u32, u32)>
    ensures { result ≡ range_of word.now }
{
    let (first, last) = upto(b'-', word)?;
    let first = decimal_of(u64::from(u32::MAX), first)?;
    let last = decimal_of(u64::from(u32::MAX), last)?;
    Some((first as u32, last as u32))
}

fn ranges_in(alloc: Global, mut pieces: Pieces<'_>) -> Result<Option<List<(u32, u32)>>, NoMemory>
    ensures { IfOk result (λ ranges. ranges ≡ each_of range_of pieces.entry) }
{
    let mut ranges = List::new(alloc);
    'pieces: while let Some(piece) = pieces.take() {
        match range_of(piece) {
            None => return Ok(None),
            Some(range) => ranges.push(range)?,
        }
    }
    Ok(Some(ranges))
}

#[tactic(auto, unfolding(crate::specs::Listed::ranges_of))]
fn read_ranges(alloc: Global, word: &[u8]) -> Result<Option<List<(u32, u32)>>, NoMemory>
    ensures { IfOk result (λ ranges. ranges ≡ ranges_of word.now) }
{
    ranges_in(alloc, Pieces::new(b',', word))
}

/// The ranges of a word: at least one, each the first and the last index with a dash between them.
pub fn ranges_of(alloc: Global, word: &[u8]) -> Result<Option<List<(u32, u32)>>, NoMemory>
    ensures value { IfOk result (λ ranges. ranges ≡ ranges_of word.now) }
    ensures spells { IfOk result (Spells ranges_text AreRanges word.now) }
{
    read_ranges(alloc, word)
}

fn key_names_in(alloc: Global, mut pieces: Pieces<'_>) -> Result<Option<List<Bytes>>, NoMemory>
    ensures { IfOk result (λ names. names ≡ each_of key_name_of pieces.entry) }
{
    let mut names = List::new(alloc);
    'pieces: while let Some(piece) = pieces.take() {
        match key_name_of(alloc, piece)? {
            None => return Ok(None),
            Some(name) => names.push(name)?,
        }
    }
    Ok(Some(names))
}

#[tactic(auto, unfolding(crate::specs::Listed::key_names_of))]
fn read_key_names(alloc: Global, word: &[u8]) -> Result<Option<List<Bytes>>, NoMemory>
    ensures { IfOk result (λ names. names ≡ key_names_of word.now) }
{
    key_names_in(alloc, Pieces::new(b',', word))
}

/// The keys of a dictionary in a word: at least one, each as `key_name_of` reads it.
pub fn key_names_of(alloc: Global, word: &[u8]) -> Result<Option<List<Bytes>>, NoMemory>
    ensures value { IfOk result (λ names. names ≡ key_names_of word.now) }
    ensures spells { IfOk result (Spells key_names_text AreNames word.now) }
{
    read_key_names(alloc, word)
}

#[tactic(auto, unfolding(crate::specs::Listed::range_text))]
fn put_range(out: &mut Bytes, range: (u32, u32)) -> Result<(), NoMemory>
    ensures { AppendedSome out.old out.new (range_text range) result }
{
    put_decimal(out, u64::from(range.0))?;
    out.extend(b"-")?;
    put_decimal(out, u64::from(range.1))
}

#[tactic(auto, unfolding(crate::specs::Listed::behind_comma))]
fn put_next_range(out: &mut Bytes, range: (u32, u32)) -> Result<(), NoMemory>
    ensures { AppendedSome out.old out.new (behind_comma range_text range) result }
{
    out.extend(b",")?;
    put_range(out, range)
}

fn put_next_ranges(out: &mut Bytes, ranges: &[(u32, u32)]) -> Result<(), NoMemory>
    ensures { AppendedSome out.old out.new (flat_map (behind_comma range_text) ranges.now) result }
{
    for range in ranges {
        put_next_range(out, *range)?;
    }
    Ok(())
}

#[tactic(auto, unfolding(crate::specs::Listed::ranges_text))]
fn put_range_parts(out: &mut Bytes, ranges: &[(u32, u32)]) -> Result<(), NoMemory>
    ensures { AppendedSome out.old out.new (ranges_text ranges.now) result }
{
    let Some((first, others)) = ranges.split_first() else {
        return Ok(());
    };
    put_range(out, *first)?;
    put_next_ranges(out, others)
}

/// Appends ranges as a word, empty where there is none.
pub fn put_ranges(out: &mut Bytes, ranges: &[(u32, u32)]) -> Result<(), NoMemory>
    ensures { Appended out.old out.new (ranges_text ranges.now) result }
{
    let before = out.len();
    let appended = put_range_parts(out, ranges);
    all_or_nothing(out, before, appended)
}

#[tactic(auto, unfolding(crate::specs::Listed::behind_comma))]
fn put_next_name(out: &mut Bytes, name: &Bytes) -> Result<(), NoMemory>
    ensures { AppendedSome out.old out.new (behind_comma key_name name.now) result }
{
    out.extend(b",")?;
    put_key_name(out, name.as_slice())
}

fn put_next_names(out: &mut Bytes, names: &[Bytes]) -> Result<(), NoMemory>
    ensures { AppendedSome out.old out.new (flat_map (behind_comma key_name) names.now) result }
{
    for name in names {
        put_next_name(out, name)?;
    }
    Ok(())
}

#[tactic(auto, unfolding(crate::specs::Listed::key_names_text))]
fn put_name_parts(out: &mut Bytes, names: &[Bytes]) -> Result<(), NoMemory>
    ensures { AppendedSome out.old out.new (key_names_text names.now) result }
{
    let Some((first, others)) = names.split_first() else {
        return Ok(());
    };
    put_key_name(out, first.as_slice())?;
    put_next_names(out, others)
}

/// Appends keys of a dictionary as a word, empty where there is none.
pub fn put_key_names(out: &mut Bytes, names: &[Bytes]) -> Result<(), NoMemory>
    ensures { Appended out.old out.new (key_names_text names.now) result }
{
    let before = out.len();
    let appended = put_name_parts(out, names);
    all_or_nothing(out, before, appended)
}
