//! Words behind a fixed text.

ghost use Rattle.std.specs.Prelude.{◌≡◌, ◌≤◌, IfOk, IfSome, option_map};
ghost use Rattle.std.specs.Option.{option_copied};
ghost use Rattle.text_words.specs.Codec.{Appended, AppendedSome, Spells};
ghost use Rattle.text_words.specs.Hex.{AllBytes};
ghost use Rattle.text_words.specs.Labelled.{labelled, labelled_of, first_behind, optional_of, at_name, at_name_of, key_name, key_name_of};
ghost use Rattle.text_words.specs.Name.{IsName};

use crate::decimal::{decimal_of, put_decimal};
use crate::hex_word::{hex_of, put_hex};
use crate::name::is_name;
use crate::pieces::Pieces;
use crate::put::all_or_nothing;
use crate::separator::behind;
use crate::steps::allowed;
use reload_base::{Bytes, NoMemory};
use std::alloc::Global;

/// The number at most `most` behind a label, as in `max=100`.
pub fn labelled_of(label: &[u8], most: u64, word: &[u8]) -> Option<u64>
    ensures value { result ≡ labelled_of label.now most word.now }
    ensures spells { Spells (labelled label.now) (λ n. n ≤ most) word.now result }
{
    read_labelled(label, most, word)
}

// The same, by the digits behind the label.
#[tactic(auto, unfolding(crate::specs::Labelled::labelled_of))]
fn read_labelled(label: &[u8], most: u64, word: &[u8]) -> Option<u64>
    ensures { result ≡ labelled_of label.now most word.now }
{
    let digits = behind(label, word)?;
    decimal_of(most, digits)
}

/// Takes the first of some words where it begins with a label, and reads the number behind it. The
/// words stay where it doesn't, and the answer is `None` where the number isn't one of at most
/// `most`.
#[tactic(auto, unfolding(crate::specs::Labelled::optional_of))]
pub fn take_labelled(words: &mut Pieces<'_>, label: &[u8], most: u64) -> Option<Option<u64>>
    ensures value { option_map (λ found. (found, words.new)) result
        ≡ optional_of label.now most words.old }
    ensures within { IfSome result (λ found. IfSome found (λ n. n ≤ most)) }
{
    let Some(digits) = first_behind(words, label) else {
        return Some(None);
    };
    let n = decimal_of(most, digits)?;
    words.take();
    Some(Some(n))
}

// What is behind a label in the first word.
#[tactic(auto, unfolding(crate::specs::Labelled::first_behind))]
fn first_behind<'a>(words: &Pieces<'a>, label: &[u8]) -> Option<&'a [u8]>
    ensures { option_copied result ≡ first_behind label.now words.now }
{
    behind(label, words.first()?)
}

/// Appends a label and a number as a word.
pub fn put_labelled(out: &mut Bytes, label: &[u8], n: u64) -> Result<(), NoMemory>
    ensures { Appended out.old out.new (labelled label.now n) result }
{
    let before = out.len();
    let appended = put_label(out, label, n);
    all_or_nothing(out, before, appended)
}

#[tactic(auto, unfolding(crate::specs::Labelled::labelled))]
fn put_label(out: &mut Bytes, label: &[u8], n: u64) -> Result<(), NoMemory>
    ensures { AppendedSome out.old out.new (labelled label.now n) result }
{
    out.extend(label)?;
    put_decimal(out, n)
}

/// The name behind the `@` of a word.
pub fn at_name_of(word: &[u8]) -> Option<&[u8]>
    ensures value { option_copied result ≡ at_name_of word.now }
    ensures spells { Spells at_name IsName word.now (option_copied result) }
{
    read_at_name(word)
}

// The same, by the test of the name.
#[tactic(auto, unfolding(crate::specs::Labelled::at_name_of))]
fn read_at_name(word: &[u8]) -> Option<&[u8]>
    ensures { option_copied result ≡ at_name_of word.now }
{
    let name = behind(b"@", word)?;
    allowed(is_name(name))?;
    Some(name)
}

/// Appends `@` and a name as a word.
pub fn put_at_name(out: &mut Bytes, name: &[u8]) -> Result<(), NoMemory>
    ensures { Appended out.old out.new (at_name name.now) result }
{
    let before = out.len();
    let appended = put_at(out, name);
    all_or_nothing(out, before, appended)
}

#[tactic(auto, unfolding(crate::specs::Labelled::at_name))]
fn put_at(out: &mut Bytes, name: &[u8]) -> Result<(), NoMemory>
    ensures { AppendedSome out.old out.new (at_name name.now) result }
{
    out.extend(b"@")?;
    out.extend(name)
}

/// The dictionary's key of `=` and its hex digits.
pub fn key_name_of(alloc: Global, word: &[u8]) -> Result<Option<Bytes>, NoMemory>
    ensures value { IfOk result (λ found. found ≡ key_name_of word.now) }
    ensures spells { IfOk result (Spells key_name AllBytes word.now) }
{
    read_key_name(alloc, word)
}

// The same, by the digits behind the sign.
#[tactic(auto, unfolding(crate::specs::Labelled::key_name_of))]
fn read_key_name(alloc: Global, word: &[u8]) -> Result<Option<Bytes>, NoMemory>
    ensures { IfOk result (λ found. found ≡ key_name_of word.now) }
{
    match behind(b"=", word) {
        None => Ok(None),
        Some(digits) => hex_of(alloc, digits),
    }
}

/// Appends a dictionary's key as a word.
pub fn put_key_name(out: &mut Bytes, name: &[u8]) -> Result<(), NoMemory>
    ensures { Appended out.old out.new (key_name name.now) result }
{
    let before = out.len();
    let appended = put_key(out, name);
    all_or_nothing(out, before, appended)
}

#[tactic(auto, unfolding(crate::specs::Labelled::key_name))]
fn put_key(out: &mut Bytes, name: &[u8]) -> Result<(), NoMemory>
    ensures { AppendedSome out.old out.new (key_name name.now) result }
{
    out.extend(b"=")?;
    put_hex(out, name)
}
