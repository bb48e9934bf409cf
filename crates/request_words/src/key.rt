//! The key of a slot as a word.

ghost use Rattle.std.specs.Prelude.{◌≡◌, IfOk};
ghost use Rattle.text_words.specs.Codec.{Appended, AppendedSome, Spells};
ghost use Rattle.request_words.specs.Values.{slot_key_of, slot_key_text, unnamed_key, IsSlotKey};

use crate::data::bytes_of;
use data_models::{END_INDEX, SlotKey};
use reload_base::NoMemory;
use std::alloc::Global;
use text_words::{behind, decimal_of};

/// The key that a word stands for: `-`, an index, `end`, or `=` and the digits of a dictionary's
/// key.
pub fn slot_key_of(alloc: Global, word: &[u8]) -> Result<Option<SlotKey>, NoMemory>
    ensures value { IfOk result (λ key. key ≡ slot_key_of word.now) }
    ensures spells { IfOk result (Spells slot_key_text IsSlotKey word.now) }
{
    read(alloc, word)
}

// The same, by the form of the word.
#[tactic(auto, unfolding(crate::specs::Values::slot_key_of))]
fn read(alloc: Global, word: &[u8]) -> Result<Option<SlotKey>, NoMemory>
    ensures { IfOk result (λ key. key ≡ slot_key_of word.now) }
{
    match behind(b"=", word) {
        Some(digits) => Ok(bytes_of(alloc, digits)?.map(SlotKey::Name)),
        None => Ok(unnamed_key(word)),
    }
}

// The key of a kind that is no dictionary.
fn unnamed_key(word: &[u8]) -> Option<SlotKey>
    ensures { result ≡ unnamed_key word.now }
{
    if word == b"-".as_slice() {
        return Some(SlotKey::Whole);
    }
    if word == b"end".as_slice() {
        return Some(SlotKey::End);
    }
    let index = decimal_of(u64::from(END_INDEX) - 1, word)?;
    Some(SlotKey::Index(index as u32))
}
