//! A value as a word.

ghost use Rattle.std.specs.Prelude.{◌≡◌, IfOk, option_map};
ghost use Rattle.text_words.specs.Codec.{Spells};
ghost use Rattle.text_words.specs.Steps.{only_of, part_of};
ghost use Rattle.request_words.specs.Values.{data_of, slot_key_of, times_in, value_in, value_of, value_text, IsValue};

use crate::data::{Data, data_of};
use crate::key::slot_key_of;
use data_models::SlotKey;
use reload_base::NoMemory;
use std::alloc::Global;
use text_words::{Pieces, decimal_of};

/// A value as a word tells it, without its signature.
#[derive(Debug, Drop)]
pub struct ValueWord {
    pub key: SlotKey,
    /// The storage time in milliseconds.
    pub storage_time: u64,
    /// The lifetime in seconds.
    pub lifetime: u32,
    pub value: Data,
}

/// The value of a word `KEY:TIME:LIFE:DATA`.
pub fn value_of(alloc: Global, word: &[u8]) -> Result<Option<ValueWord>, NoMemory>
    ensures value { IfOk result (λ value. value ≡ value_of word.now) }
    ensures spells { IfOk result (Spells value_text IsValue word.now) }
{
    read(alloc, word)
}

// The same, by the four parts between its colons.
#[tactic(auto, unfolding(crate::specs::Values::value_of))]
fn read(alloc: Global, word: &[u8]) -> Result<Option<ValueWord>, NoMemory>
    ensures { IfOk result (λ value. value ≡ value_of word.now) }
{
    value_in(alloc, Pieces::new(b':', word))
}

#[tactic(auto, unfolding(crate::specs::Values::value_in))]
fn value_in(alloc: Global, mut parts: Pieces<'_>) -> Result<Option<ValueWord>, NoMemory>
    ensures { IfOk result (λ value. value ≡ value_in parts.entry) }
{
    let Some(key) = take_key(alloc, &mut parts)? else {
        return Ok(None);
    };
    let Some((storage_time, lifetime)) = take_times(&mut parts) else {
        return Ok(None);
    };
    let Some(value) = only_data(alloc, parts)? else {
        return Ok(None);
    };
    Ok(Some(ValueWord {
        key,
        storage_time,
        lifetime,
        value,
    }))
}

// Takes the part of the key.
fn take_key(alloc: Global, parts: &mut Pieces<'_>) -> Result<Option<SlotKey>, NoMemory>
    ensures { IfOk result (λ key. option_map (λ k. (k, parts.new)) key
        ≡ part_of slot_key_of parts.old) }
{
    match parts.take() {
        None => Ok(None),
        Some(key) => slot_key_of(alloc, key),
    }
}

// Takes the parts of the storage time and the lifetime.
#[tactic(auto, unfolding(crate::specs::Values::times_in))]
fn take_times(parts: &mut Pieces<'_>) -> Option<(u64, u32)>
    ensures { option_map (λ times. (times, parts.new)) result ≡ times_in parts.old }
{
    let time = decimal_of(u64::MAX, parts.take()?)?;
    let lifetime = decimal_of(u64::from(u32::MAX), parts.take()?)?;
    Some((time, lifetime as u32))
}

// The only part that is left, as data.
fn only_data(alloc: Global, parts: Pieces<'_>) -> Result<Option<Data>, NoMemory>
    ensures { IfOk result (λ datum. datum ≡ only_of data_of parts.entry) }
{
    match parts.only() {
        None => Ok(None),
        Some(data) => data_of(alloc, data),
    }
}
