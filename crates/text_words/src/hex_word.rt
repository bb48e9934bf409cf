//! Bytes as words of lower-case hex digits.

ghost use Rattle.std.specs.Prelude.{◌≡◌, ◌^◌, ◌<◌, IfOk};
ghost use Rattle.std.specs.List.{list_all};
ghost use Rattle.hex.specs.Hex.{encode_lower};
ghost use Rattle.text_words.specs.Codec.{Appended, AppendedSome, Spells};
ghost use Rattle.text_words.specs.Hex.{AllBytes, hex_of, is_lower_digit, number_in_hex, number_in_hex_of};

use crate::put::all_or_nothing;
use hex::FromHexError;
use reload_base::{Bytes, NoMemory};
use std::alloc::Global;

/// The bytes that a word spells: an even number of lower-case hex digits, perhaps none.
pub fn hex_of(alloc: Global, word: &[u8]) -> Result<Option<Bytes>, NoMemory>
    ensures value { IfOk result (λ found. found ≡ hex_of word.now) }
    ensures spells { IfOk result (Spells encode_lower AllBytes word.now) }
{
    read(alloc, word)
}

// The same: `decode` takes capitals too, so they are refused before.
#[tactic(auto, unfolding(crate::specs::Hex::hex_of))]
fn read(alloc: Global, word: &[u8]) -> Result<Option<Bytes>, NoMemory>
    ensures { IfOk result (λ found. found ≡ hex_of word.now) }
{
    if !are_lower_digits(word) {
        return Ok(None);
    }
    match hex::decode(alloc, word) {
        Ok(bytes) => Ok(Some(Bytes::from_vec(bytes))),
        Err(FromHexError::OutOfMemory) => Err(NoMemory),
        Err(_) => Ok(None),
    }
}

/// Whether each byte of a word is a hex digit in lower case.
pub(crate) fn are_lower_digits(word: &[u8]) -> bool
    ensures { result ≡ list_all is_lower_digit word.now }
{
    word.iter()
        .all(|byte| matches!(*byte, b'0'..=b'9' | b'a'..=b'f'))
}

/// Appends bytes as a word of lower-case hex digits.
pub fn put_hex(out: &mut Bytes, bytes: &[u8]) -> Result<(), NoMemory>
    ensures { Appended out.old out.new (encode_lower bytes.now) result }
{
    let before = out.len();
    let appended = put_digits(out, bytes);
    all_or_nothing(out, before, appended)
}

// Appends the digits of one byte after the other, and where memory is missing some of them.
fn put_digits(out: &mut Bytes, bytes: &[u8]) -> Result<(), NoMemory>
    ensures { AppendedSome out.old out.new (encode_lower bytes.now) result }
{
    for byte in bytes {
        let mut digits = [0; 2];
        hex::encode_to_slice([*byte], &mut digits).unwrap();
        out.extend(&digits)?;
    }
    Ok(())
}

/// The number that a word of 8 lower-case hex digits spells, big-endian.
pub fn number_in_hex_of(word: &[u8]) -> Option<u32>
    ensures value { result ≡ number_in_hex_of word.now }
    ensures spells { Spells number_in_hex (λ n. n < 2 ^ 32) word.now result }
{
    read_number(word)
}

// The same: `decode_to_slice` takes capitals too, so they are refused before.
#[tactic(auto, unfolding(crate::specs::Hex::number_in_hex_of))]
fn read_number(word: &[u8]) -> Option<u32>
    ensures { result ≡ number_in_hex_of word.now }
{
    if !are_lower_digits(word) {
        return None;
    }
    let mut bytes = [0; 4];
    hex::decode_to_slice(word, &mut bytes).ok()?;
    Some(u32::from_be_bytes(bytes))
}

/// Appends a number as a word of 8 lower-case hex digits.
#[tactic(auto, unfolding(crate::specs::Hex::number_in_hex))]
pub fn put_number_in_hex(out: &mut Bytes, n: u32) -> Result<(), NoMemory>
    ensures { Appended out.old out.new (number_in_hex n) result }
{
    let mut digits = [0; 8];
    hex::encode_to_slice(n.to_be_bytes(), &mut digits).unwrap();
    out.extend(&digits)
}
