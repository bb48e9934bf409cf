//! The bytes of a value as a word, and other bytes of a word.

ghost use Rattle.std.specs.Prelude.{◌≡◌, IfOk, codes};
ghost use Rattle.text_words.specs.Separator.{behind};
ghost use Rattle.text_words.specs.Codec.{Appended, AppendedSome, Spells};
ghost use Rattle.request_words.specs.Bytes.{bytes_of};
ghost use Rattle.request_words.specs.Values.{data_of, data_text, filled, IsData};

use reload_base::{Bytes, NoMemory};
use std::alloc::Global;
use text_words::{all_or_nothing, behind, decimal_of, hex_of, put_decimal, put_hex};

/// The most bytes that digits stand for: a line has at most 400,000 bytes.
pub const MAX_BYTES: usize = 200_000;

/// The most bytes that a number stands for (this profile).
pub const MAX_FILL: u64 = 140_001;

/// The bytes of a value.
#[derive(Debug, Drop)]
pub enum Data {
    /// The value doesn't exist: it takes away the one before.
    Nonexistent,
    /// These bytes.
    Bytes(Bytes),
    /// So many bytes 0x61, at most [`MAX_FILL`](crate::MAX_FILL).
    Fill(u32),
}

/// The bytes of an even number of digits, as many as a line can hold.
#[tactic(auto, unfolding(crate::specs::Bytes::bytes_of))]
pub fn bytes_of(alloc: Global, digits: &[u8]) -> Result<Option<Bytes>, NoMemory>
    ensures { IfOk result (λ found. found ≡ bytes_of digits.now) }
{
    let Some(bytes) = hex_of(alloc, digits)? else {
        return Ok(None);
    };
    if bytes.len() > MAX_BYTES {
        return Ok(None);
    }
    Ok(Some(bytes))
}

/// The bytes that a word stands for: `-`, `+` and digits, or `#` and a number.
pub fn data_of(alloc: Global, word: &[u8]) -> Result<Option<Data>, NoMemory>
    ensures value { IfOk result (λ datum. datum ≡ data_of word.now) }
    ensures spells { IfOk result (Spells data_text IsData word.now) }
{
    read(alloc, word)
}

// The same, by the first byte.
#[tactic(auto, unfolding(crate::specs::Values::data_of))]
fn read(alloc: Global, word: &[u8]) -> Result<Option<Data>, NoMemory>
    ensures { IfOk result (λ datum. datum ≡ data_of word.now) }
{
    match behind(b"+", word) {
        Some(digits) => Ok(bytes_of(alloc, digits)?.map(Data::Bytes)),
        None => Ok(filled(word)),
    }
}

// So many bytes 0x61, or none.
fn filled(word: &[u8]) -> Option<Data>
    ensures { result ≡ filled word.now (behind (codes "#") word.now) }
{
    match behind(b"#", word) {
        Some(digits) => {
            let n = decimal_of(MAX_FILL, digits)?;
            Some(Data::Fill(n as u32))
        }
        None if word == b"-".as_slice() => Some(Data::Nonexistent),
        None => None,
    }
}
