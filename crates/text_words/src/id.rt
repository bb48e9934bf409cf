//! Node-IDs and Resource-IDs as words of 32 hex digits.

ghost use Rattle.std.specs.Prelude.{◌≡◌, ◌^◌, ◌<◌};
ghost use Rattle.text_words.specs.Codec.{Appended, Spells};
ghost use Rattle.text_words.specs.Id.{id_of, id_text};

use crate::hex_word::are_lower_digits;
use reload_base::{Bytes, NoMemory};

/// The number that a word spells: 32 lower-case hex digits, big-endian.
pub fn id_of(word: &[u8]) -> Option<u128>
    ensures value { result ≡ id_of word.now }
    ensures spells { Spells id_text (λ id. id < 2 ^ 128) word.now result }
{
    read(word)
}

// The same: `decode_to_slice` takes capitals too, so they are refused before.
#[tactic(auto, unfolding(crate::specs::Id::id_of))]
fn read(word: &[u8]) -> Option<u128>
    ensures { result ≡ id_of word.now }
{
    if !are_lower_digits(word) {
        return None;
    }
    let mut bytes = [0; 16];
    hex::decode_to_slice(word, &mut bytes).ok()?;
    Some(u128::from_be_bytes(bytes))
}

/// Appends a number as a word of 32 digits.
#[tactic(auto, unfolding(crate::specs::Id::id_text))]
pub fn put_id(out: &mut Bytes, id: u128) -> Result<(), NoMemory>
    ensures { Appended out.old out.new (id_text id) result }
{
    let mut word = [0; 32];
    hex::encode_to_slice(id.to_be_bytes(), &mut word).unwrap();
    out.extend(&word)
}
