//! Transaction ids as words.

ghost use Rattle.std.specs.Prelude.{◌≡◌, ◌^◌, ◌<◌};
ghost use Rattle.text_words.specs.Codec.{Appended, AppendedSome, Spells};
ghost use Rattle.text_words.specs.Transaction.{transaction_of, transaction_text};

use crate::decimal::{decimal_of, put_decimal};
use crate::put::all_or_nothing;
use crate::separator::upto;
use reload_base::{Bytes, NoMemory};

/// The transaction id that a word spells: its high and its low 32 bits, `H.L`.
pub fn transaction_of(word: &[u8]) -> Option<u64>
    ensures value { result ≡ transaction_of word.now }
    ensures spells { Spells transaction_text (λ id. id < 2 ^ 64) word.now result }
{
    read(word)
}

// The same, by its two numbers.
#[tactic(auto, unfolding(crate::specs::Transaction::transaction_of))]
fn read(word: &[u8]) -> Option<u64>
    ensures { result ≡ transaction_of word.now }
{
    let (high, low) = upto(b'.', word)?;
    let high = decimal_of(u64::from(u32::MAX), high)?;
    let low = decimal_of(u64::from(u32::MAX), low)?;
    Some(high * 4_294_967_296 + low)
}

/// Appends a transaction id as a word.
pub fn put_transaction(out: &mut Bytes, id: u64) -> Result<(), NoMemory>
    ensures { Appended out.old out.new (transaction_text id) result }
{
    let before = out.len();
    let appended = put_parts(out, id);
    all_or_nothing(out, before, appended)
}

#[tactic(auto, unfolding(crate::specs::Transaction::transaction_text))]
fn put_parts(out: &mut Bytes, id: u64) -> Result<(), NoMemory>
    ensures { AppendedSome out.old out.new (transaction_text id) result }
{
    put_decimal(out, id / 4_294_967_296)?;
    out.extend(b".")?;
    put_decimal(out, id % 4_294_967_296)
}
