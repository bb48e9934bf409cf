//! Decimals as words, at most of 64 bits.

ghost use Rattle.std.specs.Prelude.{◌≡◌, ◌≤◌};
ghost use Rattle.std.specs.Fmt.{decimal};
ghost use Rattle.text_words.specs.Codec.{Appended, Spells};
ghost use Rattle.text_words.specs.Decimal.{with_digit, with_digits, decimal_of, number_of};

use crate::steps::allowed;
use itoa::Buffer;
use reload_base::{Bytes, NoMemory};

/// The number at most `most` that a word spells: decimal digits without a sign or a leading zero.
pub fn decimal_of(most: u64, word: &[u8]) -> Option<u64>
    ensures value { result ≡ decimal_of most word.now }
    ensures spells { Spells decimal (λ n. n ≤ most) word.now result }
{
    read(most, word)
}

// The same, by its first digits.
#[tactic(auto, unfolding(crate::specs::Decimal::decimal_of))]
fn read(most: u64, word: &[u8]) -> Option<u64>
    ensures { result ≡ decimal_of most word.now }
{
    match word {
        [] | [b'0', _, ..] => None,
        digits => with_digits(most, digits),
    }
}

// The number at most `most` that a word of digits spells, leading zeros among them.
#[tactic(auto, unfolding(crate::specs::Decimal::with_digits))]
fn with_digits(most: u64, digits: &[u8]) -> Option<u64>
    ensures { result ≡ with_digits most 0 digits.now }
{
    let mut n = 0;
    for digit in digits {
        n = with_digit(most, n, *digit)?;
    }
    Some(n)
}

// The number that a digit makes of the number before it. 128 bits hold ten times any of 64.
#[tactic(auto, unfolding(crate::specs::Decimal::with_digit))]
fn with_digit(most: u64, n: u64, digit: u8) -> Option<u64>
    ensures { result ≡ with_digit most n digit }
{
    if !digit.is_ascii_digit() {
        return None;
    }
    let more = u128::from(n) * 10 + u128::from(digit - b'0');
    if more <= u128::from(most) {
        Some(more as u64)
    } else {
        None
    }
}

/// The number from `least` to `most` that a word spells.
pub fn number_of(least: u64, most: u64, word: &[u8]) -> Option<u64>
    ensures value { result ≡ number_of least most word.now }
    ensures spells { Spells decimal (λ n. (least ≤ n) × (n ≤ most)) word.now result }
{
    read_from(least, most, word)
}

// The same: a number that is too small is refused behind the others.
#[tactic(auto, unfolding(crate::specs::Decimal::number_of))]
fn read_from(least: u64, most: u64, word: &[u8]) -> Option<u64>
    ensures { result ≡ number_of least most word.now }
{
    let n = decimal_of(most, word)?;
    allowed(least <= n)?;
    Some(n)
}

/// Appends a number as a word. Most have one digit, which is pushed at once.
pub fn put_decimal(out: &mut Bytes, n: u64) -> Result<(), NoMemory>
    ensures { Appended out.old out.new (decimal n) result }
{
    if n < 10 {
        out.push(b'0' + n as u8)
    } else {
        put_digits(out, n)
    }
}

// Appends a number of two digits or more. Two are put at once.
#[inline(never)]
fn put_digits(out: &mut Bytes, n: u64) -> Result<(), NoMemory>
    requires { 10 ≤ n }
    ensures { Appended out.old out.new (decimal n) result }
{
    if n < 100 {
        out.extend(&[b'0' + (n / 10) as u8, b'0' + (n % 10) as u8])
    } else {
        out.extend(Buffer::new().format(n).as_bytes())
    }
}
