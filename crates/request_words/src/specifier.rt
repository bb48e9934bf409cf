//! A kind of a Fetch as a word.

ghost use Rattle.std.specs.Prelude.{◌≡◌, IfOk};
ghost use Rattle.text_words.specs.Codec.{Spells};
ghost use Rattle.request_words.specs.Specifiers.{counted_by, counted_of, known_selector, listed_selector, selector_of, selected_by, specifier_of, specifier_text, IsSpecifier};

use data_models::Selector;
use reload_base::{List, NoMemory};
use std::alloc::Global;
use text_words::{behind, decimal_of, hex_of, key_names_of, ranges_of, upto};

/// A kind of a Fetch as a word tells it.
#[derive(Debug, Drop)]
pub struct SpecifierWord {
    /// The Kind-ID.
    pub kind: u32,
    /// The generation counter that the client knows, where the word says one.
    pub generation: Option<u64>,
    /// `Whole` where the word says nothing of the values.
    pub selector: Selector,
}

/// The kind of a word `KIND[/GEN][:SEL]`.
pub fn specifier_of(alloc: Global, word: &[u8]) -> Result<Option<SpecifierWord>, NoMemory>
    ensures value { IfOk result (λ specifier. specifier ≡ specifier_of word.now) }
    ensures spells { IfOk result (Spells specifier_text IsSpecifier word.now) }
{
    read(alloc, word)
}

// The same, by what stands round the colon.
#[tactic(auto, unfolding(crate::specs::Specifiers::specifier_of))]
fn read(alloc: Global, word: &[u8]) -> Result<Option<SpecifierWord>, NoMemory>
    ensures { IfOk result (λ specifier. specifier ≡ specifier_of word.now) }
{
    let Some((kind, selector)) = upto(b':', word) else {
        return Ok(counted_of(word).map(|(kind, generation)| SpecifierWord {
            kind,
            generation,
            selector: Selector::Whole,
        }));
    };
    let Some((kind, generation)) = counted_of(kind) else {
        return Ok(None);
    };
    let Some(selector) = selector_of(alloc, selector)? else {
        return Ok(None);
    };
    Ok(Some(SpecifierWord {
        kind,
        generation,
        selector,
    }))
}

// The Kind-ID and the generation counter of `KIND` or `KIND/GEN`.
#[tactic(auto, unfolding(crate::specs::Specifiers::counted_of))]
fn counted_of(word: &[u8]) -> Option<(u32, Option<u64>)>
    ensures { result ≡ counted_of word.now }
{
    let Some((kind, generation)) = upto(b'/', word) else {
        let kind = decimal_of(u64::from(u32::MAX), word)?;
        return Some((kind as u32, None));
    };
    let kind = decimal_of(u64::from(u32::MAX), kind)?;
    let generation = decimal_of(u64::MAX, generation)?;
    Some((kind as u32, Some(generation)))
}

// Which values are asked for behind the colon.
#[tactic(auto, unfolding(crate::specs::Specifiers::selector_of))]
fn selector_of(alloc: Global, word: &[u8]) -> Result<Option<Selector>, NoMemory>
    ensures { IfOk result (λ selector. selector ≡ selector_of word.now) }
{
    match behind(b"?", word) {
        Some(digits) => Ok(hex_of(alloc, digits)?.map(Selector::Raw)),
        None => known_selector(alloc, word),
    }
}

fn known_selector(alloc: Global, word: &[u8]) -> Result<Option<Selector>, NoMemory>
    ensures { IfOk result (λ selector. selector ≡ known_selector word.now) }
{
    if word.is_empty() {
        return Ok(Some(Selector::Ranges(List::new(alloc))));
    }
    if word == b"*".as_slice() {
        return Ok(Some(Selector::Names(List::new(alloc))));
    }
    match behind(b"=", word) {
        Some(_) => Ok(key_names_of(alloc, word)?.map(Selector::Names)),
        None => Ok(ranges_of(alloc, word)?.map(Selector::Ranges)),
    }
}
