//! `fetch C P RES [ttl=N] [max=N] SPEC..`

ghost use Rattle.std.specs.Prelude.{◌≡◌, ◌-◌, ◌^◌, IfOk, codes, option_map};
ghost use Rattle.std.specs.List.{list_all};
ghost use Rattle.text_words.specs.Labelled.{optional_of};
ghost use Rattle.text_words.specs.Steps.{each_of};
ghost use Rattle.scenario_text.specs.Lines.Fetch.{are_asked, fetch_of, is_asked};
ghost use Rattle.request_words.specs.Specifiers.{specifier_of};

use crate::request::{Address, take_address, take_ttl};
use crate::scenario::FetchEvent;
use data_models::Selector;
use reload_base::{List, NoMemory};
use request_words::{SpecifierWord, push_tight, specifier_of};
use std::alloc::Global;
use text_words::{Pieces, take_labelled};

// A scenario asks for no empty list of ranges, and for no kind's bytes.
fn is_asked(selector: &Selector) -> bool
    ensures { result ≡ is_asked selector.now }
{
    match selector {
        Selector::Ranges(ranges) => !ranges.is_empty(),
        Selector::Raw(_) => false,
        Selector::Whole | Selector::Names(_) => true,
    }
}

// At least one kind.
#[tactic(auto, unfolding(crate::specs::Lines::Fetch::are_asked))]
fn are_asked(specifiers: &[SpecifierWord]) -> bool
    ensures { result ≡ are_asked specifiers.now }
{
    !specifiers.is_empty() && each_is_asked(specifiers)
}

fn each_is_asked(specifiers: &[SpecifierWord]) -> bool
    ensures { result ≡ list_all (λ specifier. is_asked specifier.selector) specifiers.now }
{
    specifiers
        .iter()
        .all(|specifier| is_asked(&specifier.selector))
}

// The kinds that words say.
fn specifiers_of(
    alloc: Global,
    mut words: Pieces<'_>,
) -> Result<Option<List<SpecifierWord>>, NoMemory>
    ensures { IfOk result (λ specifiers. specifiers ≡ each_of specifier_of words.entry) }
{
    let mut specifiers = List::new(alloc);
    'words: while let Some(word) = words.take() {
        match specifier_of(alloc, word)? {
            None => return Ok(None),
            Some(specifier) => push_tight(&mut specifiers, specifier)?,
        }
    }
    Ok(Some(specifiers))
}

// Takes the word `max=N`, where there is one.
fn take_max(words: &mut Pieces<'_>) -> Option<Option<u32>>
    ensures { option_map (λ max. (max, words.new)) result
        ≡ optional_of (codes "max=") (2 ^ 32 - 1) words.old }
{
    match take_labelled(words, b"max=", u64::from(u32::MAX))? {
        None => Some(None),
        Some(most) => Some(Some(most as u32)),
    }
}

/// The Fetch that a client asks for.
#[tactic(auto, unfolding(crate::specs::Lines::Fetch::fetch_of))]
pub fn fetch_of(alloc: Global, mut words: Pieces<'_>) -> Result<Option<FetchEvent>, NoMemory>
    ensures { IfOk result (λ event. event ≡ fetch_of words.entry) }
{
    let Some(address) = take_address(alloc, &mut words)? else {
        return Ok(None);
    };
    let Some(ttl) = take_ttl(&mut words) else {
        return Ok(None);
    };
    let Some(max) = take_max(&mut words) else {
        return Ok(None);
    };
    let Some(specifiers) = specifiers_of(alloc, words)? else {
        return Ok(None);
    };
    if !are_asked(specifiers.as_slice()) {
        return Ok(None);
    }
    let Address {
        client,
        peer,
        resource,
    } = address;
    Ok(Some(FetchEvent {
        client,
        peer,
        resource,
        ttl,
        seq: None,
        max,
        specifiers,
    }))
}
