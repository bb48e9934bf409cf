//! What the words of a request say.

use data_models::Specifier;
use reload_base::{List, NoMemory};
use reload_ids::{ResourceId, resource_of};
use request_words::{GroupWords, ResourceName, SpecifierWord, groups_of, specifier_of};
use std::alloc::Global;
use text_words::{upto, words_of};

/// What is asked.
#[derive(Drop)]
pub(crate) enum Asking {
    Store(List<GroupWords>),
    Fetch(List<Specifier>),
    Join,
}

/// The word before the first space, and what is behind it.
fn first_word(line: &[u8]) -> (&[u8], &[u8]) {
    match upto(b' ', line) {
        Some(parts) => parts,
        None => (line, b""),
    }
}

fn id_of(resource: &ResourceName) -> ResourceId {
    match resource {
        ResourceName::Name(name) => resource_of(name.as_slice()),
        ResourceName::Id(resource) => *resource,
    }
}

fn specifier_by(word: SpecifierWord) -> Specifier {
    Specifier {
        kind: word.kind,
        generation: word.generation.unwrap_or(0),
        selector: word.selector,
    }
}

fn specifiers_in(alloc: Global, words: &[u8]) -> Result<Option<List<Specifier>>, NoMemory> {
    let mut all = List::new(alloc);
    for word in words.split(|byte| *byte == b' ') {
        let Some(specifier) = specifier_of(alloc, word)? else {
            return Ok(None);
        };
        all.push(specifier_by(specifier))?;
    }
    Ok(Some(all))
}

fn asking_of(alloc: Global, verb: &[u8], words: &[u8]) -> Result<Option<Asking>, NoMemory> {
    if verb == b"store".as_slice() {
        return Ok(groups_of(alloc, words_of(words))?.map(Asking::Store));
    }
    if verb == b"fetch".as_slice() {
        return Ok(specifiers_in(alloc, words)?.map(Asking::Fetch));
    }
    if verb == b"join".as_slice() {
        return Ok(Some(Asking::Join));
    }
    Ok(None)
}

/// The resource and what is asked of it, by a line `store RES GROUP..`, `fetch RES SPECIFIER..` or
/// `join RES`.
pub(crate) fn read_line(
    alloc: Global,
    line: &[u8],
) -> Result<Option<(ResourceId, Asking)>, NoMemory> {
    let (verb, rest) = first_word(line);
    let (name, words) = first_word(rest);
    let Some(resource) = request_words::resource_of(alloc, name)? else {
        return Ok(None);
    };
    match asking_of(alloc, verb, words)? {
        Some(asking) => Ok(Some((id_of(&resource), asking))),
        None => Ok(None),
    }
}
