//! The kinds of a Store, as they are read word by word.

ghost use Rattle.std.specs.Prelude.{◌≡◌, IfOk, length, option_map};
ghost use Rattle.request_words.specs.Groups.{closed, first_group_of, groups_of, head_of, head_word_of, opened, with_head, with_value, with_word, with_words};

use crate::room::push_tight;
use crate::value::{ValueWord, value_of};
use reload_base::{List, NoMemory};
use std::alloc::Global;
use text_words::{Pieces, behind, decimal_of, upto};

/// A kind of a Store.
#[derive(Debug, Drop)]
pub struct GroupWords {
    /// The Kind-ID.
    pub kind: u32,
    /// The generation counter that is asked for, or 0 for any.
    pub generation: u64,
    /// At least one.
    pub values: List<ValueWord>,
}

/// The groups so far. The last one may have no value yet.
#[derive(Debug, Drop)]
pub struct OpenGroups {
    pub before: List<GroupWords>,
    pub last: GroupWords,
}

// The kind and the generation counter behind `kind=`.
#[tactic(auto, unfolding(crate::specs::Groups::head_of))]
fn head_of(rest: &[u8]) -> Option<(u32, u64)>
    ensures { result ≡ head_of rest.now }
{
    let (kind, generation) = upto(b'/', rest)?;
    let kind = decimal_of(u64::from(u32::MAX), kind)?;
    let generation = decimal_of(u64::MAX, generation)?;
    Some((kind as u32, generation))
}

// The kind and the generation counter of a group's first word.
#[tactic(auto, unfolding(crate::specs::Groups::head_word_of))]
fn head_word_of(word: &[u8]) -> Option<(u32, u64)>
    ensures { result ≡ head_word_of word.now }
{
    head_of(behind(b"kind=", word)?)
}

// A group without values yet.
fn opened(alloc: Global, head: (u32, u64)) -> GroupWords
    ensures { result ≡ opened head }
{
    GroupWords {
        kind: head.0,
        generation: head.1,
        values: List::new(alloc),
    }
}

// The groups, where the last one has a value.
#[tactic(auto, unfolding(crate::specs::Groups::closed))]
fn closed(so_far: OpenGroups) -> Result<Option<List<GroupWords>>, NoMemory>
    ensures { IfOk result (λ groups. groups ≡ closed so_far) }
{
    let OpenGroups { mut before, last } = so_far;
    if last.values.is_empty() {
        return Ok(None);
    }
    push_tight(&mut before, last)?;
    Ok(Some(before))
}

fn with_head(alloc: Global, so_far: OpenGroups, rest: &[u8]) -> Result<Option<OpenGroups>, NoMemory>
    ensures { IfOk result (λ groups. groups ≡ with_head so_far rest.now) }
{
    let Some(head) = head_of(rest) else {
        return Ok(None);
    };
    let Some(before) = closed(so_far)? else {
        return Ok(None);
    };
    Ok(Some(OpenGroups {
        before,
        last: opened(alloc, head),
    }))
}

fn with_value(
    alloc: Global,
    mut so_far: OpenGroups,
    word: &[u8],
) -> Result<Option<OpenGroups>, NoMemory>
    ensures { IfOk result (λ groups. groups ≡ with_value so_far word.now) }
{
    let Some(value) = value_of(alloc, word)? else {
        return Ok(None);
    };
    push_tight(&mut so_far.last.values, value)?;
    Ok(Some(so_far))
}

// The groups with one more word: the head of a further group, or a value of the last one.
#[tactic(auto, unfolding(crate::specs::Groups::with_word))]
fn with_word(alloc: Global, so_far: OpenGroups, word: &[u8]) -> Result<Option<OpenGroups>, NoMemory>
    ensures { IfOk result (λ groups. groups ≡ with_word so_far word.now) }
{
    match behind(b"kind=", word) {
        Some(rest) => with_head(alloc, so_far, rest),
        None => with_value(alloc, so_far, word),
    }
}

// The groups with all words that are left.
fn with_words(
    alloc: Global,
    first: OpenGroups,
    mut words: Pieces<'_>,
) -> Result<Option<List<GroupWords>>, NoMemory>
    ensures { IfOk result (λ groups. groups ≡ with_words first words.entry) }
{
    let mut so_far = first;
    'words: while let Some(word) = words.take() {
        match with_word(alloc, so_far, word)? {
            None => return Ok(None),
            Some(next) => so_far = next,
        }
    }
    closed(so_far)
}

// The first group, from its head.
#[tactic(auto, unfolding(crate::specs::Groups::first_group_of))]
fn first_group_of(alloc: Global, word: &[u8]) -> Option<OpenGroups>
    ensures { result ≡ first_group_of word.now }
{
    let head = head_word_of(word)?;
    Some(OpenGroups {
        before: List::new(alloc),
        last: opened(alloc, head),
    })
}

/// The groups that words say: at least one, each with a value.
#[tactic(auto, unfolding(crate::specs::Groups::groups_of))]
pub fn groups_of(alloc: Global, mut words: Pieces<'_>) -> Result<Option<List<GroupWords>>, NoMemory>
    ensures { IfOk result (λ groups. groups ≡ groups_of words.entry) }
{
    let Some(first) = words.take() else {
        return Ok(None);
    };
    let Some(so_far) = first_group_of(alloc, first) else {
        return Ok(None);
    };
    with_words(alloc, so_far, words)
}
