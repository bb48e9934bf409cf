//! The answer to a Fetch (RFC 6940, section 7.4.2).

ghost use Rattle.std.specs.Prelude.{◌≡◌, ◌++◌, ◌∷◌, [], ◌≤◌, map, fold, min, is_none, IfOk, OnOk, if◌then◌else◌};
ghost use Rattle.std.specs.List.{list_any};
ghost use Rattle.data_models.specs.Configs.{kind_of};
ghost use Rattle.storage_model.specs.Records.{kind_in, empty_kind};
ghost use Rattle.storage_model.specs.Fetches as fetches;
ghost use Rattle.storage_model.specs.Refusals.{first_cause, sequence_causes};
ghost use Rattle.kind_store.specs.Gathered.{with_keys, gathered, with_kind};

use crate::causes::sequence_cause;
use crate::gathering::{ENOUGH, Gathering};
use data_models::{Config, KindValues, Specifier, StoreKind};
use record_state::{KindState, Kinds};
use reload_base::{List, NoMemory};
use std::alloc::Global;
use storage_model::{FetchAsked, FetchVerdict, MAX_ANSWER, Refusal};

/// Kinds of an answer, and its size so far in bytes, counted up to [`ENOUGH`].
#[derive(Debug, Drop)]
pub struct Found {
    pub kinds: List<StoreKind>,
    pub size: u64,
}

/// The answer to a Fetch. No more is copied than an answer may have.
#[tactic(auto)]
pub fn fetch_from(
    alloc: Global,
    config: &Config,
    now: u64,
    kinds: &Kinds,
    request: &FetchAsked,
) -> Result<FetchVerdict, NoMemory>
    ensures { IfOk result (λ v. v ≡ fetches.fetch_verdict config.now now kinds.now request.now) }
{
    if let Some(cause) = early_cause(config, request) {
        return Ok(FetchVerdict::Refused(cause));
    }
    let found = find_all(alloc, now, kinds, request.specifiers.as_slice())?;
    Ok(answer(request.max, found))
}

/// The first cause to refuse a Fetch before its answer is looked at.
#[tactic(auto)]
fn early_cause(config: &Config, request: &FetchAsked) -> Option<Refusal>
    ensures { result ≡ first_cause (sequence_causes config.now request.now.sequence
        ++ (Refusal.UnknownExtension, request.now.strange)
        ∷ (
          Refusal.UnknownKind,
          list_any (λ s. is_none
              (kind_of config.now s.kind)) request.now.specifiers,
        ) ∷ []) }
{
    match sequence_cause(config, request.sequence) {
        Some(cause) => Some(cause),
        None => unknown_cause(config, request),
    }
}

#[tactic(auto, unfolding(storage_model::specs::Refusals::first_cause))]
fn unknown_cause(config: &Config, request: &FetchAsked) -> Option<Refusal>
    ensures { result ≡ first_cause ((Refusal.UnknownExtension, request.now.strange)
        ∷ (
          Refusal.UnknownKind,
          list_any (λ s. is_none
              (kind_of config.now s.kind)) request.now.specifiers,
        ) ∷ []) }
{
    if request.strange {
        Some(Refusal::UnknownExtension)
    } else if any_unknown(config, request.specifiers.as_slice()) {
        Some(Refusal::UnknownKind)
    } else {
        None
    }
}

/// Whether a Fetch names a kind that the configuration lacks.
fn any_unknown(config: &Config, specifiers: &[Specifier]) -> bool
    ensures { result ≡ list_any (λ s. is_none (kind_of config.now s.kind)) specifiers.now }
{
    specifiers
        .iter()
        .any(|asked| config.kind(asked.kind).is_none())
}

/// The answer with what was found, unless that is too long for the asker or for any.
fn answer(max: u32, found: Found) -> FetchVerdict
    ensures { result ≡ (if fetches.is_too_long max found.size
        then FetchVerdict.Refused Refusal.ResponseTooLarge else FetchVerdict.Values found.kinds) }
{
    if is_too_long(max, found.size) {
        FetchVerdict::Refused(Refusal::ResponseTooLarge)
    } else {
        FetchVerdict::Values(found.kinds)
    }
}

#[tactic(auto, unfolding(storage_model::specs::Fetches::is_too_long))]
fn is_too_long(max: u32, size: u64) -> bool
    ensures { result ≡ fetches.is_too_long max size }
{
    size > MAX_ANSWER || max != 0 && size > u64::from(max)
}

/// The kinds of an answer, in the order of the request. The 14 bytes are those beside them.
fn find_all(
    alloc: Global,
    now: u64,
    kinds: &Kinds,
    specifiers: &[Specifier],
) -> Result<Found, NoMemory>
    ensures { IfOk result (λ found. found
        ≡ fold (with_kind now kinds.now) (record { kinds = []; size = 14 }) specifiers.now) }
{
    let mut found = Found {
        kinds: List::new(alloc),
        size: 14,
    };
    for asked in specifiers {
        find(alloc, now, kinds, asked, &mut found)?;
    }
    Ok(found)
}

/// Adds a kind to an answer.
#[tactic(auto, unfolding(crate::specs::Gathered::with_kind))]
fn find(
    alloc: Global,
    now: u64,
    kinds: &Kinds,
    asked: &Specifier,
    found: &mut Found,
) -> Result<(), NoMemory>
    ensures { OnOk result (found.new ≡ with_kind now kinds.now found.old asked.now) }
{
    let gathering = gather(alloc, now, kinds, asked, found.size)?;
    found.kinds.push(StoreKind {
        kind: asked.kind,
        generation: kinds.generation_of(asked.kind),
        values: KindValues::Known(gathering.values),
    })?;
    found.size = gathering.size;
    Ok(())
}

/// The values of a kind of an answer. The 16 bytes are those beside them.
#[tactic(auto, unfolding(crate::specs::Gathered::gathered))]
fn gather(
    alloc: Global,
    now: u64,
    kinds: &Kinds,
    asked: &Specifier,
    size: u64,
) -> Result<Gathering, NoMemory>
    ensures { IfOk result (λ g. g ≡ gathered now kinds.now size asked.now) }
{
    let empty = KindState::new(alloc);
    let kind = kind_or(kinds, asked.kind, &empty);
    let mut gathering = Gathering {
        values: List::new(alloc),
        size: size.saturating_add(16).min(ENOUGH),
    };
    add_given(alloc, now, kind, asked, &mut gathering)?;
    Ok(gathering)
}

/// Gathers the values of a kind: none where the asker has their generation.
#[tactic(auto, using(crate::proofs::Gathers::none), unfolding(storage_model::specs::Fetches::slots_given))]
fn add_given(
    alloc: Global,
    now: u64,
    kind: &KindState,
    asked: &Specifier,
    gathering: &mut Gathering,
) -> Result<(), NoMemory>
    ensures { OnOk result (gathering.new
        ≡ with_keys now kind.now.slots gathering.old (fetches.slots_given now kind.now asked.now)) }
{
    if is_known(kind, asked) {
        Ok(())
    } else {
        gathering.add(alloc, now, &kind.slots, &asked.selector)
    }
}

/// What there is of a kind, or else what there is where nobody wrote.
fn kind_or<'a>(kinds: &'a Kinds, id: u32, empty: &'a KindState) -> &'a KindState
    requires { empty.now ≡ empty_kind }
    ensures { result.now ≡ kind_in kinds.now id }
{
    match kinds.get(id) {
        Some(kind) => kind,
        None => empty,
    }
}

/// Whether the asker has the stored generation already.
#[tactic(auto, unfolding(storage_model::specs::Fetches::is_known))]
fn is_known(kind: &KindState, asked: &Specifier) -> bool
    ensures { result ≡ fetches.is_known kind.now asked.now }
{
    asked.generation != 0 && asked.generation == kind.generation
}
