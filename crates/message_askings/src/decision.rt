//! What the owner of a resource decides.

ghost use Rattle.std.specs.Prelude.{◌≡◌, ◌<◌, ◌^◌, IfOk, OnOk, OnErr};
ghost use Rattle.storage_model.specs.Records.{record_in};
ghost use Rattle.storage_model.specs.Refusals.{first_cause};
ghost use Rattle.storage_model.specs.Laws.{IsSoundAsked};
ghost use Rattle.storage_model.specs.Decisions as decisions;
ghost use Rattle.storage_model.specs.Decisions.{changed, effect_of, join_causes};
ghost use Rattle.storage_model.specs.declared.answer.Answer.TheVariants as decided;
ghost use Rattle.kind_store.specs.Steps.{IsCounted};
ghost use Rattle.kind_store.specs.Undoing.{TakesBack};

use data_models::Config;
use kind_store::{Shelf, Undo};
use reload_base::{List, NoMemory};
use reload_ids::{NodeId, ResourceId};
use std::alloc::Global;
use storage_model::{Answer, Asked, FetchVerdict, JoinAsked, Refusal, StoreVerdict};

/// What is decided on a request.
#[derive(Debug, Drop)]
pub struct Ruling {
    pub answer: Answer,
    /// Whether a value was put.
    pub acted: bool,
}

/// Decides on a request for a resource, at a clock in milliseconds (RFC 6940, sections 6.4.2.1 and
/// 7.4). The shelf holds the record afterwards. After `NoMemory` it is as before.
pub fn rule_on(
    alloc: Global,
    shelf: &mut Shelf,
    config: &Config,
    now: u64,
    resource: ResourceId,
    origin: NodeId,
    id: u64,
    request: &Asked,
) -> Result<Ruling, NoMemory>
    requires clock { now < 2 ^ 62 }
    requires counted { IsCounted (record_in shelf.old resource.0) }
    requires sound { IsSoundAsked config.now request.now }
    ensures answer { IfOk result (λ r. r.answer ≡ (effect_of config.now now resource.0
        (record_in shelf.old resource.0) origin id request.now).answer) }
    ensures acted { IfOk result (λ r. r.acted ≡ (effect_of config.now now resource.0
        (record_in shelf.old resource.0) origin id request.now).acted) }
    ensures shelf { OnOk result (shelf.new ≡ changed shelf.old resource.0
        (effect_of config.now now resource.0
        (record_in shelf.old resource.0) origin id request.now).next) }
    ensures err { OnErr result (shelf.new ≡ shelf.old) }
{
    let ruled = rule_on_with_undo(alloc, shelf, config, now, resource, origin, id, request)?;
    Ok(ruled.0)
}

/// Decides on a request as `rule_on`, and says what takes the decision back, where it may have
/// changed the record: no more is kept for that than what it touched. After `NoMemory` the shelf is
/// as before.
pub fn rule_on_with_undo(
    alloc: Global,
    shelf: &mut Shelf,
    config: &Config,
    now: u64,
    resource: ResourceId,
    origin: NodeId,
    id: u64,
    request: &Asked,
) -> Result<(Ruling, Option<Undo>), NoMemory>
    requires clock { now < 2 ^ 62 }
    requires counted { IsCounted (record_in shelf.old resource.0) }
    requires sound { IsSoundAsked config.now request.now }
    ensures answer { IfOk result (λ r. r.0.answer ≡ (effect_of config.now now resource.0
        (record_in shelf.old resource.0) origin id request.now).answer) }
    ensures acted { IfOk result (λ r. r.0.acted ≡ (effect_of config.now now resource.0
        (record_in shelf.old resource.0) origin id request.now).acted) }
    ensures shelf { OnOk result (shelf.new ≡ changed shelf.old resource.0
        (effect_of config.now now resource.0
        (record_in shelf.old resource.0) origin id request.now).next) }
    ensures undo { IfOk result (λ r. TakesBack r.1 shelf.new shelf.old) }
    ensures err { OnErr result (shelf.new ≡ shelf.old) }
{
    match request {
        Asked::Bad => Ok((refused(alloc, Refusal::InvalidMessage), None)),
        Asked::Unsigned => Ok((refused(alloc, Refusal::Forbidden), None)),
        Asked::Store(store) => {
            let (verdict, undo) = shelf.decide_store_with_undo(
                config, now, resource, origin, id, store,
            )?;
            Ok((stored(verdict), Some(undo)))
        }
        Asked::Fetch(fetch) => {
            let verdict = shelf.answer_fetch(alloc, config, now, resource, fetch)?;
            Ok((found(alloc, verdict), None))
        }
        Asked::Join(join) => rule_on_join(alloc, shelf, config, resource, join),
    }
}

fn refused(alloc: Global, cause: Refusal) -> Ruling
    ensures answer { result.answer ≡ (decisions.refusal cause).answer }
    ensures acted { result.acted ≡ (decisions.refusal cause).acted }
{
    Ruling {
        answer: Answer::Decided {
            code: cause.code(),
            counters: List::new(alloc),
        },
        acted: false,
    }
}

/// What is answered to a Store.
fn stored(verdict: StoreVerdict) -> Ruling
    ensures answer { result.answer ≡ decided.Decided verdict.code verdict.counters }
    ensures acted { result.acted ≡ verdict.acted }
{
    Ruling {
        answer: Answer::Decided {
            code: verdict.code,
            counters: verdict.counters,
        },
        acted: verdict.acted,
    }
}

/// What is answered to a Fetch.
fn found(alloc: Global, verdict: FetchVerdict) -> Ruling
    ensures answer { result.answer ≡ (decisions.found verdict).answer }
    ensures acted { result.acted ≡ (decisions.found verdict).acted }
{
    match verdict {
        FetchVerdict::Values(kinds) => Ruling {
            answer: Answer::Found { kinds },
            acted: false,
        },
        FetchVerdict::Refused(cause) => refused(alloc, cause),
    }
}

/// Why a Join is refused: its configuration is older or newer than the one that stands, or it has
/// an unknown critical extension.
#[tactic(auto, unfolding(storage_model::specs::Decisions::join_causes, storage_model::specs::Refusals::sequence_causes, storage_model::specs::Refusals::first_cause))]
fn join_cause(config: &Config, join: &JoinAsked) -> Option<Refusal>
    ensures { result ≡ first_cause (join_causes config.now join.now) }
{
    if join.sequence < config.sequence {
        Some(Refusal::ConfigTooOld)
    } else if config.sequence < join.sequence {
        Some(Refusal::ConfigTooNew)
    } else if join.strange {
        Some(Refusal::UnknownExtension)
    } else {
        None
    }
}

/// Decides on a Join: the first time the record notes that its peer joined.
fn rule_on_join(
    alloc: Global,
    shelf: &mut Shelf,
    config: &Config,
    resource: ResourceId,
    join: &JoinAsked,
) -> Result<(Ruling, Option<Undo>), NoMemory>
    requires { (record_in shelf.old resource.0).turn < 2 ^ 63 }
    ensures answer { IfOk result (λ r. r.0.answer ≡ (decisions.joined
        (first_cause (join_causes config.now join.now)) (record_in shelf.old resource.0)).answer) }
    ensures acted { IfOk result (λ r. r.0.acted ≡ (decisions.joined
        (first_cause (join_causes config.now join.now)) (record_in shelf.old resource.0)).acted) }
    ensures shelf { OnOk result (shelf.new ≡ changed shelf.old resource.0 (decisions.joined
        (first_cause (join_causes config.now join.now)) (record_in shelf.old resource.0)).next) }
    ensures undo { IfOk result (λ r. TakesBack r.1 shelf.new shelf.old) }
    ensures err { OnErr result (shelf.new ≡ shelf.old) }
{
    if let Some(cause) = join_cause(config, join) {
        return Ok((refused(alloc, cause), None));
    }
    let (_, undo) = shelf.set_joined_with_undo(resource)?;
    let ruling = Ruling {
        answer: Answer::Joined,
        acted: false,
    };
    Ok((ruling, Some(undo)))
}
