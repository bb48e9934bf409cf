//! A decision on a Store, with the record that the resource has (RFC 6940, section 7.4.1).

ghost use Rattle.std.specs.Prelude.{◌≡◌, ◌<◌, ◌^◌, ℕ, true, Some, None, IsSome, IfSome, unwrap_or, if◌then◌else◌, IfOk, OnOk, OnErr};
ghost use Rattle.std.specs.Option.{option_map};
ghost use Rattle.reload_base.specs.Lists.{pushed_within};
ghost use Rattle.storage_model.specs.declared.limits.TheConstants.{MAX_KEPT};
ghost use Rattle.storage_model.specs.Records.{kind_in};
ghost use Rattle.storage_model.specs.Refusals.{first_cause};
ghost use Rattle.storage_model.specs.Requests.{is_sound};
ghost use Rattle.storage_model.specs.Puts.{kinds_after};
ghost use Rattle.record_state.specs.Rings.{taken_back};
ghost use Rattle.storage_model.specs.Verdict as verdict;
ghost use Rattle.storage_model.specs.Verdict.{outcome_of};
ghost use Rattle.kind_store.specs.Steps as steps;
ghost use Rattle.kind_store.specs.Steps.{IsCounted};
ghost use Rattle.kind_store.specs.Undoing.{IsRecordUndo};

use crate::causes::{early_cause, sequence_cause};
use crate::limits;
use crate::record::Record;
use crate::undo::RecordUndo;
use data_models::Config;
use record_state::{
    Draft, KeptAnswers, Kinds, KindsUndo, any_puts, counters_in, counters_told, put_kinds, sweep,
};
use reload_base::{List, NoMemory, TryCopy};
use reload_ids::{NodeId, ResourceId};
use std::alloc::Global;
use storage_model::{Kept, Refusal, StoreAsked, StoreVerdict};

impl Record {
    /// Decides on a Store, at a clock in milliseconds, and says what takes that back. After
    /// `NoMemory` the record is as before.
    #[tactic(auto, unfolding(storage_model::specs::Verdict::outcome_of, storage_model::specs::Verdict::repeated))]
    pub(crate) fn decide(
        &mut self,
        alloc: Global,
        config: &Config,
        now: u64,
        resource: ResourceId,
        origin: NodeId,
        id: u64,
        request: &StoreAsked,
    ) -> Result<(StoreVerdict, RecordUndo), NoMemory>
        requires clock { now < 2 ^ 62 }
        requires counted { IsCounted self.old }
        requires sound { is_sound config.now request.now ≡ true }
        ensures verdict { IfOk result (λ d.
            d.0 ≡ (outcome_of config.now now resource.0 self.old origin id request.now).verdict) }
        ensures next { OnOk result (
            self.new ≡ unwrap_or
            (outcome_of config.now now resource.0 self.old origin id request.now).next
            self.old) }
        ensures undo { IfOk result (λ d. IsRecordUndo d.1 self.new self.old) }
        ensures err { OnErr result (self.new ≡ self.old) }
    {
        if let Some(kept) = self.kept.answer_to(origin.0, id) {
            let verdict = repeated(alloc, kept)?;
            return Ok((verdict, self.unchanged()));
        }
        self.decide_anew(alloc, config, now, resource, origin, id, request)
    }

    /// Decides on a Store whose answer isn't kept. After `NoMemory` the record is as before.
    fn decide_anew(
        &mut self,
        alloc: Global,
        config: &Config,
        now: u64,
        resource: ResourceId,
        origin: NodeId,
        id: u64,
        request: &StoreAsked,
    ) -> Result<(StoreVerdict, RecordUndo), NoMemory>
        requires clock { now < 2 ^ 62 }
        requires counted { IsCounted self.old }
        requires sound { is_sound config.now request.now ≡ true }
        ensures verdict { IfOk result (λ d.
            d.0 ≡ (verdict.decided (first_cause
            (verdict.store_causes config.now now resource.0 self.old.kinds request.now)) now
            self.old origin id request.now).verdict) }
        ensures next { OnOk result (
            self.new ≡ unwrap_or (verdict.decided (first_cause
            (verdict.store_causes config.now now resource.0 self.old.kinds request.now)) now
            self.old origin id request.now).next self.old) }
        ensures undo { IfOk result (λ d. IsRecordUndo d.1 self.new self.old) }
        ensures err { OnErr result (self.new ≡ self.old) }
    {
        match cause_before(config, resource, &self.kinds, request) {
            Some(cause) => self.refuse(alloc, cause, origin, id, request),
            None => self.accept_or_refuse(alloc, config, now, origin, id, request),
        }
    }

    /// Accepts a Store, or refuses it where its kinds would pass a limit. After `NoMemory` the
    /// record is as before.
    fn accept_or_refuse(
        &mut self,
        alloc: Global,
        config: &Config,
        now: u64,
        origin: NodeId,
        id: u64,
        request: &StoreAsked,
    ) -> Result<(StoreVerdict, RecordUndo), NoMemory>
        requires clock { now < 2 ^ 62 }
        requires counted { IsCounted self.old }
        requires sound { is_sound config.now request.now ≡ true }
        ensures verdict { IfOk result (λ d.
            d.0 ≡ (verdict.decided (steps.cause_of None (steps.is_large config.now
            (kinds_after now self.old.kinds request.now.kinds) request.now)) now self.old
            origin id request.now).verdict) }
        ensures next { OnOk result (
            self.new ≡ unwrap_or (verdict.decided (steps.cause_of None (steps.is_large config.now
            (kinds_after now self.old.kinds request.now.kinds) request.now)) now self.old
            origin id request.now).next self.old) }
        ensures undo { IfOk result (λ d. IsRecordUndo d.1 self.new self.old) }
        ensures err { OnErr result (self.new ≡ self.old) }
    {
        match self.accept(alloc, config, now, origin, id, request)? {
            Some(decided) => Ok(decided),
            None => self.refuse(alloc, Refusal::DataTooLarge, origin, id, request),
        }
    }

    /// Refuses a Store: its kinds stay. After `NoMemory` the record is as before.
    #[tactic(auto, unfolding(storage_model::specs::Verdict::refused))]
    fn refuse(
        &mut self,
        alloc: Global,
        cause: Refusal,
        origin: NodeId,
        id: u64,
        request: &StoreAsked,
    ) -> Result<(StoreVerdict, RecordUndo), NoMemory>
        requires { self.old.turn < 2 ^ 63 }
        ensures verdict { IfOk result (λ d. d.0 ≡
            (verdict.refused cause self.old origin id request.now).verdict) }
        ensures next { OnOk result (
            self.new ≡ unwrap_or
            (verdict.refused cause self.old origin id request.now).next self.old) }
        ensures undo { IfOk result (λ d. IsRecordUndo d.1 self.new self.old) }
        ensures err { OnErr result (self.new ≡ self.old) }
    {
        let counters = counters_told(alloc, cause, &self.kinds, request.kinds.as_slice())?;
        let undo = if is_traceless(cause) {
            self.unchanged()
        } else {
            self.note(alloc, origin, id, cause.code(), &counters)?
        };
        let verdict = StoreVerdict {
            code: cause.code(),
            counters,
            repeat: false,
            acted: false,
        };
        Ok((verdict, undo))
    }

    /// Keeps an answer, and raises the turn. After `NoMemory` the record is as before.
    #[tactic(auto, unfolding(storage_model::specs::Verdict::noted))]
    fn note(
        &mut self,
        alloc: Global,
        origin: NodeId,
        id: u64,
        code: u16,
        counters: &List<(u32, u64)>,
    ) -> Result<RecordUndo, NoMemory>
        requires { self.old.turn < 2 ^ 63 }
        ensures ok { OnOk result (
            self.new ≡ verdict.noted
            (steps.answer origin id code counters.now) self.old.kinds self.old) }
        ensures undo { IfOk result (λ undo. IsRecordUndo undo self.new self.old) }
        ensures err { OnErr result (self.new ≡ self.old) }
    {
        let oldest = keep(&mut self.kept, alloc, origin, id, code, counters)?;
        self.turn += 1;
        let kinds = KindsUndo::nothing(alloc);
        Ok(RecordUndo::Noted { kinds, oldest })
    }

    /// What takes nothing back.
    fn unchanged(&self) -> RecordUndo
        ensures { IsRecordUndo result self.now self.now }
    {
        let _ = &self.turn;
        RecordUndo::Nothing
    }

    /// Accepts a Store. `None` where its kinds would pass a limit: then, and after `NoMemory`, the
    /// record is as before.
    fn accept(
        &mut self,
        alloc: Global,
        config: &Config,
        now: u64,
        origin: NodeId,
        id: u64,
        request: &StoreAsked,
    ) -> Result<Option<(StoreVerdict, RecordUndo)>, NoMemory>
        requires clock { now < 2 ^ 62 }
        requires counted { IsCounted self.old }
        requires sound { is_sound config.now request.now ≡ true }
        ensures verdict { IfOk result (λ r.
            option_map (λ d. d.0) r ≡ steps.settled config.now
            (kinds_after now self.old.kinds request.now.kinds) request.now) }
        ensures some { IfOk result (λ r. IsSome r → self.new ≡ verdict.noted
            (steps.accepted_answer
            (kinds_after now self.old.kinds request.now.kinds) origin id request.now)
            (kinds_after now self.old.kinds request.now.kinds) self.old) }
        ensures none { IfOk result (λ r. r ≡ None → self.new ≡ self.old) }
        ensures undo { IfOk result (λ r. IfSome r (λ d. IsRecordUndo d.1 self.new self.old)) }
        ensures err { OnErr result (self.new ≡ self.old) }
    {
        let kinds = std::mem::replace(&mut self.kinds, Kinds::new(alloc));
        let mut draft = Draft::new(alloc, kinds);
        match changed(
            &mut draft,
            &mut self.kept,
            alloc,
            config,
            now,
            origin,
            id,
            request,
        ) {
            Ok(Some(settled)) => {
                let (verdict, oldest) = settled;
                let (after, kinds) = draft.commit();
                self.kinds = after;
                self.turn += 1;
                Ok(Some((verdict, RecordUndo::Noted { kinds, oldest })))
            }
            Ok(None) => {
                self.kinds = draft.rollback();
                Ok(None)
            }
            Err(error) => {
                self.kinds = draft.rollback();
                Err(error)
            }
        }
    }
}

/// Changes the kinds as an accepted Store does, and keeps its answer. `None` where they pass a
/// limit then: nothing is
/// kept, as after `NoMemory`.
#[tactic(auto, unfolding(storage_model::specs::Puts::kinds_after))]
fn changed(
    draft: &mut Draft,
    kept: &mut KeptAnswers,
    alloc: Global,
    config: &Config,
    now: u64,
    origin: NodeId,
    id: u64,
    request: &StoreAsked,
) -> Result<Option<(StoreVerdict, Option<Kept>)>, NoMemory>
    requires clock { now < 2 ^ 62 }
    requires counted { (kind : ℕ) → (kind_in draft.old.kinds kind).generation < 2 ^ 63 }
    requires sound { is_sound config.now request.now ≡ true }
    ensures before { draft.new.before ≡ draft.old.before }
    ensures kinds { OnOk result (draft.new.kinds
        ≡ kinds_after now draft.old.kinds request.now.kinds) }
    ensures verdict { IfOk result (λ r.
        option_map (λ d. d.0) r ≡ steps.settled config.now
        (kinds_after now draft.old.kinds request.now.kinds) request.now) }
    ensures kept { OnOk result (kept.new ≡ steps.settled_kept config.now
        (kinds_after now draft.old.kinds request.now.kinds) origin id request.now kept.old) }
    ensures oldest { IfOk result (λ r. IfSome r (λ d. taken_back d.1 kept.new ≡ kept.old)) }
    ensures err { OnErr result (kept.new ≡ kept.old) }
{
    sweep(draft, alloc, now)?;
    put_kinds(draft, alloc, now, config, request)?;
    settled(draft.kinds(), kept, alloc, config, origin, id, request)
}

/// The verdict on an accepted Store whose kinds are these afterwards. Its answer is kept. `None`
/// where they pass a
/// limit: nothing is kept, as after `NoMemory`.
#[tactic(auto, unfolding(crate::specs::Steps::settled, crate::specs::Steps::settled_kept))]
fn settled(
    after: &Kinds,
    kept: &mut KeptAnswers,
    alloc: Global,
    config: &Config,
    origin: NodeId,
    id: u64,
    request: &StoreAsked,
) -> Result<Option<(StoreVerdict, Option<Kept>)>, NoMemory>
    ensures verdict { IfOk result (λ r.
        option_map (λ d. d.0) r ≡ steps.settled config.now after.now request.now) }
    ensures kept { OnOk result (kept.new
        ≡ steps.settled_kept config.now after.now origin id request.now kept.old) }
    ensures oldest { IfOk result (λ r. IfSome r (λ d. taken_back d.1 kept.new ≡ kept.old)) }
    ensures err { OnErr result (kept.new ≡ kept.old) }
{
    if limits::is_large(config, after, request) {
        return Ok(None);
    }
    let asked = request.kinds.as_slice();
    let counters = counters_in(alloc, after, asked)?;
    let oldest = keep(kept, alloc, origin, id, 0, &counters)?;
    let verdict = StoreVerdict {
        code: 0,
        counters,
        repeat: false,
        acted: any_puts(asked),
    };
    Ok(Some((verdict, oldest)))
}

/// The first cause to refuse a Store but the limits of its kinds.
fn cause_before(
    config: &Config,
    resource: ResourceId,
    kinds: &Kinds,
    request: &StoreAsked,
) -> Option<Refusal>
    ensures { result ≡ steps.cause_before config.now resource.0 kinds.now request.now }
{
    match sequence_cause(config, request.sequence) {
        Some(cause) => Some(cause),
        None => early_cause(config, resource, kinds, request),
    }
}

/// Whether a refusal leaves no trace in the record: the asker's configuration is another.
fn is_traceless(cause: Refusal) -> bool
    ensures { result ≡ verdict.is_traceless cause }
{
    match cause {
        Refusal::ConfigTooOld | Refusal::ConfigTooNew => true,
        _ => false,
    }
}

/// Keeps an answer in place of the oldest of [`MAX_KEPT`], which is handed back. After `NoMemory`
/// all are as before.
fn keep(
    kept: &mut KeptAnswers,
    alloc: Global,
    origin: NodeId,
    id: u64,
    code: u16,
    counters: &List<(u32, u64)>,
) -> Result<Option<Kept>, NoMemory>
    ensures ok { OnOk result (kept.new ≡ pushed_within MAX_KEPT kept.old
        (steps.answer origin id code counters.now)) }
    ensures oldest { IfOk result (λ oldest. taken_back oldest kept.new ≡ kept.old) }
    ensures err { OnErr result (kept.new ≡ kept.old) }
{
    let answer = Kept {
        origin,
        id,
        code,
        counters: counters.copy(alloc)?,
    };
    kept.push(answer)
}

/// The answer that was kept, once more.
#[tactic(auto, unfolding(storage_model::specs::Verdict::repeated))]
fn repeated(alloc: Global, kept: &Kept) -> Result<StoreVerdict, NoMemory>
    ensures { IfOk result (λ v. v ≡ (verdict.repeated kept.now).verdict) }
{
    Ok(StoreVerdict {
        code: kept.code,
        counters: kept.counters.copy(alloc)?,
        repeat: true,
        acted: false,
    })
}
