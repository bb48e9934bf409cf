//! The records of one peer, by resource.

ghost use Rattle.std.specs.Prelude.{◌≡◌, ◌≤◌, ◌<◌, ◌^◌, true, Some, None, is_some, IsSome, IfSome, nat_lt, if◌then◌else◌, IfOk, OnOk, OnErr};
ghost use Rattle.std.specs.Option.{option_copied, option_map_or};
ghost use Rattle.std.specs.FinMap as map;
ghost use Rattle.storage_model.specs.declared.limits.TheConstants.{MAX_WEIGHT};
ghost use Rattle.storage_model.specs.Records.{Map, record_in, weight};
ghost use Rattle.storage_model.specs.Requests.{is_sound};
ghost use Rattle.storage_model.specs.Verdict.{outcome_of};
ghost use Rattle.storage_model.specs.Fetches.{fetch_verdict};
ghost use Rattle.storage_model.specs.Decisions.{changed, with_joined};
ghost use Rattle.kind_store.specs.Steps.{IsCounted};
ghost use Rattle.kind_store.specs.Written.{written};
ghost use Rattle.kind_store.specs.Undoing.{there_at, added_at, record_undone, change_undone, IsUndo};
ghost use Rattle.kind_store.specs.declared.undo.Change.TheVariants as changes;

use crate::fetch::fetch_from;
use crate::record::Record;
use crate::undo::{Change, RecordUndo, Undo};
use data_models::Config;
use ordered_tables::NumberTable;
use record_state::Kinds;
use reload_base::{List, NoMemory, TryCopy};
use reload_ids::{NodeId, ResourceId};
use std::alloc::Global;
use std::marker::Model;
use storage_model::{FetchAsked, FetchVerdict, StoreAsked, StoreVerdict};

/// The records of one peer, by resource. Contracts see the map from resources to records.
#[derive(Debug, Drop)]
pub struct Shelf {
    alloc: Global,
    table: NumberTable<Record>,
}

impl Model for Shelf {
    ghost use Rattle.std.specs.Ordering.{nat_cmp};
    ghost use Rattle.std.specs.FinMap as map;
    ghost use Rattle.std.specs.Coded.{coded_ℕ};
    ghost use Rattle.storage_model.specs.Records as records;
    ghost use Rattle.kind_store.specs.Codes.{record_code};

    ghost Value = { records.Map };

    ghost coded = { map.code coded_ℕ record_code };

    ghost view = { λ s. s.table };
}

/// What takes the change of a record back.
fn undo_there(resource: ResourceId, undo: RecordUndo) -> Undo
    ensures { result ≡ there_at resource undo }
{
    Undo {
        resource,
        change: Change::There(undo),
    }
}

/// What takes a new record away.
fn undo_added(resource: ResourceId) -> Undo
    ensures { result ≡ added_at resource }
{
    Undo {
        resource,
        change: Change::Added,
    }
}

impl Shelf {
    /// A shelf without records, which takes no memory yet.
    pub fn new(alloc: Global) -> Shelf
        ensures { result ≡ map.empty }
    {
        Shelf {
            alloc,
            table: NumberTable::new(alloc),
        }
    }

    /// Decides on a Store for a resource (RFC 6940, section 7.4.1), at a clock in milliseconds. An
    /// answer that is
    /// kept for the same origin and transaction id is given again. It needs a request that makes
    /// sense (`sound`).
    /// After `NoMemory` the shelf is as before.
    pub fn decide_store(
        &mut self,
        config: &Config,
        now: u64,
        resource: ResourceId,
        origin: NodeId,
        id: u64,
        request: &StoreAsked,
    ) -> Result<StoreVerdict, NoMemory>
        requires clock { now < 2 ^ 62 }
        requires counted { IsCounted (record_in self.old resource.0) }
        requires sound { is_sound config.now request.now ≡ true }
        ensures verdict { IfOk result (λ v. v
            ≡ (outcome_of config.now now resource.0
            (record_in self.old resource.0) origin id request.now).verdict) }
        ensures shelf { OnOk result (self.new ≡ changed self.old resource.0
            (outcome_of config.now now resource.0
            (record_in self.old resource.0) origin id request.now).next) }
        ensures err { OnErr result (self.new ≡ self.old) }
    {
        let decided = self.decide_store_with_undo(config, now, resource, origin, id, request)?;
        Ok(decided.0)
    }

    /// Decides on a Store as `decide_store`, and says what takes the decision back: only what it
    /// touched. After `NoMemory` the shelf is as before.
    pub fn decide_store_with_undo(
        &mut self,
        config: &Config,
        now: u64,
        resource: ResourceId,
        origin: NodeId,
        id: u64,
        request: &StoreAsked,
    ) -> Result<(StoreVerdict, Undo), NoMemory>
        requires clock { now < 2 ^ 62 }
        requires counted { IsCounted (record_in self.old resource.0) }
        requires sound { is_sound config.now request.now ≡ true }
        ensures verdict { IfOk result (λ d. d.0
            ≡ (outcome_of config.now now resource.0
            (record_in self.old resource.0) origin id request.now).verdict) }
        ensures shelf { OnOk result (self.new ≡ changed self.old resource.0
            (outcome_of config.now now resource.0
            (record_in self.old resource.0) origin id request.now).next) }
        ensures undo { IfOk result (λ d. IsUndo d.1 self.new self.old) }
        ensures err { OnErr result (self.new ≡ self.old) }
    {
        let mut record = Record::empty(self.alloc);
        if self.table.exchange(resource.0, &mut record) {
            let decided = record.decide(self.alloc, config, now, resource, origin, id, request);
            self.table.exchange(resource.0, &mut record);
            let (verdict, undo) = decided?;
            return Ok((verdict, undo_there(resource, undo)));
        }
        let (verdict, undo) = record.decide(
            self.alloc, config, now, resource, origin, id, request,
        )?;
        if record.turn() == 0 {
            return Ok((verdict, undo_there(resource, undo)));
        }
        self.table.insert(resource.0, record)?;
        Ok((verdict, undo_added(resource)))
    }

    /// Takes the last decision back. No memory is taken.
    pub fn undo(&mut self, undo: Undo)
        requires { (before : Map) × IsUndo undo self.old before }
        ensures { (before : Map) → IsUndo undo self.old before → self.new ≡ before }
    {
        let Undo { resource, change } = undo;
        match change {
            Change::There(undo) => self.undo_there(resource, undo),
            Change::Added => self.undo_added(resource),
        }
    }

    /// Takes the last change of a record back, where there is one.
    #[tactic(auto, unfolding(crate::specs::Undoing::change_undone))]
    fn undo_there(&mut self, resource: ResourceId, undo: RecordUndo)
        requires { IfSome (map.get self.old resource.0)
            (λ x. weight (record_undone undo x).kinds ≤ MAX_WEIGHT) }
        ensures { self.new ≡ change_undone (changes.There undo) resource.0 self.old }
    {
        let mut record = Record::empty(self.alloc);
        if !self.table.exchange(resource.0, &mut record) {
            return;
        }
        record.undo(undo);
        self.table.exchange(resource.0, &mut record);
    }

    /// Takes a new record away.
    #[tactic(auto, unfolding(crate::specs::Undoing::change_undone))]
    fn undo_added(&mut self, resource: ResourceId)
        ensures { self.new ≡ change_undone changes.Added resource.0 self.old }
    {
        self.table.remove(resource.0);
    }

    /// Answers a Fetch for a resource (RFC 6940, section 7.4.2), at a clock in milliseconds: its
    /// values, each with the
    /// rest of its lifetime, or why it is refused. An expired value is given as a gap.
    pub fn answer_fetch(
        &self,
        alloc: Global,
        config: &Config,
        now: u64,
        resource: ResourceId,
        request: &FetchAsked,
    ) -> Result<FetchVerdict, NoMemory>
        ensures { IfOk result (λ v. v ≡ fetch_verdict config.now now
            (record_in self.now resource.0).kinds request.now) }
    {
        match self.table.get(resource.0) {
            Some(record) => fetch_from(alloc, config, now, &record.kinds, request),
            None => fetch_from(alloc, config, now, &Kinds::new(alloc), request),
        }
    }

    /// The record of a resource, where one was written.
    pub fn held(&self, resource: ResourceId) -> Option<&Record>
        ensures { option_copied result ≡ map.get self.now resource.0 }
    {
        self.table.get(resource.0)
    }

    /// Notes that a peer joined with a resource as its Node-ID: true the first time, when the
    /// record's turn rises.
    /// After `NoMemory` the shelf is as before.
    pub fn set_joined(&mut self, resource: ResourceId) -> Result<bool, NoMemory>
        requires { (record_in self.old resource.0).turn < 2 ^ 63 }
        ensures first { IfOk result (λ first. first ≡ is_some (with_joined
            (record_in self.old resource.0))) }
        ensures shelf { OnOk result (
            self.new ≡ changed self.old resource.0 (with_joined (record_in self.old resource.0))) }
        ensures err { OnErr result (self.new ≡ self.old) }
    {
        let noted = self.set_joined_with_undo(resource)?;
        Ok(noted.0)
    }

    /// Notes that a peer joined as `set_joined`, and says what takes that back. After `NoMemory`
    /// the shelf is as before.
    pub fn set_joined_with_undo(&mut self, resource: ResourceId) -> Result<(bool, Undo), NoMemory>
        requires { (record_in self.old resource.0).turn < 2 ^ 63 }
        ensures first { IfOk result (λ noted. noted.0 ≡ is_some (with_joined
            (record_in self.old resource.0))) }
        ensures shelf { OnOk result (
            self.new ≡ changed self.old resource.0 (with_joined (record_in self.old resource.0))) }
        ensures undo { IfOk result (λ noted. IsUndo noted.1 self.new self.old) }
        ensures err { OnErr result (self.new ≡ self.old) }
    {
        let mut record = Record::empty(self.alloc);
        if self.table.exchange(resource.0, &mut record) {
            let (first, undo) = record.set_joined();
            self.table.exchange(resource.0, &mut record);
            return Ok((first, undo_there(resource, undo)));
        }
        record.set_joined();
        self.table.insert(resource.0, record)?;
        Ok((true, undo_added(resource)))
    }

    /// Puts a given record in the place of the one of a resource, exactly where the given turn is
    /// greater, and answers
    /// whether it did. After `NoMemory` the shelf is as before.
    pub fn merge_record(&mut self, resource: ResourceId, given: Record) -> Result<bool, NoMemory>
        ensures taken { IfOk result (λ taken. taken ≡ nat_lt
            (record_in self.old resource.0).turn given.turn) }
        ensures shelf { OnOk result (self.new ≡ (if nat_lt
            (record_in self.old resource.0).turn given.turn
            then map.insert self.old resource.0 given else self.old)) }
        ensures err { OnErr result (self.new ≡ self.old) }
    {
        if given.turn() <= self.turn_of(resource) {
            return Ok(false);
        }
        self.table.insert(resource.0, given)?;
        Ok(true)
    }

    /// How often the record of a resource changed.
    fn turn_of(&self, resource: ResourceId) -> u64
        ensures { result ≡ (record_in self.now resource.0).turn }
    {
        match self.table.get(resource.0) {
            Some(record) => record.turn(),
            None => 0,
        }
    }

    /// A copy of the record of a resource, where one is held.
    pub fn copy_record(
        &self,
        alloc: Global,
        resource: ResourceId,
    ) -> Result<Option<Record>, NoMemory>
        ensures { IfOk result (λ copy. copy ≡ map.get self.now resource.0) }
    {
        match self.table.get(resource.0) {
            Some(record) => Ok(Some(record.copy(alloc)?)),
            None => Ok(None),
        }
    }

    /// Makes a record that of a resource again, or takes the record away where there is none to put
    /// back. No memory is
    /// taken, so there must be a record in whose place it is put.
    pub fn put_back(&mut self, resource: ResourceId, old: Option<Record>)
        requires { IsSome old → IsSome (map.get self.old resource.0) }
        ensures { self.new ≡ option_map_or (map.insert self.old resource.0) old
            (map.remove self.old resource.0) }
    {
        match old {
            Some(record) => self.put_in_place(resource, record),
            None => {
                self.table.remove(resource.0);
            }
        }
    }

    fn put_in_place(&mut self, resource: ResourceId, given: Record)
        requires { IsSome (map.get self.old resource.0) }
        ensures { self.new ≡ map.insert self.old resource.0 given }
    {
        let mut other = given;
        self.table.exchange(resource.0, &mut other);
    }

    /// What the kinds of a resource weigh, in this profile's bytes: at most [`MAX_WEIGHT`].
    pub fn weight(&self, resource: ResourceId) -> u64
        ensures value { result ≡ weight (record_in self.now resource.0).kinds }
        ensures small { result ≤ MAX_WEIGHT }
    {
        match self.table.get(resource.0) {
            Some(record) => record.weight(),
            None => 0,
        }
    }

    /// The number of records.
    pub fn len(&self) -> usize
        ensures value { result ≡ map.len self.now }
        ensures small { result < 2 ^ 63 }
    {
        self.table.len()
    }

    /// The resources whose turn isn't 0, rising.
    #[tactic(auto, unfolding(crate::specs::Written::written))]
    pub fn resources(&self, alloc: Global) -> Result<List<ResourceId>, NoMemory>
        ensures { IfOk result (λ all. all ≡ written self.now) }
    {
        let mut all = List::new(alloc);
        for (id, held) in self.table.tree() {
            if held.turn() > 0 {
                all.push(ResourceId(*id))?;
            }
        }
        Ok(all)
    }
}
