//! The kinds of a record, by Kind-ID.

ghost use Rattle.std.specs.Prelude.{◌≡◌, ◌<◌, ◌^◌, is_some, Some, None, OnOk, OnErr, unwrap_or, if◌then◌else◌, true, IfOk};
ghost use Rattle.std.specs.Option.{option_copied, option_map_or};
ghost use Rattle.storage_model.specs.Records.{kind_weight};
ghost use Rattle.record_state.specs.Light.{counted};
ghost use Rattle.std.specs.FinMap as map;

use crate::kind::KindState;
use crate::slot::SlotState;
use crate::undo::{KindsUndo, Undo};
use ordered_tables::SortedTable;
use reload_base::{Bytes, NoMemory, TryCopy};
use std::alloc::Global;
use std::marker::Model;

/// The kinds of a record, by Kind-ID. Contracts see the map.
#[derive(Debug, Drop)]
pub struct Kinds {
    table: SortedTable<KindState>,
    /// What they weigh, each counted no further than a record may weigh.
    weight: u128,
}

impl Model for Kinds {
    ghost use Rattle.std.specs.Prelude.{◌≡◌};
    ghost use Rattle.storage_model.specs.Records as records;
    ghost use Rattle.record_state.specs.Codes.{kinds_code};
    ghost use Rattle.record_state.specs.Light.{kinds_sum, AreKindIds};

    ghost Value = { records.Kinds };

    ghost coded = { kinds_code };

    ghost view = { λ k. k.table };

    ghost invariant = { λ k. (k.weight ≡ kinds_sum k.table) × AreKindIds k.table };
}

impl Kinds {
    ghost use Rattle.record_state.specs.Light.{kinds_sum, AreKindIds};
    ghost use Rattle.record_state.specs.Undo.{slot_put, restored};
    ghost use Rattle.record_state.specs.Log.{undone, kinds_undone};

    /// No kinds.
    pub fn new(alloc: Global) -> Kinds
        ensures { result ≡ map.empty }
    {
        Kinds {
            table: SortedTable::new(alloc),
            weight: 0,
        }
    }

    /// The kinds by their Kind-IDs.
    pub fn table(&self) -> &SortedTable<KindState>
        ensures kinds { result.now ≡ self.now }
        ensures ids { AreKindIds self.now }
    {
        &self.table
    }

    /// What there is of a kind.
    pub fn get(&self, id: u32) -> Option<&KindState>
        ensures { option_copied result ≡ map.get self.now id }
    {
        self.table.get(id as u128)
    }

    /// What the kinds weigh, each counted no further than a record may weigh.
    pub fn weight(&self) -> u128
        ensures value { result ≡ kinds_sum self.now }
        ensures small { result < 2 ^ 82 }
    {
        let _count = self.table.len();
        self.weight
    }

    /// Adds a kind that isn't there. After `NoMemory` all is as before.
    pub(crate) fn add(&mut self, id: u32, kind: KindState) -> Result<(), NoMemory>
        requires { map.get self.old id ≡ None }
        ensures ok { OnOk result (self.new ≡ map.insert self.old id kind) }
        ensures err { OnErr result (self.new ≡ self.old) }
    {
        let sum = self.weight();
        let weight = kind.weight();
        self.table.insert(id as u128, kind)?;
        self.weight = sum + weight;
        Ok(())
    }

    /// Exchanges a kind for another, which takes no memory. Where it isn't there, nothing changes.
    fn exchange(&mut self, id: u32, kind: &mut KindState) -> bool
        ensures there { result ≡ is_some (map.get self.old id) }
        ensures kinds { self.new ≡ (if is_some (map.get self.old id)
            then map.insert self.old id kind.old else self.old) }
        ensures kind { kind.new ≡ unwrap_or (map.get self.old id) kind.old }
    {
        let sum = self.weight();
        let weight = kind.weight();
        if !self.table.exchange(id as u128, kind) {
            return false;
        }
        self.weight = sum + weight - kind.weight();
        true
    }

    /// Takes a kind out.
    fn remove(&mut self, id: u32)
        ensures { self.new ≡ map.remove self.old id }
    {
        let weight = self.weight_of(id);
        self.table.remove(id as u128);
        self.weight -= weight;
    }

    /// What a kind weighs, 0 where it isn't there.
    fn weight_of(&self, id: u32) -> u128
        ensures { result ≡ option_map_or (λ k. counted (kind_weight k)) (map.get self.now id) 0 }
    {
        match self.get(id) {
            Some(kind) => kind.weight(),
            None => 0,
        }
    }

    /// Puts a slot of a kind, and sets its generation counter and append floor. Hands back what
    /// undoes that. After `NoMemory` all is as before.
    pub(crate) fn put(
        &mut self,
        alloc: Global,
        id: u32,
        counters: (u64, u64),
        key: Bytes,
        slot: SlotState,
    ) -> Result<Undo, NoMemory>
        ensures ok { OnOk result (self.new ≡ slot_put self.old id counters.0 counters.1 key slot) }
        ensures undo { IfOk result (λ u. undone u self.new ≡ self.old) }
        ensures err { OnErr result (self.new ≡ self.old) }
    {
        if self.get(id).is_some() {
            self.put_there(alloc, id, counters, key, slot)
        } else {
            self.put_new(alloc, id, counters, key, slot)
        }
    }

    /// Puts a slot of a kind that is there.
    fn put_there(
        &mut self,
        alloc: Global,
        id: u32,
        counters: (u64, u64),
        key: Bytes,
        slot: SlotState,
    ) -> Result<Undo, NoMemory>
        requires { is_some (map.get self.old id) ≡ true }
        ensures ok { OnOk result (self.new ≡ slot_put self.old id counters.0 counters.1 key slot) }
        ensures undo { IfOk result (λ u. undone u self.new ≡ self.old) }
        ensures err { OnErr result (self.new ≡ self.old) }
    {
        let mut kind = KindState::new(alloc);
        self.exchange(id, &mut kind);
        let was = (kind.generation, kind.append_floor);
        let put = kind.put(alloc, counters, key, slot);
        self.exchange(id, &mut kind);
        let (key, before) = put?;
        Ok(Undo {
            kind: id,
            counters: Some(was),
            key,
            before,
        })
    }

    /// Puts a slot of a kind that isn't there.
    fn put_new(
        &mut self,
        alloc: Global,
        id: u32,
        counters: (u64, u64),
        key: Bytes,
        slot: SlotState,
    ) -> Result<Undo, NoMemory>
        requires { map.get self.old id ≡ None }
        ensures ok { OnOk result (self.new ≡ slot_put self.old id counters.0 counters.1 key slot) }
        ensures undo { IfOk result (λ u. undone u self.new ≡ self.old) }
        ensures err { OnErr result (self.new ≡ self.old) }
    {
        let mut kind = KindState::new(alloc);
        let (key, before) = kind.put(alloc, counters, key, slot)?;
        self.add(id, kind)?;
        Ok(Undo {
            kind: id,
            counters: None,
            key,
            before,
        })
    }

    /// Undoes that a slot was put. No memory is taken.
    pub(crate) fn undo(&mut self, alloc: Global, undo: Undo)
        ensures { self.new ≡ undone undo self.old }
    {
        let Undo {
            kind: id,
            counters,
            key,
            before,
        } = undo;
        match counters {
            Some(counters) => self.restore(alloc, id, counters, key.as_slice(), before),
            None => self.remove(id),
        }
    }

    /// Makes kinds again what they were before slots were put. No memory is taken.
    pub fn undo_all(&mut self, alloc: Global, undo: KindsUndo)
        ensures { self.new ≡ kinds_undone undo self.old }
    {
        let KindsUndo { log } = undo;
        let mut log = log;
        while let Some(undo) = log.pop() {
            self.undo(alloc, undo);
        }
    }

    /// Undoes that a slot was put of a kind that was there.
    fn restore(
        &mut self,
        alloc: Global,
        id: u32,
        counters: (u64, u64),
        key: &[u8],
        before: Option<SlotState>,
    )
        ensures { self.new ≡ restored self.old id (Some counters) key.now before }
    {
        let mut kind = KindState::new(alloc);
        if !self.exchange(id, &mut kind) {
            return;
        }
        kind.generation = counters.0;
        kind.append_floor = counters.1;
        kind.slots.restore(key, before);
        self.exchange(id, &mut kind);
    }

    /// Learns anew when the first value of a kind expires. The kinds stay. No memory is taken.
    pub(crate) fn renew_soonest(&mut self, alloc: Global, id: u32)
        ensures { self.new ≡ self.old }
    {
        let mut kind = KindState::new(alloc);
        if !self.exchange(id, &mut kind) {
            return;
        }
        kind.slots.renew_soonest();
        self.exchange(id, &mut kind);
    }
}

impl TryCopy for Kinds {
    fn copy(&self, alloc: Global) -> Result<Kinds, NoMemory> {
        Ok(Kinds {
            table: self.table.copy(alloc)?,
            weight: self.weight,
        })
    }
}
