//! The slots of a kind, by their keys.

ghost use Rattle.std.specs.Prelude.{◌≡◌, ◌<◌, ◌≤◌, ◌^◌, Some, None, is_some, IsSome, IsOk, unwrap_or, if◌then◌else◌, IfOk, OnOk, OnErr};
ghost use Rattle.std.specs.Option.{option_copied};
ghost use Rattle.std.specs.FinMap as map;
ghost use Rattle.record_state.specs.Light.{IsNoSooner};

use crate::keys::index_of;
use crate::slot::{SlotState, expiry_of, slot_weight, weight_before};
use ordered_tables::KeyTable;
use reload_base::{Bytes, NoMemory, TryCopy};
use std::alloc::Global;
use std::marker::Model;

/// The slots of a kind, by their keys as bytes. Contracts see the map.
#[derive(Debug, Drop)]
pub struct Slots {
    table: KeyTable<SlotState>,
    /// What they weigh, each counted no further than a record may weigh.
    weight: u128,
    /// No value expires before this clock, in milliseconds.
    soonest: u64,
}

impl Model for Slots {
    ghost use Rattle.std.specs.Prelude.{◌≡◌};
    ghost use Rattle.storage_model.specs.Records as records;
    ghost use Rattle.record_state.specs.Codes.{slots_code};
    ghost use Rattle.record_state.specs.Light.{slots_sum, IsNoSooner};

    ghost Value = { records.Slots };

    ghost coded = { slots_code };

    ghost view = { λ s. s.table };

    ghost invariant = { λ s. (s.weight ≡ slots_sum s.table) × IsNoSooner s.soonest s.table };
}

impl Slots {
    ghost use Rattle.record_state.specs.Light.{slots_sum};
    ghost use Rattle.record_state.specs.Undo.{slot_restored};
    ghost use Rattle.storage_model.specs.Records.{slot_in, next_index};

    /// No slots.
    pub fn new(alloc: Global) -> Slots
        ensures { result ≡ map.empty }
    {
        Slots {
            table: KeyTable::new(alloc),
            weight: 0,
            soonest: u64::MAX,
        }
    }

    /// The slots by their keys.
    pub fn table(&self) -> &KeyTable<SlotState>
        ensures { result.now ≡ self.now }
    {
        &self.table
    }

    /// What the slots weigh, each counted no further than a record may weigh.
    pub fn weight(&self) -> u128
        ensures value { result ≡ slots_sum self.now }
        ensures small { result < 2 ^ 82 }
    {
        let _count = self.table.len();
        self.weight
    }

    /// The greatest storage time that was ever accepted at a key.
    pub fn floor_at(&self, key: &[u8]) -> u64
        ensures { result ≡ (slot_in self.now key.now).floor }
    {
        match self.table.get(key) {
            Some(slot) => slot.floor,
            None => 0,
        }
    }

    /// The index behind the greatest that an array ever held: keys rise, so it stands last.
    #[tactic(auto, unfolding(storage_model::specs::Records::next_index))]
    pub fn next_index(&self) -> u64
        ensures value { result ≡ next_index self.now }
        ensures small { result ≤ 2 ^ 32 }
    {
        match self.table.last_key() {
            Some(key) => u64::from(index_of(key)) + 1,
            None => 0,
        }
    }

    /// A clock in milliseconds before which no value expires.
    pub fn soonest(&self) -> u64
        ensures { IsNoSooner result self.now }
    {
        self.soonest
    }

    /// Puts a slot at a key. Hands back the key and the slot before. Where there is one, no memory
    /// is taken. After `NoMemory` all is as before.
    pub fn put(
        &mut self,
        alloc: Global,
        key: Bytes,
        slot: SlotState,
    ) -> Result<(Bytes, Option<SlotState>), NoMemory>
        ensures key { IfOk result (λ before. before.0 ≡ key) }
        ensures before { IfOk result (λ before. before.1 ≡ map.get self.old key) }
        ensures ok { OnOk result (self.new ≡ map.insert self.old key slot) }
        ensures err { OnErr result (self.new ≡ self.old) }
        ensures there { IsSome (map.get self.old key) → IsOk result }
    {
        let mut slot = slot;
        if self.exchange(key.as_slice(), &mut slot) {
            return Ok((key, Some(slot)));
        }
        self.add(key.copy(alloc)?, slot)?;
        Ok((key, None))
    }

    /// Puts a slot at a key, in the place of one that is there. After `NoMemory` all is as before.
    pub(crate) fn add(&mut self, key: Bytes, slot: SlotState) -> Result<(), NoMemory>
        ensures ok { OnOk result (self.new ≡ map.insert self.old key slot) }
        ensures err { OnErr result (self.new ≡ self.old) }
    {
        let sum = self.weight();
        let len = key.len();
        let weight = slot_weight(len, &slot);
        let expiry = expiry_of(&slot);
        let before = self.table.insert(key, slot)?;
        self.weight = sum + weight - weight_before(len, &before);
        self.soonest = self.soonest.min(expiry);
        Ok(())
    }

    /// Exchanges the slot at a key for another, without memory. Where there is none, nothing
    /// changes.
    fn exchange(&mut self, key: &[u8], slot: &mut SlotState) -> bool
        ensures there { result ≡ is_some (map.get self.old key.now) }
        ensures slots { self.new ≡ (if is_some (map.get self.old key.now)
            then map.insert self.old key.now slot.old else self.old) }
        ensures slot { slot.new ≡ unwrap_or (map.get self.old key.now) slot.old }
    {
        let sum = self.weight();
        let len = key.len();
        let weight = slot_weight(len, slot);
        let expiry = expiry_of(slot);
        if !self.table.exchange(key, slot) {
            return false;
        }
        self.weight = sum + weight - slot_weight(len, slot);
        self.soonest = self.soonest.min(expiry);
        true
    }

    /// Takes the slot at a key out.
    fn remove(&mut self, key: &[u8])
        ensures { self.new ≡ slot_restored self.old key.now None }
    {
        let len = key.len();
        let before = self.table.remove(key);
        self.weight -= weight_before(len, &before);
    }

    /// Undoes that a slot was put, with what there was before. No memory is taken.
    pub fn restore(&mut self, key: &[u8], before: Option<SlotState>)
        ensures { self.new ≡ slot_restored self.old key.now before }
    {
        match before {
            Some(slot) => {
                let mut slot = slot;
                self.exchange(key, &mut slot);
            }
            None => self.remove(key),
        }
    }

    /// Learns anew when the first value expires, which only rises then. The slots stay.
    pub fn renew_soonest(&mut self)
        ensures { self.new ≡ self.old }
    {
        self.soonest = first_expiry(&self.table);
    }
}

/// When the first value of some slots expires, or the latest clock where there is none.
fn first_expiry(table: &KeyTable<SlotState>) -> u64
    ensures { IsNoSooner result table.now }
{
    let mut first = u64::MAX;
    for (_, slot) in table.tree() {
        first = first.min(expiry_of(slot));
    }
    first
}

impl TryCopy for Slots {
    fn copy(&self, alloc: Global) -> Result<Slots, NoMemory> {
        Ok(Slots {
            table: self.table.copy(alloc)?,
            weight: self.weight,
            soonest: self.soonest,
        })
    }
}
