//! What a record keeps of a kind.

ghost use Rattle.std.specs.Prelude.{◌≡◌, ◌+◌, IfOk, OnOk, OnErr};
ghost use Rattle.std.specs.FinMap as map;
ghost use Rattle.record_state.specs.Undo.{with_slot};
ghost use Rattle.record_state.specs.Light.{counted};
ghost use Rattle.storage_model.specs.Records.{empty_kind, kind_weight};

use crate::slot::{ENOUGH, SlotState};
use crate::slots::Slots;
use reload_base::{Bytes, NoMemory, TryCopy};
use std::alloc::Global;
use std::marker::Model;
use storage_model::KIND_WEIGHT;

/// What a record keeps of a kind.
#[derive(Debug, Drop)]
pub struct KindState {
    pub generation: u64,
    /// The greatest storage time that was ever appended.
    pub append_floor: u64,
    pub slots: Slots,
}

impl Model for KindState {
    ghost use Rattle.storage_model.specs.Records.{KindEntry};
    ghost use Rattle.record_state.specs.Codes.{kind_code};

    ghost Value = { KindEntry };

    ghost coded = { kind_code };

    ghost view = { λ k. record
        { generation = k.generation; append_floor = k.append_floor; slots = k.slots } };
}

impl KindState {
    /// A kind that nobody wrote.
    pub fn new(alloc: Global) -> KindState
        ensures { result ≡ empty_kind }
    {
        KindState {
            generation: 0,
            append_floor: 0,
            slots: Slots::new(alloc),
        }
    }

    /// What it weighs, counted up to [`ENOUGH`].
    pub fn weight(&self) -> u128
        ensures { result ≡ counted (kind_weight self.now) }
    {
        ENOUGH.min(KIND_WEIGHT as u128 + self.slots.weight())
    }

    /// Puts a slot at a key and sets the counters. Hands back the key and the slot before. After
    /// `NoMemory` all is as before.
    pub fn put(
        &mut self,
        alloc: Global,
        counters: (u64, u64),
        key: Bytes,
        slot: SlotState,
    ) -> Result<(Bytes, Option<SlotState>), NoMemory>
        ensures key { IfOk result (λ before. before.0 ≡ key) }
        ensures before { IfOk result (λ before. before.1 ≡ map.get self.old.slots key) }
        ensures ok { OnOk result (self.new ≡ with_slot self.old counters.0 counters.1 key slot) }
        ensures err { OnErr result (self.new ≡ self.old) }
    {
        let before = self.slots.put(alloc, key, slot)?;
        self.generation = counters.0;
        self.append_floor = counters.1;
        Ok(before)
    }
}

impl TryCopy for KindState {
    fn copy(&self, alloc: Global) -> Result<KindState, NoMemory> {
        Ok(KindState {
            generation: self.generation,
            append_floor: self.append_floor,
            slots: self.slots.copy(alloc)?,
        })
    }
}
