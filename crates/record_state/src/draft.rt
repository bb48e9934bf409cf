//! Kinds that are being changed, so that they can be had back as they were.

ghost use Rattle.std.specs.Prelude.{◌≡◌, OnOk};

use crate::kinds::Kinds;
use crate::slot::SlotState;
use crate::undo::{KindsUndo, Undo};
use reload_base::{Bytes, List, NoMemory};
use std::alloc::Global;
use std::marker::Model;

/// Kinds that are being changed, with what was there kept aside. Contracts see the kinds, and what
/// they were before. Whatever happens in between, they can be had back so without memory.
#[derive(Debug, Drop)]
pub struct Draft {
    alloc: Global,
    kinds: Kinds,
    log: Vec<Undo>,
}

impl Model for Draft {
    ghost use Rattle.record_state.specs.Undo.{Drafted};
    ghost use Rattle.record_state.specs.Codes.{drafted_code};
    ghost use Rattle.record_state.specs.Log.{all_undone};

    ghost Value = { Drafted };

    ghost coded = { drafted_code };

    ghost view = { λ d. record { before = all_undone d.log.items d.kinds; kinds = d.kinds } };
}

impl Draft {
    ghost use Rattle.record_state.specs.Undo.{slot_put};
    ghost use Rattle.record_state.specs.Log.{kinds_undone};

    /// Kinds of which nothing is changed yet.
    #[tactic(auto, unfolding(crate::specs::Log::all_undone))]
    pub fn new(alloc: Global, kinds: Kinds) -> Draft
        ensures before { result.before ≡ kinds }
        ensures kinds { result.kinds ≡ kinds }
    {
        Draft {
            alloc,
            kinds,
            log: Vec::new(alloc),
        }
    }

    /// The kinds as they are now.
    pub fn kinds(&self) -> &Kinds
        ensures { result.now ≡ self.now.kinds }
    {
        &self.kinds
    }

    /// Puts a slot of a kind, and sets its generation counter and append floor.
    #[tactic(auto, using(crate::proofs::Undos::put_undone))]
    pub fn put(
        &mut self,
        id: u32,
        counters: (u64, u64),
        key: Bytes,
        slot: SlotState,
    ) -> Result<(), NoMemory>
        ensures before { self.new.before ≡ self.old.before }
        ensures ok { OnOk result (self.new.kinds
            ≡ slot_put self.old.kinds id counters.0 counters.1 key slot) }
    {
        self.log.reserve(1)?;
        let undo = self.kinds.put(self.alloc, id, counters, key, slot)?;
        self.log.push_reserved(undo);
        Ok(())
    }

    /// Learns anew when the first value of a kind expires. No memory is taken.
    pub fn renew_soonest(&mut self, id: u32)
        ensures { self.new ≡ self.old }
    {
        self.kinds.renew_soonest(self.alloc, id);
    }

    /// The kinds as they are now, and what makes them again what they were before.
    pub fn commit(self) -> (Kinds, KindsUndo)
        ensures kinds { result.0 ≡ self.kinds }
        ensures undo { kinds_undone result.1 self.kinds ≡ self.before }
    {
        let Draft {
            alloc: _,
            kinds,
            log,
        } = self;
        let log = List::from_vec(log);
        (kinds, KindsUndo { log })
    }

    /// The kinds as they were before. No memory is taken.
    pub fn rollback(self) -> Kinds
        ensures { result ≡ self.before }
    {
        let Draft { alloc, kinds, log } = self;
        let mut kinds = kinds;
        let log = List::from_vec(log);
        kinds.undo_all(alloc, KindsUndo { log });
        kinds
    }
}
