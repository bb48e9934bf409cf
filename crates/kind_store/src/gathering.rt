//! The values of a kind in an answer to a Fetch, gathered by a selector (RFC 6940, section
//! 7.4.2.1).

ghost use Rattle.std.specs.Prelude.{◌≡◌, ℕ, ◌-◌, ◌+◌, ◌≤◌, ◌^◌, min, map, fold, IfOk, OnOk};
ghost use Rattle.std.specs.List.{flat_map, range_with_len};
ghost use Rattle.data_models.specs.declared.stored_data.SlotKey.TheVariants as keys;
ghost use Rattle.storage_model.specs.Fetches as fetches;
ghost use Rattle.kind_store.specs.Gathered.{with_key, with_keys, with_range};

use crate::given::{given_for, given_size, is_live};
use data_models::{Selector, SlotKey, StoredData};
use record_state::Slots;
use reload_base::{Bytes, List, NoMemory, TryCopy};
use std::alloc::Global;
use storage_model::MAX_ANSWER;

/// A size isn't counted further than this: no answer may have it.
pub const ENOUGH: u64 = MAX_ANSWER + 1;

/// Values of an answer, and its size so far in bytes, counted up to [`ENOUGH`].
#[derive(Debug, Drop)]
pub struct Gathering {
    pub values: List<StoredData>,
    pub size: u64,
}

impl Gathering {
    /// Gathers the values that a selector asks for.
    #[tactic(auto, using(crate::proofs::Gathers::whole, crate::proofs::Gathers::none))]
    pub fn add(
        &mut self,
        alloc: Global,
        now: u64,
        slots: &Slots,
        selector: &Selector,
    ) -> Result<(), NoMemory>
        ensures { OnOk result (
            self.new ≡ with_keys now slots.now self.old
            (fetches.slots_asked now slots.now selector.now)) }
    {
        match selector {
            Selector::Whole => self.add_key(alloc, now, slots, SlotKey::Whole),
            Selector::Ranges(ranges) => self.add_ranges(alloc, now, slots, ranges.as_slice()),
            Selector::Names(names) => self.add_names(alloc, now, slots, names.as_slice()),
            Selector::Raw(_) => Ok(()),
        }
    }

    /// Gathers the value of one key.
    #[tactic(auto, unfolding(crate::specs::Gathered::with_key))]
    fn add_key(
        &mut self,
        alloc: Global,
        now: u64,
        slots: &Slots,
        key: SlotKey,
    ) -> Result<(), NoMemory>
        ensures { OnOk result (self.new ≡ with_key now slots.now self.old key) }
    {
        if self.size == ENOUGH {
            return Ok(());
        }
        let size = ENOUGH.min(self.size.saturating_add(given_size(now, slots, &key)));
        if size < ENOUGH {
            self.values.push(given_for(alloc, now, slots, key)?)?;
        }
        self.size = size;
        Ok(())
    }

    /// Gathers the values of ranges of indices.
    fn add_ranges(
        &mut self,
        alloc: Global,
        now: u64,
        slots: &Slots,
        ranges: &[(u32, u32)],
    ) -> Result<(), NoMemory>
        ensures { OnOk result (self.new ≡ fold (with_range now slots.now) self.old ranges.now) }
    {
        for range in ranges {
            self.add_range(alloc, now, slots, *range)?;
        }
        Ok(())
    }

    /// Gathers the values of a range of indices, up to the greatest that the array ever held.
    #[tactic(auto, using(crate::proofs::Gathers::index_more, crate::proofs::Gathers::no_index), unfolding(crate::specs::Gathered::with_range))]
    fn add_range(
        &mut self,
        alloc: Global,
        now: u64,
        slots: &Slots,
        range: (u32, u32),
    ) -> Result<(), NoMemory>
        ensures { OnOk result (self.new ≡ with_range now slots.now self.old range) }
    {
        let (first, last) = range;
        let end = (u64::from(last) + 1).min(slots.next_index());
        let mut index = u64::from(first);
        'indices: while index < end {
            self.add_key(alloc, now, slots, SlotKey::Index(index as u32))?;
            index += 1;
        }
        Ok(())
    }

    /// Gathers the values of names, or of all slots where there are none.
    #[tactic(auto)]
    fn add_names(
        &mut self,
        alloc: Global,
        now: u64,
        slots: &Slots,
        names: &[Bytes],
    ) -> Result<(), NoMemory>
        ensures { OnOk result (self.new ≡ with_keys now slots.now self.old
            (fetches.slots_asked now slots.now (Selector.Names names.now))) }
    {
        if names.is_empty() {
            self.add_all(alloc, now, slots)
        } else {
            self.add_named(alloc, now, slots, names)
        }
    }

    /// Gathers the values of names.
    #[tactic(auto, unfolding(crate::specs::Gathered::with_keys))]
    fn add_named(
        &mut self,
        alloc: Global,
        now: u64,
        slots: &Slots,
        names: &[Bytes],
    ) -> Result<(), NoMemory>
        ensures { OnOk result (
            self.new ≡ with_keys now slots.now self.old (map keys.Name names.now)) }
    {
        for name in names {
            self.add_key(alloc, now, slots, SlotKey::Name(name.copy(alloc)?))?;
        }
        Ok(())
    }

    /// Gathers all values that aren't expired, by their rising names.
    fn add_all(&mut self, alloc: Global, now: u64, slots: &Slots) -> Result<(), NoMemory>
        ensures { OnOk result (self.new ≡ with_keys now slots.now self.old
            (map keys.Name (fetches.live_names now slots.now))) }
    {
        let names = live_names(alloc, now, slots)?;
        self.add_named(alloc, now, slots, names.as_slice())
    }
}

/// The names of the slots whose values aren't expired, by rising bytes.
#[tactic(auto, unfolding(storage_model::specs::Fetches::live_names))]
fn live_names(alloc: Global, now: u64, slots: &Slots) -> Result<List<Bytes>, NoMemory>
    ensures { IfOk result (λ names. names ≡ fetches.live_names now slots.now) }
{
    let mut names = List::new(alloc);
    for (name, slot) in slots.table().tree() {
        if is_live(now, slot) {
            names.push(Bytes::from_slice(alloc, name.as_slice())?)?;
        }
    }
    Ok(names)
}
